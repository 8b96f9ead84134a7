//! What rows of bits, bytes and words hold.

mod bounds;
mod made;
mod pixels;
mod rows;
mod sweeps;

use pnm_image::SampleWidth;
use pnm_test_support::{Unmade, cut_word};
use std::alloc::Global;

/// What a line is about.
#[derive(Clone, Copy)]
pub enum How {
    Bits,
    New,
    Invert,
    Reverse,
    Take,
    Append,
    Repeat,
    Columns,
    Words,
    Bytes,
    Pixels,
    Bound,
    Left,
    Samples,
    Parts,
}

/// What each word is about.
pub const WORDS: &[(&[u8], How)] = &[
    (b"bits", How::Bits),
    (b"new", How::New),
    (b"invert", How::Invert),
    (b"reverse", How::Reverse),
    (b"take", How::Take),
    (b"append", How::Append),
    (b"repeat", How::Repeat),
    (b"columns", How::Columns),
    (b"words", How::Words),
    (b"bytes", How::Bytes),
    (b"pixels", How::Pixels),
    (b"bound", How::Bound),
    (b"left", How::Left),
    (b"samples", How::Samples),
    (b"parts", How::Parts),
];

/// Adds the answer to a case.
pub fn solve(alloc: Global, how: How, text: &[u8], out: &mut String) -> Result<(), Unmade> {
    match how {
        How::Bits => pixels::write_bits_of(alloc, text, out),
        How::Words => bounds::write_samples(alloc, text, SampleWidth::Words, out),
        How::Bytes => bounds::write_samples(alloc, text, SampleWidth::Bytes, out),
        How::Pixels => bounds::write_pixels(alloc, text, out),
        How::Bound => bounds::write_bound(alloc, text, out),
        How::Left => bounds::write_left(text, out),
        How::Columns | How::Samples => {
            let (kind, ranges) = cut_word(text);
            sweeps::write_sweep(alloc, how, kind, ranges, out)
        }
        How::Parts => sweeps::write_sweep(alloc, how, text, rows::PARTS, out),
        _ => sweeps::write_sweep(alloc, how, b"", text, out),
    }
}
