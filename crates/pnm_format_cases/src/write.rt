//! What a sink writes of written messages, and which it refuses.

mod made;
mod sinks;

use pnm_image::Kind;
use pnm_test_support::Unmade;
use pnm_write::{Form, SinkFault};
use std::alloc::Global;

/// What a line is about.
#[derive(Clone, Copy)]
pub enum How {
    Raw,
    Plain,
    Sips,
    Numbers,
    Bitmaps,
}

/// What each word is about.
pub const WORDS: &[(&[u8], How)] = &[
    (b"raw", How::Raw),
    (b"plain", How::Plain),
    (b"sips", How::Sips),
    (b"numbers", How::Numbers),
    (b"bitmaps", How::Bitmaps),
];

/// All faults.
pub const FAULTS: &[SinkFault] = &[
    SinkFault::WriteFailed,
    SinkFault::OutOfOrder,
    SinkFault::Broken,
    SinkFault::SecondPlain,
    SinkFault::PlainPam,
];

/// Adds the answer to a case.
pub fn solve(alloc: Global, how: How, text: &[u8], out: &mut String) -> Result<(), Unmade> {
    match how {
        How::Raw => sinks::write_written(alloc, Form::Raw, text, out),
        How::Plain => sinks::write_written(alloc, Form::Plain, text, out),
        How::Sips => sinks::write_sips(alloc, text, out),
        How::Numbers => made::write_numbers(alloc, text, out),
        How::Bitmaps => made::write_sweep(alloc, Kind::Bit, text, out),
    }
}

/// Returns the form of this name: raw by default.
fn form_of(word: &[u8]) -> Form {
    if word == b"plain".as_slice() {
        Form::Plain
    } else {
        Form::Raw
    }
}
