//! Rows of each of the three widths of samples.

use super::made::bits_of;
use pnm_image::SampleWidth;
use pnm_samples::{SampleSlice, SampleVec, Samples};
use pnm_test_support::{Unmade, held, named, write_all};
use std::alloc::{AllocError, Global};

/// How many samples the row has whose parts are copied.
pub const WHOLE: usize = 20;

/// Where its parts may begin, and how many samples they may have.
pub const PARTS: &[u8] = b"0-20 0-20";

const WIDTHS: &[(&[u8], SampleWidth)] = &[
    (b"bits", SampleWidth::Bits),
    (b"bytes", SampleWidth::Bytes),
    (b"words", SampleWidth::Words),
];

/// A made-up row of bits, bytes or words, as a word says.
fn made(alloc: Global, word: &[u8], count: usize) -> Result<Samples, Unmade> {
    match named(WIDTHS, word) {
        Some(SampleWidth::Bits) => {
            let bits = bits_of(alloc, 3, count)?;
            Ok(Samples::from_vec(SampleVec::Bits(bits)))
        }
        Some(SampleWidth::Bytes) => Ok(counted(alloc, count, 37, SampleWidth::Bytes)?),
        Some(SampleWidth::Words) => Ok(counted(alloc, count, 9_973, SampleWidth::Words)?),
        None => Err(Unmade),
    }
}

/// A row of `count` samples from 0 on, each `step` above the one before, held in this width.
fn counted(
    alloc: Global,
    count: usize,
    step: usize,
    sample_width: SampleWidth,
) -> Result<Samples, AllocError> {
    let mut words = Vec::new(alloc);
    for at in 0..count {
        words.push((at.wrapping_mul(step) % 65_536) as u16)?;
    }
    held(alloc, words.as_slice(), sample_width)
}

/// Adds how a row is held, and how many samples it has.
fn write_width(row: &Samples, out: &mut String) -> Result<(), AllocError> {
    let (name, count) = match row.as_slice() {
        SampleSlice::Bits(_, count) => ("bits", count),
        SampleSlice::Bytes(bytes) => ("bytes", bytes.len()),
        SampleSlice::Words(words) => ("words", words.len()),
    };
    write!(out, " {name} {count}")
}

/// Adds how a row is held, and its samples one by one.
fn write_held(row: &Samples, out: &mut String) -> Result<(), AllocError> {
    write_width(row, out)?;
    for at in 0..row.len() {
        let sample = row.sample(at);
        write!(out, " {sample}")?;
    }
    Ok(())
}

/// Adds a row: how it is held, its samples one by one, and all at once; the same of its copy; and of what it is made
/// of.
pub fn write_made(
    alloc: Global,
    word: &[u8],
    count: usize,
    out: &mut String,
) -> Result<(), Unmade> {
    let row = made(alloc, word, count)?;
    write_held(&row, out)?;
    write_words(row.to_words(alloc), out)?;
    write_copy(alloc, row.copy(alloc)?, out)?;
    write_words(Samples::from_vec(row.into_vec()).into_words(alloc), out)
}

/// Adds how the copy of a row is held, and all its samples at once.
fn write_copy(alloc: Global, copy: Samples, out: &mut String) -> Result<(), Unmade> {
    write_width(&copy, out)?;
    write_words(copy.into_words(alloc), out)
}

/// Adds samples.
fn write_words(words: Result<Vec<u16>, AllocError>, out: &mut String) -> Result<(), Unmade> {
    match words {
        Ok(words) => Ok(write_all(out, words.as_slice())?),
        Err(_) => Err(Unmade),
    }
}

/// Adds `count` samples of a row of 20, from sample `start` on.
pub fn write_part(
    alloc: Global,
    word: &[u8],
    start: usize,
    count: usize,
    out: &mut String,
) -> Result<(), Unmade> {
    let row = made(alloc, word, WHOLE)?;
    let mut buffer = [7; WHOLE];
    if start > row.len() || count > row.len() - start || count > WHOLE {
        return Err(Unmade);
    }
    let part = &mut buffer[..count];
    row.as_slice().copy_to(start, &mut *part);
    Ok(write_all(out, part)?)
}
