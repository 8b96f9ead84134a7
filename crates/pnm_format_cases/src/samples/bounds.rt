//! The greatest sample, and whether rows are within a number.

use pnm_image::SampleWidth;
use pnm_samples::{Bits, Sample, SampleSlice, SampleVec, Samples, greatest, greatest_byte};
use pnm_test_support::{Unmade, cut_number, held, number_of, samples_of};
use std::alloc::{AllocError, Global};

/// Numbers at the ends of bits, bytes and words, and next to them.
const BOUNDS: [u32; 12] = [
    0,
    1,
    2,
    200,
    254,
    255,
    256,
    300,
    65_534,
    65_535,
    65_536,
    u32::MAX,
];

/// Adds for each number, and for those about the greatest sample, whether a row is within it.
fn write_within(row: &Samples, most: u32, out: &mut String) -> Result<(), AllocError> {
    out.push(' ')?;
    for bound in BOUNDS {
        out.push(if row.are_within(bound) { '1' } else { '0' })?;
    }
    for bound in [most.saturating_sub(1), most, most.saturating_add(1)] {
        out.push(if row.are_within(bound) { '1' } else { '0' })?;
    }
    Ok(())
}

/// Adds the greatest sample of a row, and whether the row and its copy are within numbers.
fn write_both(alloc: Global, row: &Samples, out: &mut String) -> Result<(), AllocError> {
    let most = greatest_of(row);
    write!(out, " {most}")?;
    write_within(row, most, out)?;
    write_within(&row.copy(alloc)?, most, out)
}

/// The greatest of the bytes or words of a row.
fn greatest_of(row: &Samples) -> u32 {
    match row.as_slice() {
        SampleSlice::Bits(_, _) => 1,
        SampleSlice::Bytes(bytes) => u32::from(greatest_byte(bytes)),
        SampleSlice::Words(words) => u32::from(greatest(words)),
    }
}

/// Adds the greatest of these samples, held in this width, and whether the row is within numbers.
pub fn write_samples(
    alloc: Global,
    text: &[u8],
    sample_width: SampleWidth,
    out: &mut String,
) -> Result<(), Unmade> {
    let samples = samples_of(alloc, text)?;
    let row = held(alloc, samples.as_slice(), sample_width)?;
    Ok(write_both(alloc, &row, out)?)
}

/// Adds whether the row of COUNT pixels of BYTES is within numbers. Spare bits are no pixels.
pub fn write_pixels(alloc: Global, text: &[u8], out: &mut String) -> Result<(), Unmade> {
    let (count, bytes) = cut_number(text);
    let bits = Bits::new(Vec::from_slice(alloc, bytes)?, count);
    let row = Samples::from_vec(SampleVec::Bits(bits));
    Ok(write_within(&row, 1, out)?)
}

/// Adds whether rows of bytes and of words with this number as their bound are within numbers.
pub fn write_bound(alloc: Global, text: &[u8], out: &mut String) -> Result<(), Unmade> {
    let (number, _) = cut_number(text);
    let bound = number_of(number);
    if bound < 9 {
        return Err(Unmade);
    }
    let bytes = SampleVec::Bytes(Vec::from_slice(alloc, &[3, 9, 0])?);
    write_within(&Samples::within(bytes, bound), 9, out)?;
    let words = SampleVec::Words(Vec::from_slice(alloc, &[3, 9, 0])?);
    Ok(write_within(&Samples::within(words, bound), 9, out)?)
}

/// The maxval minus itself, through the trait bound.
fn left_of<S: Sample>(maxval: S) -> S {
    maxval.taken_from(maxval)
}

/// Adds a maxval minus a sample, and minus itself: as bytes, if both numbers are bytes, and as words.
pub fn write_left(text: &[u8], out: &mut String) -> Result<(), Unmade> {
    let (maxval, rest) = cut_number(text);
    let (sample, _) = cut_number(rest);
    if let (Ok(maxval), Ok(sample)) = (u8::try_from(maxval), u8::try_from(sample)) {
        if sample <= maxval {
            let (left, none) = (sample.taken_from(maxval), left_of(maxval));
            write!(out, " {left} {none}")?;
        }
    }
    if let (Ok(maxval), Ok(sample)) = (u16::try_from(maxval), u16::try_from(sample)) {
        if sample <= maxval {
            let (left, none) = (sample.taken_from(maxval), left_of(maxval));
            write!(out, " {left} {none}")?;
        }
    }
    Ok(())
}
