//! What rows of bits hold.

use super::How;
use super::made::{bits_of, packed};
use pnm_samples::{BitRows, Bits, PixelRows, columns};
use pnm_test_support::{Unmade, cut_number, write_text};
use std::alloc::{AllocError, Global};

/// Adds how many pixels a row has, each of them, and its bytes; and a word if the pixels differ when they are widened.
fn write_row(alloc: Global, bits: &Bits, out: &mut String) -> Result<(), AllocError> {
    let count = bits.len();
    write!(out, " {count} ")?;
    for at in 0..bits.len() {
        let pixel = bits.pixel(at);
        write!(out, "{pixel}")?;
    }
    if !are_widened(alloc, bits)? {
        out.push_str(" but widened")?;
    }
    write_text(out, bits.as_bytes())
}

/// Whether the pixels stay the same when they are widened.
fn are_widened(alloc: Global, bits: &Bits) -> Result<bool, AllocError> {
    let widened = bits.to_words(alloc)?;
    for at in 0..bits.len() {
        if widened.get(at).copied() != Some(bits.pixel(at)) {
            return Ok(false);
        }
    }
    Ok(widened.len() == bits.len())
}

/// Adds what the row of COUNT pixels of BYTES holds, and what an empty one holds.
pub fn write_bits_of(alloc: Global, text: &[u8], out: &mut String) -> Result<(), Unmade> {
    let (count, bytes) = cut_number(text);
    let bits = Bits::new(Vec::from_slice(alloc, bytes)?, count);
    write_row(alloc, &bits, out)?;
    Ok(write_row(alloc, &Bits::empty(alloc), out)?)
}

/// Adds what the row that is made of these numbers holds.
pub fn write_made(
    alloc: Global,
    how: How,
    numbers: (usize, usize, usize),
    out: &mut String,
) -> Result<(), AllocError> {
    let bits = row_of(alloc, how, numbers)?;
    write_row(alloc, &bits, out)
}

/// The row that is made of these numbers: of `count` pixels unless a comment says otherwise.
fn row_of(
    alloc: Global,
    how: How,
    (count, b, c): (usize, usize, usize),
) -> Result<Bits, AllocError> {
    match how {
        // The first `count` pixels of the bytes of 40.
        How::Take => Ok(Bits::new(packed(alloc, 1, 40)?, count)),
        // After them a run of others: `c` pixels from pixel `b` on.
        How::Append => appended(alloc, count, b, c),
        // Each of them `b` times.
        How::Repeat => bits_of(alloc, 2, count)?.repeat(alloc, b),
        How::Reverse => {
            let mut bits = bits_of(alloc, 2, count)?;
            bits.reverse();
            Ok(bits)
        }
        How::Invert => {
            let mut bits = bits_of(alloc, count, count)?;
            bits.invert();
            Ok(bits)
        }
        _ if b == 0 => bits_of(alloc, count, count),
        _ => bits_of(alloc, count, count)?.copy(alloc),
    }
}

/// `held` pixels, and a run of those of a row of 43, if it has such a run.
fn appended(alloc: Global, held: usize, start: usize, count: usize) -> Result<Bits, AllocError> {
    let from = bits_of(alloc, 2, 43)?;
    let mut bits = bits_of(alloc, 1, held)?;
    if start <= from.len() && count <= from.len() - start {
        bits.append(&from, start, count)?;
    }
    Ok(bits)
}

/// The bytes of the rows of a made-up image.
fn image_bytes(alloc: Global, width: usize, height: usize) -> Result<Vec<u8>, AllocError> {
    let mut bytes = Vec::new(alloc);
    for y in 0..height {
        let row = bits_of(alloc, y, width)?;
        bytes.extend_from_slice(row.as_bytes())?;
    }
    Ok(bytes)
}

/// `count` columns of an image of this height, from byte `byte` on.
fn columns_of(
    alloc: Global,
    byte: usize,
    count: usize,
    height: usize,
) -> Result<Vec<Bits>, Unmade> {
    if byte >= 100 || count > 256 || height >= 10_000 {
        return Err(Unmade);
    }
    let width = 8 * byte + count;
    let bytes = image_bytes(alloc, width, height)?;
    if bytes.len() != height * width.div_ceil(8) {
        return Err(Unmade);
    }
    let image = BitRows::new(bytes, height, width);
    let mut rows = PixelRows::new(alloc);
    rows.push_rows(&image)?;
    Ok(columns(alloc, &rows, byte, count)?)
}

/// Adds what `count` columns of an image of this height hold, from byte `byte` on.
pub fn write_columns(
    alloc: Global,
    byte: usize,
    count: usize,
    height: usize,
    out: &mut String,
) -> Result<(), Unmade> {
    let columns = columns_of(alloc, byte, count, height)?;
    for column in columns.as_slice() {
        write_column(column, out)?;
    }
    Ok(())
}

/// Adds how many pixels a column has, and its bytes.
fn write_column(column: &Bits, out: &mut String) -> Result<(), AllocError> {
    let count = column.len();
    write!(out, " {count}")?;
    write_text(out, column.as_bytes())
}
