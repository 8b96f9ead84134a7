//! Rows of packed pixels, transposed: up to 256 columns at a time, which lie in 32 bytes of each row.

ghost use Rattle.std.specs.Prelude.{◌≡◌, ◌≤◌, ◌<◌, ◌+◌, ◌*◌, ◌/◌, ◌^◌, ℕ, All, IfOk, get_or, length, map, []};
ghost use Rattle.std.specs.List.{range_with_len};
ghost use Rattle.pnm_samples.specs.Columns.{column_at};
ghost use Rattle.pnm_samples.specs.Internal.Columns.{AreLong, HasPair, HavePairs, HoldColumns, HoldsFrom};
ghost use Rattle.pnm_samples.specs.Internal.Columns.{HoldSixteen};

use crate::bits::Bits;
use crate::block::{columns_of_sixteen, transposed};
use crate::pixel_rows::PixelRows;
use std::alloc::{AllocError, Global};
use std::simd::prelude::*;

/// The bytes of white pixels, for a missing row. 32 bytes of a row are read side by side, so that all that the
/// processor fetches with one of them is used.
static WHITE: [u8; 32] = [0; 32];

/// Makes `count` columns of the rows, at most 256, each a row of its own. The first column lies in the highest bit of
/// byte `byte` of each row. A column has as many pixels as there are rows.
///
/// # Errors
///
/// If there is no memory for them.
pub fn columns(
    alloc: Global,
    rows: &PixelRows,
    byte: usize,
    count: usize,
) -> Result<Vec<Bits>, AllocError>
    requires count { count ≤ 256 }
    requires rows { All (λ row. 8 * byte + count ≤ length row) rows.now }
    requires fits { (length rows.now < 2 ^ 55) × (byte < 2 ^ 55) }
    ensures { IfOk result (λ made. made.items ≡ map (column_at rows.now) (range_with_len (8 * byte) count)) }
{
    let mut columns = column_bytes(alloc, rows, byte, count.div_ceil(8))?;
    columns.truncate(count);
    let mut made = Vec::with_capacity(alloc, count)?;
    for column in columns {
        made.push(Bits::new(column, rows.len()))?;
    }
    Ok(made)
}

/// Makes the bytes of the columns that lie in `width` bytes of each row, from byte `byte` on: two bytes of each column
/// for every sixteen rows.
fn column_bytes(
    alloc: Global,
    rows: &PixelRows,
    byte: usize,
    width: usize,
) -> Result<Vec<Vec<u8>>, AllocError>
    requires width { width ≤ 32 }
    requires rows { All (λ row. byte + width ≤ (length row + 7) / 8) rows.now }
    requires fits { (length rows.now < 2 ^ 55) × (byte < 2 ^ 55) }
    ensures { IfOk result (λ columns. HoldColumns byte (8 * width) rows.now columns.items) }
{
    let groups = rows.len().div_ceil(16);
    let mut columns = columns_of_length(alloc, 8 * width, 2 * groups)?;
    for group in 0..groups {
        let sixteen = sixteen_from(rows, 16 * group, byte, width);
        for part in 0..width.div_ceil(16) {
            let first = 16 * part;
            let lanes = lanes_beside(&sixteen, first);
            for beside in first..width.min(first + 16) {
                let pairs = columns_of_sixteen(lanes[beside - first]);
                put_pairs(columns.as_mut_slice(), 8 * beside, 2 * group, &pairs);
            }
        }
    }
    Ok(columns)
}

/// Makes `count` columns of `length` bytes each.
fn columns_of_length(alloc: Global, count: usize, length: usize) -> Result<Vec<Vec<u8>>, AllocError>
    ensures { IfOk result (λ columns. AreLong count length columns.items) }
{
    let mut columns = Vec::with_capacity(alloc, count)?;
    for _ in 0..count {
        columns.push(Vec::from_elem(alloc, 0, length)?)?;
    }
    Ok(columns)
}

/// Returns the bytes from `byte` on of the sixteen rows from `first` on, with white ones for missing rows. In each
/// group of eight rows the last one comes first, since the first pixel of a byte lies in its highest bit.
#[inline]
fn sixteen_from(rows: &PixelRows, first: usize, byte: usize, width: usize) -> [&[u8]; 16]
    requires width { width ≤ 32 }
    requires rows { All (λ row. byte + width ≤ (length row + 7) / 8) rows.now }
    requires fits { first + 16 < 2 ^ 64 }
    ensures count { length result ≡ 16 }
    ensures enough { All (λ row. width ≤ length row.now) result }
    ensures held { HoldSixteen byte first rows.now result }
{
    [
        bytes_from(rows, first + 7, byte, width),
        bytes_from(rows, first + 6, byte, width),
        bytes_from(rows, first + 5, byte, width),
        bytes_from(rows, first + 4, byte, width),
        bytes_from(rows, first + 3, byte, width),
        bytes_from(rows, first + 2, byte, width),
        bytes_from(rows, first + 1, byte, width),
        bytes_from(rows, first, byte, width),
        bytes_from(rows, first + 15, byte, width),
        bytes_from(rows, first + 14, byte, width),
        bytes_from(rows, first + 13, byte, width),
        bytes_from(rows, first + 12, byte, width),
        bytes_from(rows, first + 11, byte, width),
        bytes_from(rows, first + 10, byte, width),
        bytes_from(rows, first + 9, byte, width),
        bytes_from(rows, first + 8, byte, width),
    ]
}

/// Returns the bytes of row `at` from byte `byte` on, at least `width` of them.
#[inline]
fn bytes_from(rows: &PixelRows, at: usize, byte: usize, width: usize) -> &[u8]
    requires width { width ≤ 32 }
    requires rows { All (λ row. byte + width ≤ (length row + 7) / 8) rows.now }
    ensures enough { width ≤ length result.now }
    ensures held { at < length rows.now → HoldsFrom byte (get_or rows.now at []) result.now }
{
    if at >= rows.len() {
        return &WHITE;
    }
    rows.bytes_from(at, byte)
}

/// Returns sixteen bytes of each of sixteen rows, from byte `at` on. Each vector holds the bytes that all rows have in
/// one place.
#[inline]
pub fn lanes_beside(rows: &[&[u8]], at: usize) -> [u8x16; 16]
    requires count { length rows.now ≡ 16 }
    requires within { All (λ row. at < length row.now) rows.now }
    ensures count { length result ≡ 16 }
    ensures lanes { (k : ℕ) → k < 16 → get_or result k [] ≡ map (λ row. get_or row.now (at + k) 0) rows.now }
{
    transposed([
        sixteen_bytes(rows[0], at),
        sixteen_bytes(rows[1], at),
        sixteen_bytes(rows[2], at),
        sixteen_bytes(rows[3], at),
        sixteen_bytes(rows[4], at),
        sixteen_bytes(rows[5], at),
        sixteen_bytes(rows[6], at),
        sixteen_bytes(rows[7], at),
        sixteen_bytes(rows[8], at),
        sixteen_bytes(rows[9], at),
        sixteen_bytes(rows[10], at),
        sixteen_bytes(rows[11], at),
        sixteen_bytes(rows[12], at),
        sixteen_bytes(rows[13], at),
        sixteen_bytes(rows[14], at),
        sixteen_bytes(rows[15], at),
    ])
}

/// Returns sixteen bytes from `at` on, with white ones after the last.
#[inline]
fn sixteen_bytes(row: &[u8], at: usize) -> u8x16
    requires { at < length row.now }
    ensures count { length result ≡ 16 }
    ensures bytes { (k : ℕ) → k < 16 → get_or result k 0 ≡ get_or row.now (at + k) 0 }
{
    if row.len() - at < 16 {
        return last_bytes(&row[at..]);
    }
    u8x16::from_slice(&row[at..at + 16])
}

/// Extends fewer than sixteen bytes by white ones.
#[inline(never)]
fn last_bytes(bytes: &[u8]) -> u8x16
    requires { length bytes.now < 16 }
    ensures count { length result ≡ 16 }
    ensures bytes { (k : ℕ) → k < 16 → get_or result k 0 ≡ get_or bytes.now k 0 }
{
    let mut lanes = [0; 16];
    lanes[..bytes.len()].copy_from_slice(bytes);
    u8x16::from_array(lanes)
}

/// Puts two bytes into each of eight columns, from byte `at` on, the low one first.
#[inline]
fn put_pairs(columns: &mut [Vec<u8>], first: usize, at: usize, pairs: &[u16])
    requires columns { first + 8 ≤ length columns.old }
    requires pairs { length pairs.now ≡ 8 }
    requires within { All (λ column. at + 2 ≤ length column.items) columns.old }
    ensures { HavePairs 8 first at pairs.now columns.old columns.new }
{
    for k in 0..8 {
        put_pair(&mut columns[first + k], at, pairs[k]);
    }
}

/// Puts two bytes into a column, the low one first.
#[inline]
fn put_pair(column: &mut Vec<u8>, at: usize, pair: u16)
    requires { at + 2 ≤ length column.old.items }
    ensures { HasPair at pair column.old.items column.new.items }
{
    // One slice of two bytes, so that both are stored at once.
    let two = &mut column.as_mut_slice()[at..at + 2];
    two.copy_from_slice(&pair.to_le_bytes());
}
