//! Bytes and pixels of sixteen rows, transposed.

ghost use Rattle.std.specs.Prelude.{◌≡◌, ℕ, ◌+◌, ◌-◌, ◌*◌, ◌/◌, ◌%◌, ◌<◌, All, length, slice_index};
ghost use Rattle.pnm_samples.specs.Internal.Blocks.{bits_of, IsSquare, lane_at};

use std::simd::prelude::*;

/// Returns the eight columns that lie in one byte of each of sixteen rows; `rows` holds these bytes. The column of the
/// highest bit comes first. In each column the first row has the lowest bit.
#[inline]
pub(crate) fn columns_of_sixteen(rows: u8x16) -> [u16; 8]
    requires count { length rows ≡ 16 }
    ensures count { length result ≡ 8 }
    ensures columns { (k : ℕ) → k < 8 → slice_index result k ≡ bits_of (7 - k) rows }
{
    let mut lanes = rows;
    let mut columns = [0; 8];
    for k in 0..8 {
        columns[k] = highest_bits(lanes);
        // Each byte's bits go one place up.
        lanes = lanes + lanes;
    }
    columns
}

/// Returns the highest bits of sixteen bytes. That of the first byte is the lowest.
#[inline]
fn highest_bits(lanes: u8x16) -> u16
    requires count { length lanes ≡ 16 }
    requires bytes { All (λ lane. lane < 256) lanes }
    ensures { result ≡ bits_of 7 lanes }
{
    lanes.simd_ge(u8x16::splat(128)).to_bitmask() as u16
}

/// Exchanges rows and columns of sixteen bytes of each of sixteen rows.
#[inline(always)]
pub(crate) fn transposed(rows: [u8x16; 16]) -> [u8x16; 16]
    requires { IsSquare rows }
    ensures square { IsSquare result }
    ensures exchanged { (r c : ℕ) → r < 16 → c < 16 → lane_at result r c ≡ lane_at rows c r }
{
    riffled(riffled(riffled(riffled(rows))))
}

/// Returns the bytes of the first eight rows, each followed by the byte of the row eight further down.
#[inline(always)]
fn riffled(rows: [u8x16; 16]) -> [u8x16; 16]
    requires { IsSquare rows }
    ensures square { IsSquare result }
    ensures riffled { (r c : ℕ) → r < 16 → c < 16
        → lane_at result r c ≡ lane_at rows (r / 2 + 8 * (c % 2)) (c / 2 + 8 * (r % 2)) }
{
    let mut made = rows;
    for i in 0..8 {
        let (low, high) = rows[i].interleave(rows[i + 8]);
        made[2 * i] = low;
        made[2 * i + 1] = high;
    }
    made
}
