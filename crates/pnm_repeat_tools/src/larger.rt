//! Enlarges rows in the width that holds them: repeats their pixels across, and the rows down.

ghost use Rattle.std.specs.Prelude.{◌≡◌, ◌≤◌, ◌<◌, ◌*◌, ◌^◌, length, map, replicate, IfOk, IfErr};
ghost use Rattle.std.specs.List.{AllByRecursion, flat_map};
ghost use Rattle.pnm_image.specs.Heads.{row_length};
ghost use Rattle.pnm_image.specs.HeldRows.{AreSliceRows, HoldsRows, slice_lists};
ghost use Rattle.pnm_image.specs.Places.{IsRowOf};
ghost use Rattle.pnm_tools.specs.declared.fault.ToolFault.TheVariants.{Memory};
ghost use Rattle.pnm_tools.specs.Enlarge.{enlarged_row};
ghost use Rattle.pnm_repeat_tools.specs.Enlarging.{IsEnlarging, larger_rows};

use crate::repeat::{repeat_pixels, repeat_runs};
use pnm_image::{BitRows, RowSlice, RowVec, Rows, Shape};
use pnm_tools::ToolFault;
use std::alloc::Global;

/// The most bytes of the result that are made and given at once, unless one row takes more.
pub(crate) const MOST_GIVEN: usize = 65_536;

/// The fewest bytes of a row that is given once, with the number of its copies. Shorter rows are copied here.
pub(crate) const LEAST_REPEATED: usize = 8_192;

/// Returns how many bytes a row of `samples` samples takes in the width of `rows`. Bits of several planes count as
/// bytes, since they become bytes.
pub(crate) fn bytes_of_row(rows: RowSlice<'_>, depth: u32, samples: usize) -> usize
    ensures enough { samples ≤ 8 * result }
    ensures most { result ≤ 2 * samples }
{
    match rows {
        RowSlice::Bits(_) if depth == 1 => samples.div_ceil(8),
        RowSlice::Words(_) => samples.saturating_mul(2),
        _ => samples,
    }
}

/// Repeats each pixel of `count` rows of an image of this shape `across` times. The result has the width of the rows,
/// but bits of several planes become bytes.
///
/// # Errors
///
/// `Memory` if there is no memory for the rows.
fn widen_rows(
    alloc: Global,
    across: u32,
    shape: Shape,
    rows: RowSlice<'_>,
    count: u32,
) -> Result<RowVec, ToolFault>
    requires rows { AreSliceRows count (row_length shape) rows }
    requires pixels { shape.width * count < 2 ^ 32 }
    ensures made { IfOk result (λ made. HoldsRows count (row_length shape * across)
        (map (enlarged_row across shape) (slice_lists count (row_length shape) rows.entry)) made) }
    ensures refused { IfErr result (λ fault. fault ≡ Memory) }
{
    // All rows are repeated as one long row.
    let long = Shape {
        width: shape.width * count,
        ..shape
    };
    match rows {
        RowSlice::Bits(bits) if shape.depth == 1 => {
            let bits = bits.widen(alloc, across as usize)?;
            Ok(RowVec::Bits(bits))
        }
        RowSlice::Bits(bits) => {
            let unpacked = bits.to_bytes(alloc)?;
            let bytes = repeat_pixels(alloc, across, long, unpacked.as_slice())?;
            Ok(RowVec::Bytes(bytes))
        }
        RowSlice::Bytes(bytes) => {
            let bytes = repeat_pixels(alloc, across, long, bytes)?;
            Ok(RowVec::Bytes(bytes))
        }
        RowSlice::Words(words) => {
            let words = repeat_pixels(alloc, across, long, words)?;
            Ok(RowVec::Words(words))
        }
    }
}

/// Repeats each of `count` rows of `each` samples `down` times. The result has the width of the rows.
///
/// # Errors
///
/// `Memory` if there is no memory for the rows.
pub(crate) fn repeat_rows(
    alloc: Global,
    down: u32,
    rows: RowSlice<'_>,
    count: u32,
    each: usize,
) -> Result<RowVec, ToolFault>
    requires { AreSliceRows count each rows }
    ensures made { IfOk result (λ made. HoldsRows (count * down) each
        (flat_map (replicate down) (slice_lists count each rows.entry)) made) }
    ensures refused { IfErr result (λ fault. fault ≡ Memory) }
{
    match rows {
        RowSlice::Bits(bits) => {
            let (bytes, _, _) = bits.parts();
            let bytes = repeat_runs(alloc, down, bytes, count, each.div_ceil(8))?;
            let bits = BitRows::new(bytes, count as usize * down as usize, each);
            Ok(RowVec::Bits(bits))
        }
        RowSlice::Bytes(bytes) => {
            let bytes = repeat_runs(alloc, down, bytes, count, each)?;
            Ok(RowVec::Bytes(bytes))
        }
        RowSlice::Words(words) => {
            let words = repeat_runs(alloc, down, words, count, each)?;
            Ok(RowVec::Words(words))
        }
    }
}

/// Enlarges rows of an image of this shape: repeats each row `down` times, and its pixels `across` times.
///
/// # Errors
///
/// `Memory` if there is no memory for the rows.
pub(crate) fn enlarge_together(
    alloc: Global,
    across: u32,
    down: u32,
    shape: Shape,
    rows: &Rows,
) -> Result<Rows, ToolFault>
    requires ready { IsEnlarging across shape }
    requires rows { AllByRecursion (IsRowOf shape) rows.now }
    requires pixels { shape.width * length rows.now < 2 ^ 32 }
    requires some { 1 ≤ down }
    requires few { length rows.now * down < 2 ^ 32 }
    ensures made { IfOk result (λ made. made ≡ larger_rows across down shape rows.now) }
    ensures refused { IfErr result (λ fault. fault ≡ Memory) }
{
    let held = enlarge_held(alloc, across, down, shape, rows)?;
    let wide = rows.row_length() * across as usize;
    Ok(Rows::new(held, shape.maxval, rows.count() * down, wide))
}

/// Enlarges rows as `enlarge_together` does, and returns them as a `RowVec`.
///
/// # Errors
///
/// `Memory` if there is no memory for the rows.
fn enlarge_held(
    alloc: Global,
    across: u32,
    down: u32,
    shape: Shape,
    rows: &Rows,
) -> Result<RowVec, ToolFault>
    requires ready { IsEnlarging across shape }
    requires rows { AllByRecursion (IsRowOf shape) rows.now }
    requires pixels { shape.width * length rows.now < 2 ^ 32 }
    ensures made { IfOk result (λ made.
        HoldsRows (length rows.now * down) (row_length shape * across)
        (larger_rows across down shape rows.now) made) }
    ensures refused { IfErr result (λ fault. fault ≡ Memory) }
{
    let (count, each) = (rows.count(), rows.row_length());
    if across == 1 {
        return repeat_rows(alloc, down, rows.as_slice(), count, each);
    }
    let wide = widen_rows(alloc, across, shape, rows.as_slice(), count)?;
    if down == 1 {
        return Ok(wide);
    }
    repeat_rows(alloc, down, wide.as_slice(), count, each * across as usize)
}
