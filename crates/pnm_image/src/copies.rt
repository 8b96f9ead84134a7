//! Copies of rows, made several together.

ghost use Rattle.std.specs.Prelude.{◌≡◌, ◌≤◌, ◌<◌, ◌*◌, ◌^◌, length, IfOk};
ghost use Rattle.pnm_image.specs.HeldRows.{AreRows, AreSliceRows, row_lists, slice_lists};
ghost use Rattle.pnm_image.specs.Repeats.{repeated};

use crate::rows::{RowSlice, RowVec, Rows};
use pnm_samples::BitRows;
use std::alloc::{AllocError, Global};

/// The most bytes of copies that are made together, unless a single copy takes more.
const MOST_TOGETHER: usize = 65_536;

/// How many copies of the rows are made together: as many as take 65,536 bytes at most, or one.
pub(crate) fn count_together(rows: &Rows) -> u32
    ensures rows { 1 ≤ length rows.now }
    ensures some { 1 ≤ result }
    ensures few { length rows.now * result < 2 ^ 32 }
{
    let count = rows.count();
    let bytes = rows.as_slice().bytes().max(count as usize);
    ((MOST_TOGETHER / bytes) as u32).max(1)
}

/// The rows, `times` times.
///
/// # Errors
///
/// If there is no memory for them.
pub(crate) fn repeat_rows(alloc: Global, rows: &Rows, times: u32) -> Result<Rows, AllocError>
    requires some { 1 ≤ times }
    requires few { length rows.now * times < 2 ^ 32 }
    ensures { IfOk result (λ copies. copies ≡ repeated times rows.now) }
{
    let (count, each) = (rows.count(), rows.row_length());
    let held = repeat_held(alloc, rows.as_slice(), count, each, times)?;
    Ok(Rows::new(held, rows.bound(), count * times, each))
}

/// `count` rows of `each` samples, `times` times, as they are held.
///
/// # Errors
///
/// If there is no memory for them.
fn repeat_held(
    alloc: Global,
    rows: RowSlice<'_>,
    count: u32,
    each: usize,
    times: u32,
) -> Result<RowVec, AllocError>
    requires { AreSliceRows count each rows }
    ensures whole { IfOk result (λ copies. AreRows (count * times) each copies) }
    ensures rows { IfOk result (λ copies. row_lists (count * times) each copies
        ≡ repeated times (slice_lists count each rows.entry)) }
{
    match rows {
        RowSlice::Bits(rows) => {
            let copies = repeat_run(alloc, rows.parts().0, times)?;
            let rows = BitRows::new(copies, count as usize * times as usize, each);
            Ok(RowVec::Bits(rows))
        }
        RowSlice::Bytes(bytes) => {
            let copies = repeat_run(alloc, bytes, times)?;
            Ok(RowVec::Bytes(copies))
        }
        RowSlice::Words(words) => {
            let copies = repeat_run(alloc, words, times)?;
            Ok(RowVec::Words(copies))
        }
    }
}

/// The run, `times` times.
///
/// # Errors
///
/// If there is no memory for it.
fn repeat_run<T: Copy>(alloc: Global, run: &[T], times: u32) -> Result<Vec<T>, AllocError>
    ensures { IfOk result (λ copies. copies.items ≡ repeated times run.now) }
{
    let Some(total) = run.len().checked_mul(times as usize) else {
        return Err(AllocError);
    };
    let mut copies = Vec::with_capacity(alloc, total)?;
    for _time in 0..times {
        copies.extend_from_slice(run)?;
    }
    Ok(copies)
}
