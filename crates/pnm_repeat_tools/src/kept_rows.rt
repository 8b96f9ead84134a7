//! Rows of an image that are kept, one after another.

ghost use Rattle.std.specs.Prelude.{ℕ, ◌≡◌, ◌≤◌, ◌<◌, ◌+◌, ◌*◌, ◌^◌, ◌++◌, [], All, IfOk, OnOk, OnErr, length};
ghost use Rattle.std.specs.Prelude.{map, take};
ghost use Rattle.pnm_image.specs.HeldRows.{AreRows, AreSliceRows, HoldsRows, HoldsSame, row_lists, slice_lists};
ghost use Rattle.pnm_image.specs.Images.{cut_rows};
ghost use Rattle.pnm_repeat_tools.specs.Internal.Keeping.{fronts_in};

use pnm_image::{RowSlice, RowVec, Rows};
use std::alloc::{AllocError, Global};
use std::marker::Model;

/// Rows of equal length, one after another in one vector. So even many short rows take no more memory than their
/// samples, and rows of bits no more than the whole bytes of each row.
#[derive(Drop)]
pub(crate) struct KeptRows {
    held: RowVec,
    count: usize,
    row_length: usize,
}

impl Model for KeptRows {
    ghost use Rattle.std.specs.Prelude.{List, ℕ};
    ghost use Rattle.pnm_image.specs.HeldRows.{AreRows, row_lists};

    ghost Value = { List (List ℕ) };

    ghost view = { λ r. row_lists r.count r.row_length r.held };

    ghost invariant = { λ r. AreRows r.count r.row_length r.held };
}

impl KeptRows {
    /// Creates an empty list of rows.
    pub fn new(alloc: Global) -> KeptRows
        ensures { result ≡ [] }
    {
        KeptRows {
            held: RowVec::Words(Vec::new(alloc)),
            count: 0,
            row_length: 0,
        }
    }

    /// Borrows the rows in the width that holds them, and returns the number of rows.
    pub fn parts(&self) -> (RowSlice<'_>, usize)
        ensures rows { (each : ℕ) → All (λ row. length row ≡ each) self.now
            → slice_lists result.1 each result.0 ≡ self.now }
        ensures whole { (each : ℕ) → All (λ row. length row ≡ each) self.now
            → AreSliceRows result.1 each result.0 }
        ensures count { result.1 ≡ length self.now }
    {
        (self.held.as_slice(), self.count)
    }

    /// Adds the first `shown` samples of each of the first `count` rows.
    ///
    /// # Errors
    ///
    /// If there is no memory for them. Then nothing has changed.
    pub fn push_fronts(
        &mut self,
        alloc: Global,
        rows: &Rows,
        count: usize,
        shown: usize,
    ) -> Result<(), AllocError>
        requires alike { All (λ row. length row ≡ shown) self.old }
        requires few { length self.old + count < 2 ^ 32 }
        requires count { count ≤ length rows.now }
        requires within { All (λ row. shown ≤ length row) rows.now }
        ensures added { OnOk result (self.new ≡ self.old ++ map (take shown) (take count rows.now)) }
        ensures unchanged { OnErr result (self.new ≡ self.old) }
    {
        let fronts = fronts_of(alloc, rows, count, shown)?;
        if self.count == 0 {
            self.held = fronts;
            self.count = count;
            self.row_length = shown;
            return Ok(());
        }
        hold_behind(alloc, &mut self.held, &fronts)?;
        self.count += count;
        Ok(())
    }
}

/// Adds rows at the end. All rows become words if the two widths differ.
///
/// # Errors
///
/// If there is no memory for them. Then nothing has changed.
fn hold_behind(alloc: Global, held: &mut RowVec, more: &RowVec) -> Result<(), AllocError>
    ensures added { OnOk result ((count more_count each : ℕ)
        → AreRows count each held.old → AreRows more_count each more.now
        → HoldsRows (count + more_count) each
        (row_lists count each held.old ++ row_lists more_count each more.now) held.new) }
    ensures failed { OnErr result (HoldsSame held.old held.new) }
{
    if held.append(more.as_slice())? {
        return Ok(());
    }
    let mut words = held.as_slice().to_words(alloc)?;
    let behind = more.as_slice().to_words(alloc)?;
    words.extend_from_slice(behind.as_slice())?;
    *held = RowVec::Words(words);
    Ok(())
}

/// Copies the first `shown` samples of each of the first `count` rows.
///
/// # Errors
///
/// If there is no memory for the copy.
fn fronts_of(alloc: Global, rows: &Rows, count: usize, shown: usize) -> Result<RowVec, AllocError>
    requires count { count ≤ length rows.now }
    requires within { All (λ row. shown ≤ length row) rows.now }
    ensures whole { IfOk result (λ fronts. AreRows count shown fronts) }
    ensures rows { IfOk result (λ fronts. row_lists count shown fronts
        ≡ map (take shown) (take count rows.now)) }
{
    let each = rows.row_length();
    match rows.as_slice() {
        RowSlice::Bits(bits) => {
            let fronts = bits.part(alloc, 0, count, 0, shown)?;
            Ok(RowVec::Bits(fronts))
        }
        RowSlice::Bytes(bytes) => {
            let fronts = slice_fronts(alloc, bytes, count, each, shown)?;
            Ok(RowVec::Bytes(fronts))
        }
        RowSlice::Words(words) => {
            let fronts = slice_fronts(alloc, words, count, each, shown)?;
            Ok(RowVec::Words(fronts))
        }
    }
}

/// Copies the first `shown` samples of each of `count` rows of bytes or words.
///
/// # Errors
///
/// If there is no memory for them.
fn slice_fronts<T: Copy>(
    alloc: Global,
    samples: &[T],
    count: usize,
    row_length: usize,
    shown: usize,
) -> Result<Vec<T>, AllocError>
    requires held { count * row_length ≤ length samples.now }
    requires within { shown ≤ row_length }
    ensures { IfOk result (λ fronts. fronts.items ≡ fronts_in shown count row_length samples.now) }
{
    if shown == row_length {
        return Vec::from_slice(alloc, &samples[..count * shown]);
    }
    let mut fronts = Vec::new(alloc);
    for row in 0..count {
        let start = row * row_length;
        fronts.extend_from_slice(&samples[start..start + shown])?;
    }
    Ok(fronts)
}
