//! Several rows of an image in one.

ghost use Rattle.std.specs.Prelude.{◌≡◌, ℕ, ◌≤◌, ◌<◌, ◌+◌, ◌-◌, ◌*◌, ◌↔◌, All, IsTrue, IfOk, length, take, drop};
ghost use Rattle.std.specs.Prelude.{◌++◌, ◌∷◌, [], IsFalse, OnErr, get_or};
ghost use Rattle.pnm_samples.specs.Cuts.{cut_rows};
ghost use Rattle.pnm_samples.specs.SampleVecs.{HasWhiteSpare, samples_of, slice_samples};
ghost use Rattle.pnm_image.specs.HeldRows.{AreRows, AreRowsWithin, AreSliceRows, HasAdded, HoldsSame, row_lists};
ghost use Rattle.pnm_image.specs.HeldRows.{slice_bytes, slice_lists};
ghost use Rattle.pnm_image.specs.Internal.PickedRows.{AreEvery, HasAddedRow, HasPicked};
ghost use Rattle.pnm_image.specs.Rows.{every};

use pnm_samples::{BitRows, Bits, SampleSlice, SampleVec, Samples, bytes_to_words};
use std::alloc::{AllocError, Global};
use std::marker::Model;

/// The samples of rows, as wide as they have to be.
#[derive(Debug, Drop)]
pub enum RowVec {
    /// Each is 0 or 1.
    Bits(BitRows),
    /// Each is at most 255: all samples of the first row come first.
    Bytes(Vec<u8>),
    /// Each is at most 65,535.
    Words(Vec<u16>),
}

/// Borrowed rows, as wide as they are held.
#[derive(Clone, Copy, Debug)]
pub enum RowSlice<'a> {
    /// Each is 0 or 1.
    Bits(&'a BitRows),
    /// Each is at most 255.
    Bytes(&'a [u8]),
    /// Each is at most 65,535.
    Words(&'a [u16]),
}

impl RowVec {
    /// The rows, borrowed.
    pub fn as_slice(&self) -> RowSlice<'_>
        ensures lists { (count : ℕ) (each : ℕ) → slice_lists count each result ≡ row_lists count each self.now }
        ensures whole { (count : ℕ) (each : ℕ) → AreRows count each self.now → AreSliceRows count each result }
    {
        match self {
            RowVec::Bits(rows) => RowSlice::Bits(rows),
            RowVec::Bytes(bytes) => RowSlice::Bytes(bytes.as_slice()),
            RowVec::Words(words) => RowSlice::Words(words.as_slice()),
        }
    }

    /// Adds rows behind those that are held. Returns false, and adds nothing, if they aren't held alike.
    ///
    /// # Errors
    ///
    /// If there is no memory for them. Then nothing has changed.
    pub fn append(&mut self, more: RowSlice<'_>) -> Result<bool, AllocError>
        ensures added { IfOk result (λ done. IsTrue done → HasAdded self.old more.entry self.new) }
        ensures same { IfOk result (λ done. IsFalse done → HoldsSame self.old self.new) }
        ensures failed { OnErr result (HoldsSame self.old self.new) }
    {
        match (self, more) {
            (RowVec::Bits(rows), RowSlice::Bits(more)) => rows.append(more),
            (RowVec::Bytes(bytes), RowSlice::Bytes(more)) => {
                bytes.extend_from_slice(more)?;
                Ok(true)
            }
            (RowVec::Words(words), RowSlice::Words(more)) => {
                words.extend_from_slice(more)?;
                Ok(true)
            }
            _ => Ok(false),
        }
    }

    /// Adds a row behind those that are held. Returns false, and adds nothing, if it isn't held alike.
    ///
    /// # Errors
    ///
    /// If there is no memory for it. Then nothing has changed.
    fn append_row(&mut self, row: SampleSlice<'_>) -> Result<bool, AllocError>
        requires { HasWhiteSpare row }
        ensures added { IfOk result (λ done. IsTrue done → HasAddedRow self.old (slice_samples row.entry) self.new) }
        ensures same { IfOk result (λ done. IsFalse done → HoldsSame self.old self.new) }
        ensures failed { OnErr result (HoldsSame self.old self.new) }
    {
        match (self, row) {
            (RowVec::Bits(rows), SampleSlice::Bits(row, each)) => rows.append_row(row, each),
            (RowVec::Bytes(bytes), SampleSlice::Bytes(row)) => {
                bytes.extend_from_slice(row)?;
                Ok(true)
            }
            (RowVec::Words(words), SampleSlice::Words(row)) => {
                words.extend_from_slice(row)?;
                Ok(true)
            }
            _ => Ok(false),
        }
    }
}

impl RowSlice<'_> {
    /// How many bytes the rows take as they are held.
    pub fn bytes(self) -> usize
        ensures { result ≡ slice_bytes self.entry }
    {
        match self {
            RowSlice::Bits(rows) => rows.parts().0.len(),
            RowSlice::Bytes(bytes) => bytes.len(),
            RowSlice::Words(words) => words.len() * 2,
        }
    }

    /// All samples as words.
    ///
    /// # Errors
    ///
    /// If there is no memory for them.
    pub fn to_words(self, alloc: Global) -> Result<Vec<u16>, AllocError>
        ensures whole { (count : ℕ) (each : ℕ) → AreSliceRows count each self.entry
            → IfOk result (λ words. length words.items ≡ count * each) }
        ensures rows { (count : ℕ) (each : ℕ) → AreSliceRows count each self.entry
            → IfOk result (λ words. cut_rows count each words.items ≡ slice_lists count each self.entry) }
    {
        match self {
            RowSlice::Bits(rows) => bytes_to_words(alloc, rows.to_bytes(alloc)?.as_slice()),
            RowSlice::Bytes(bytes) => bytes_to_words(alloc, bytes),
            RowSlice::Words(words) => Vec::from_slice(alloc, words),
        }
    }
}

/// Consecutive rows of one image, at least one, held as one long row. All rows have the same number of samples, with
/// nothing between them; rows of bits are held as they lie in a raw file. So one packet stands for several rows, and a
/// loop over samples goes over all of them.
#[derive(Debug, Drop)]
pub struct Rows {
    held: RowVec,
    /// No sample is above it.
    bound: u32,
    count: u32,
    row_length: usize,
}

impl Model for Rows {
    ghost use Rattle.std.specs.Prelude.{List, ℕ, ◌≤◌};
    ghost use Rattle.pnm_image.specs.HeldRows.{AreRows, AreRowsWithin, row_lists};

    ghost Value = { List (List ℕ) };

    ghost view = { λ r. row_lists r.count r.row_length r.held };

    ghost invariant = { λ r. (1 ≤ r.count) × AreRows r.count r.row_length r.held
        × AreRowsWithin r.bound (row_lists r.count r.row_length r.held) };
}

impl Rows {
    /// `count` rows of `row_length` samples each, none of them above `bound`, without a copy.
    pub fn new(held: RowVec, bound: u32, count: u32, row_length: usize) -> Rows
        requires some { 1 ≤ count }
        requires whole { AreRows count row_length held }
        requires within { AreRowsWithin bound (row_lists count row_length held) }
        ensures { result ≡ row_lists count row_length held }
    {
        Rows {
            held,
            bound,
            count,
            row_length,
        }
    }

    /// A single row.
    #[inline(always)]
    pub fn one(row: Samples) -> Rows
        ensures { result ≡ row ∷ [] }
    {
        let (row_length, bound) = (row.len(), row.bound());
        let held = match row.into_vec() {
            SampleVec::Bits(bits) => RowVec::Bits(BitRows::one(bits)),
            SampleVec::Bytes(bytes) => RowVec::Bytes(bytes),
            SampleVec::Words(words) => RowVec::Words(words),
        };
        Rows::new(held, bound, 1, row_length)
    }

    /// The first row, without a copy.
    #[inline(always)]
    pub fn into_first(self) -> Samples
        ensures { result ≡ get_or self 0 [] }
    {
        Samples::within(first_of(self.held, self.row_length), self.bound)
    }

    /// The number of rows.
    pub fn count(&self) -> u32
        ensures rows { result ≡ length self.now }
        ensures some { 1 ≤ result }
    {
        self.count
    }

    /// The number of samples in each row.
    pub fn row_length(&self) -> usize
        ensures each { All (λ row. length row ≡ result) self.now }
        ensures some { 1 ≤ length self.now }
    {
        self.row_length
    }

    /// A number that no sample is above.
    pub fn bound(&self) -> u32
        ensures { AreRowsWithin result self.now }
    {
        self.bound
    }

    /// The rows as they are held, borrowed.
    pub fn as_slice(&self) -> RowSlice<'_>
        ensures rows { (each : ℕ) → All (λ row. length row ≡ each) self.now
            → slice_lists (length self.now) each result ≡ self.now }
        ensures whole { (each : ℕ) → All (λ row. length row ≡ each) self.now
            → AreSliceRows (length self.now) each result }
    {
        self.held.as_slice()
    }

    /// The samples of row `at`, counted from 0, borrowed.
    pub fn row_slice(&self, at: u32) -> SampleSlice<'_>
        requires { at < length self.now }
        ensures samples { slice_samples result ≡ get_or self.now at [] }
        ensures spare { HasWhiteSpare result }
    {
        let (at, each) = (at as usize, self.row_length);
        match &self.held {
            RowVec::Bits(rows) => {
                let (bytes, count) = rows.row(at);
                SampleSlice::Bits(bytes, count)
            }
            RowVec::Bytes(bytes) => SampleSlice::Bytes(&bytes[at * each..(at + 1) * each]),
            RowVec::Words(words) => SampleSlice::Words(&words[at * each..(at + 1) * each]),
        }
    }

    /// Whether no sample is above `most`. It looks at no row if none can be above it.
    pub fn are_within(&self, most: u32) -> bool
        ensures { IsTrue result ↔ AreRowsWithin most self.now }
    {
        if self.bound <= most {
            return true;
        }
        for at in 0..self.count {
            if !self.row_slice(at).are_within(most) {
                return false;
            }
        }
        true
    }

    /// A copy of row `at`, counted from 0.
    ///
    /// # Errors
    ///
    /// If there is no memory for it.
    pub fn row(&self, alloc: Global, at: u32) -> Result<Samples, AllocError>
        requires { at < length self.now }
        ensures { IfOk result (λ row. self.now ≡ take at self.now ++ row ∷ drop (at + 1) self.now) }
    {
        copy_of(alloc, self.row_slice(at))
    }

    /// A copy of `count` rows, from row `top` on.
    ///
    /// # Errors
    ///
    /// If there is no memory for it.
    pub fn part(&self, alloc: Global, top: u32, count: u32) -> Result<Rows, AllocError>
        requires some { 1 ≤ count }
        requires within { top + count ≤ length self.now }
        ensures { IfOk result (λ part. part ≡ take count (drop top self.now)) }
    {
        let (first, many, each) = (top as usize, count as usize, self.row_length);
        let held = part_of(alloc, &self.held, first, many, each)?;
        Ok(Rows::new(held, self.bound, count, each))
    }

    /// A copy of row `from`, counted from 0, and of every row that comes `step` rows behind one that is copied.
    ///
    /// # Errors
    ///
    /// If there is no memory for it.
    pub fn every(&self, alloc: Global, from: u32, step: u32) -> Result<Rows, AllocError>
        requires from { from < length self.now }
        requires step { 1 ≤ step }
        ensures { IfOk result (λ rows. rows ≡ every from (step - 1) self.now) }
    {
        let many = (self.count - from).div_ceil(step);
        let held = every_of(alloc, &self.held, self.row_length, from, step, many)?;
        Ok(Rows::new(held, self.bound, many, self.row_length))
    }

    /// Adds row `at` of others, counted from 0, behind these. Returns false, and adds nothing, if it isn't as long, or
    /// isn't held alike, or if there are too many rows.
    ///
    /// # Errors
    ///
    /// If there is no memory for it. Then nothing has changed.
    pub fn append_row(&mut self, more: &Rows, at: u32) -> Result<bool, AllocError>
        requires { at < length more.now }
        ensures added { IfOk result (λ done. IsTrue done → self.new ≡ self.old ++ get_or more.now at [] ∷ []) }
        ensures same { IfOk result (λ done. IsFalse done → self.new ≡ self.old) }
        ensures failed { OnErr result (self.new ≡ self.old) }
    {
        if more.row_length != self.row_length || self.count == u32::MAX {
            return Ok(false);
        }
        let is_added = self.held.append_row(more.row_slice(at))?;
        if is_added {
            self.count += 1;
            self.bound = self.bound.max(more.bound);
        }
        Ok(is_added)
    }

    /// The rows as they are held, the number of rows, and the number of samples in each, without a copy.
    pub fn into_parts(self) -> (RowVec, u32, usize)
        ensures rows { self ≡ row_lists result.1 result.2 result.0 }
        ensures some { 1 ≤ result.1 }
        ensures whole { AreRows result.1 result.2 result.0 }
    {
        (self.held, self.count, self.row_length)
    }
}

/// The first of rows of `each` samples, without a copy.
#[inline(always)]
fn first_of(held: RowVec, each: usize) -> SampleVec
    ensures { (count : ℕ) → 1 ≤ count → samples_of result ≡ get_or (row_lists count each held) 0 [] }
{
    match held {
        RowVec::Bits(rows) => SampleVec::Bits(rows.into_first()),
        RowVec::Bytes(mut bytes) => {
            bytes.truncate(each);
            SampleVec::Bytes(bytes)
        }
        RowVec::Words(mut words) => {
            words.truncate(each);
            SampleVec::Words(words)
        }
    }
}

/// A copy of `many` rows of `each` samples, from row `top` on.
///
/// # Errors
///
/// If there is no memory for it.
fn part_of(
    alloc: Global,
    held: &RowVec,
    top: usize,
    many: usize,
    each: usize,
) -> Result<RowVec, AllocError>
    requires { (count : ℕ) × AreRows count each held.now × (top + many ≤ count) }
    ensures whole { IfOk result (λ part. AreRows many each part) }
    ensures rows { (count : ℕ) → AreRows count each held.now → top + many ≤ count
        → IfOk result (λ part. row_lists many each part ≡ take many (drop top (row_lists count each held.now))) }
{
    match held {
        RowVec::Bits(rows) => {
            let part = rows.part(alloc, top, many, 0, each)?;
            Ok(RowVec::Bits(part))
        }
        RowVec::Bytes(bytes) => {
            let (start, size) = (top * each, many * each);
            let part = Vec::from_slice(alloc, &bytes[start..start + size])?;
            Ok(RowVec::Bytes(part))
        }
        RowVec::Words(words) => {
            let (start, size) = (top * each, many * each);
            let part = Vec::from_slice(alloc, &words[start..start + size])?;
            Ok(RowVec::Words(part))
        }
    }
}

/// Of rows of `each` samples, a copy of row `from` and of those that come `step`, twice `step`, .. rows behind it,
/// `many` in all.
///
/// # Errors
///
/// If there is no memory for it.
fn every_of(
    alloc: Global,
    held: &RowVec,
    each: usize,
    from: u32,
    step: u32,
    many: u32,
) -> Result<RowVec, AllocError>
    requires { (count : ℕ) × AreRows count each held.now × AreEvery count from step many }
    ensures whole { IfOk result (λ rows. AreRows many each rows) }
    ensures rows { (count : ℕ) → AreRows count each held.now → AreEvery count from step many
        → IfOk result (λ rows. row_lists many each rows ≡ every from (step - 1) (row_lists count each held.now)) }
{
    match held {
        RowVec::Bits(rows) => {
            let bytes = every_run(alloc, rows.parts().0, each.div_ceil(8), from, step, many)?;
            Ok(RowVec::Bits(BitRows::new(bytes, many as usize, each)))
        }
        RowVec::Bytes(bytes) => {
            let bytes = every_run(alloc, bytes.as_slice(), each, from, step, many)?;
            Ok(RowVec::Bytes(bytes))
        }
        RowVec::Words(words) => {
            let words = every_run(alloc, words.as_slice(), each, from, step, many)?;
            Ok(RowVec::Words(words))
        }
    }
}

/// Of runs of `each`, a copy of run `from` and of those that come `step`, twice `step`, .. runs behind it, `many` in
/// all.
///
/// # Errors
///
/// If there is no memory for it.
fn every_run<T: Copy>(
    alloc: Global,
    runs: &[T],
    each: usize,
    from: u32,
    step: u32,
    many: u32,
) -> Result<Vec<T>, AllocError>
    requires { (count : ℕ) × (length runs.now ≡ count * each) × AreEvery count from step many }
    ensures { IfOk result (λ picked. HasPicked many each from step runs.now picked.items) }
{
    let (from, step, many) = (from as usize, step as usize, many as usize);
    let mut picked = Vec::with_capacity(alloc, many * each)?;
    for at in 0..many {
        let start = (from + at * step) * each;
        picked.extend_from_slice(&runs[start..start + each])?;
    }
    Ok(picked)
}

/// A copy of samples.
fn copy_of(alloc: Global, samples: SampleSlice<'_>) -> Result<Samples, AllocError>
    ensures { IfOk result (λ copy. copy ≡ slice_samples samples.entry) }
{
    let held = match samples {
        SampleSlice::Bits(bytes, count) => {
            SampleVec::Bits(Bits::new(Vec::from_slice(alloc, bytes)?, count))
        }
        SampleSlice::Bytes(bytes) => SampleVec::Bytes(Vec::from_slice(alloc, bytes)?),
        SampleSlice::Words(words) => SampleVec::Words(Vec::from_slice(alloc, words)?),
    };
    Ok(Samples::from_vec(held))
}
