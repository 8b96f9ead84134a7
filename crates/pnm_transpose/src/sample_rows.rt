//! The rows that a transposer keeps, all of one width.

ghost use Rattle.std.specs.Prelude.{◌≡◌, ◌≤◌, ◌<◌, ◌+◌, ◌*◌, ◌++◌, ◌∷◌, [], OnOk, IfOk, IfErr, length, map};
ghost use Rattle.std.specs.Prelude.{get_or, reverse, IsTrue, IsFalse};
ghost use Rattle.std.specs.List.{AllByRecursion, range_with_len};
ghost use Rattle.pnm_image.specs.declared.limits.TheConstants.{MAX_DEPTH, MAX_ROW_LENGTH};
ghost use Rattle.pnm_image.specs.Heads.{IsWithinLimits};
ghost use Rattle.pnm_image.specs.Places.{IsRowOf};
ghost use Rattle.pnm_samples.specs.SampleVecs.{slice_samples};
ghost use Rattle.pnm_tools.specs.declared.fault.ToolFault.TheVariants.{Memory};
ghost use Rattle.pnm_tools.specs.Flip.{in_order};
ghost use Rattle.pnm_transpose.specs.SampleRows.{row_lists, strip_lists, rows_width};
ghost use Rattle.pnm_transpose.specs.Internal.SampleRows.{FitsWidth, IsBatchOfBits};
ghost use Rattle.pnm_transpose.specs.SampleRows.{SuitsShape};
ghost use Rattle.pnm_transpose.specs.Internal.SampleRows.{batch_length};
ghost use Rattle.pnm_transpose.specs.Strips.{HaveSizes, kept_column, kept_count};
ghost use Rattle.pnm_transpose.specs.Internal.Strips.{KeepColumns, ReachColumns};

use crate::batch::{columns_of, last_first};
use crate::flat_rows::FlatRows;
use crate::strip::StripedRows;
use pnm_image::{RowSlice, Rows, SampleSlice, SampleWidth, Samples, Shape};
use pnm_samples::PixelRows;
use pnm_tools::ToolFault;
use std::alloc::{AllocError, Global};

/// How many columns are made side by side. Making one at a time would fetch each row of the image from memory once for
/// each of its columns. A line of the processor's cache holds this many bytes of a row.
const BATCH: u32 = 64;

/// How many columns of bits are made side by side, eight to a byte: as many as lie in 32 bytes.
const BATCH_OF_BITS: u32 = 256;

/// The fewest rows of an image whose rows are put into strips as they come. The strip that is being made then takes
/// little memory compared with the image.
const LEAST_HEIGHT: u32 = 1024;

/// The most samples of a row that isn't put into strips even in such an image. Many short rows lie in the processor's
/// cache when they are exchanged, and making strips of them takes longer than it saves.
const MOST_SAMPLES: u64 = 256;

/// The rows of an image, top to bottom, all of one width of samples.
#[derive(Drop)]
pub(crate) enum SampleRows {
    /// Each sample is 0 or 1.
    Bits(PixelRows),
    /// Each sample is at most 255.
    Bytes(StripedRows<u8>),
    /// Each sample is at most 65,535.
    Words(StripedRows<u16>),
}

impl SampleRows {
    /// Creates an empty list of rows.
    pub fn new(alloc: Global) -> SampleRows
        ensures { (row_lists result ≡ []) × (strip_lists result ≡ []) }
    {
        SampleRows::Words(StripedRows::new(alloc))
    }

    /// Creates an empty list of rows of this width. It takes memory only as rows come, not when a head announces them.
    pub fn of_width(alloc: Global, sample_width: SampleWidth) -> SampleRows
        ensures empty { (row_lists result ≡ []) × (strip_lists result ≡ []) }
        ensures sample_width { rows_width result ≡ sample_width }
    {
        match sample_width {
            SampleWidth::Bits => SampleRows::Bits(PixelRows::new(alloc)),
            SampleWidth::Bytes => SampleRows::Bytes(StripedRows::new(alloc)),
            SampleWidth::Words => SampleRows::Words(StripedRows::new(alloc)),
        }
    }

    /// Adds the rows at the end, one by one if the image is put into strips, or if their width differs. The only fault
    /// is `Memory`.
    pub fn add(
        &mut self,
        alloc: Global,
        last_first: bool,
        shape: Shape,
        rows: &Rows,
    ) -> Result<(), ToolFault>
        requires rows { AllByRecursion (IsRowOf shape) rows.now }
        requires suits { SuitsShape (rows_width self.old) shape }
        requires sizes { HaveSizes shape.width shape.depth (strip_lists self.old) (row_lists self.old) }
        requires limits { IsWithinLimits shape }
        ensures sample_width { rows_width self.new ≡ rows_width self.old }
        ensures kept { OnOk result (KeepColumns last_first shape.width shape.depth
            (strip_lists self.old) (row_lists self.old ++ rows.now) (strip_lists self.new) (row_lists self.new)) }
        ensures refused { IfErr result (λ fault. fault ≡ Memory) }
    {
        if self.prefers_strips(shape) {
            return self.push_each(alloc, last_first, shape, rows);
        }
        let are_added = self.push_rows(rows)?;
        if are_added {
            return Ok(());
        }
        self.push_each(alloc, last_first, shape, rows)
    }

    /// Adds the rows at the end, one after another. After each row, makes a strip of the rows that came last if there
    /// are as many as a strip has. The only fault is `Memory`.
    fn push_each(
        &mut self,
        alloc: Global,
        last_first: bool,
        shape: Shape,
        rows: &Rows,
    ) -> Result<(), ToolFault>
        requires rows { AllByRecursion (IsRowOf shape) rows.now }
        requires suits { SuitsShape (rows_width self.old) shape }
        requires sizes { HaveSizes shape.width shape.depth (strip_lists self.old) (row_lists self.old) }
        requires limits { IsWithinLimits shape }
        ensures sample_width { rows_width self.new ≡ rows_width self.old }
        ensures kept { OnOk result (KeepColumns last_first shape.width shape.depth
            (strip_lists self.old) (row_lists self.old ++ rows.now) (strip_lists self.new) (row_lists self.new)) }
        ensures refused { IfErr result (λ fault. fault ≡ Memory) }
    {
        for at in 0..rows.count() {
            self.push(alloc, rows, at)?;
            self.fill_strip(alloc, last_first, shape)?;
        }
        Ok(())
    }

    /// Adds row `at` of `rows`, counted from 0, at the end. The only fault is `Memory`.
    fn push(&mut self, alloc: Global, rows: &Rows, at: u32) -> Result<(), ToolFault>
        requires there { at < length rows.now }
        requires fits { FitsWidth (rows_width self.old) (get_or rows.now at []) }
        ensures sample_width { rows_width self.new ≡ rows_width self.old }
        ensures strips { strip_lists self.new ≡ strip_lists self.old }
        ensures added { OnOk result (row_lists self.new ≡ row_lists self.old ++ get_or rows.now at [] ∷ []) }
        ensures refused { IfErr result (λ fault. fault ≡ Memory) }
    {
        if self.push_slice(rows.row_slice(at))? {
            return Ok(());
        }
        self.push_samples(alloc, rows.row(alloc, at)?)
    }

    /// Adds a row of bytes or words at the end. Returns false, and adds nothing, if its width differs from that of the
    /// others.
    ///
    /// # Errors
    ///
    /// If there is no memory for it.
    fn push_slice(&mut self, row: SampleSlice<'_>) -> Result<bool, AllocError>
        ensures sample_width { rows_width self.new ≡ rows_width self.old }
        ensures strips { strip_lists self.new ≡ strip_lists self.old }
        ensures added { IfOk result (λ done. IsTrue done
            → row_lists self.new ≡ row_lists self.old ++ slice_samples row.entry ∷ []) }
        ensures same { IfOk result (λ done. IsFalse done → row_lists self.new ≡ row_lists self.old) }
    {
        match (self, row) {
            (SampleRows::Bytes(kept), SampleSlice::Bytes(bytes)) => {
                kept.rows.push(bytes)?;
                Ok(true)
            }
            (SampleRows::Words(kept), SampleSlice::Words(words)) => {
                kept.rows.push(words)?;
                Ok(true)
            }
            _ => Ok(false),
        }
    }

    /// Adds a row at the end. Converts it first if its width differs. The only fault is `Memory`.
    fn push_samples(&mut self, alloc: Global, row: Samples) -> Result<(), ToolFault>
        requires { FitsWidth (rows_width self.old) row }
        ensures sample_width { rows_width self.new ≡ rows_width self.old }
        ensures strips { strip_lists self.new ≡ strip_lists self.old }
        ensures added { OnOk result (row_lists self.new ≡ row_lists self.old ++ row ∷ []) }
        ensures refused { IfErr result (λ fault. fault ≡ Memory) }
    {
        match self {
            SampleRows::Bits(rows) => Ok(rows.push(&row.into_bits(alloc)?)?),
            SampleRows::Bytes(kept) => Ok(kept.rows.push(row.into_bytes(alloc)?.as_slice())?),
            SampleRows::Words(kept) => Ok(kept.rows.push(row.into_words(alloc)?.as_slice())?),
        }
    }

    /// Returns true if the rows of an image of this shape are put into strips, for which each row is added by itself.
    fn prefers_strips(&self, shape: Shape) -> bool {
        match self {
            SampleRows::Bits(_) => false,
            SampleRows::Bytes(_) | SampleRows::Words(_) => {
                shape.height >= LEAST_HEIGHT && shape.row_length() > MOST_SAMPLES
            }
        }
    }

    /// Adds the rows at the end. Returns false, and adds nothing, if their width differs.
    ///
    /// # Errors
    ///
    /// If there is no memory for them.
    fn push_rows(&mut self, rows: &Rows) -> Result<bool, AllocError>
        ensures sample_width { rows_width self.new ≡ rows_width self.old }
        ensures strips { strip_lists self.new ≡ strip_lists self.old }
        ensures added { IfOk result (λ done. IsTrue done → row_lists self.new ≡ row_lists self.old ++ rows.now) }
        ensures same { IfOk result (λ done. IsFalse done → row_lists self.new ≡ row_lists self.old) }
    {
        let (count, each) = (rows.count() as usize, rows.row_length());
        match (self, rows.as_slice()) {
            (SampleRows::Bits(kept), RowSlice::Bits(bits)) => {
                kept.push_rows(bits)?;
                Ok(true)
            }
            (SampleRows::Bytes(kept), RowSlice::Bytes(bytes)) => {
                kept.rows.push_rows(bytes, count, each)?;
                Ok(true)
            }
            (SampleRows::Words(kept), RowSlice::Words(words)) => {
                kept.rows.push_rows(words, count, each)?;
                Ok(true)
            }
            _ => Ok(false),
        }
    }

    /// Makes a strip of the rows that came last, once there are as many as a strip has, if the rows of the image are
    /// put into strips. The only fault is `Memory`.
    fn fill_strip(&mut self, alloc: Global, last_first: bool, shape: Shape) -> Result<(), ToolFault>
        requires sizes { HaveSizes shape.width shape.depth (strip_lists self.old) (row_lists self.old) }
        requires limits { IsWithinLimits shape }
        ensures sample_width { rows_width self.new ≡ rows_width self.old }
        ensures kept { OnOk result (KeepColumns last_first shape.width shape.depth
            (strip_lists self.old) (row_lists self.old) (strip_lists self.new) (row_lists self.new)) }
        ensures refused { IfErr result (λ fault. fault ≡ Memory) }
    {
        if !self.prefers_strips(shape) {
            return Ok(());
        }
        let (width, depth) = (shape.width as usize, shape.depth as usize);
        match self {
            SampleRows::Bits(_) => Ok(()),
            SampleRows::Bytes(kept) => kept.fill_strip(alloc, last_first, width, depth),
            SampleRows::Words(kept) => kept.fill_strip(alloc, last_first, width, depth),
        }
    }

    /// Reverses the order of the strips and of the rows if `last_first` is true.
    pub fn put_in_order(&mut self, last_first: bool)
        ensures sample_width { rows_width self.new ≡ rows_width self.old }
        ensures strips { strip_lists self.new ≡ in_order last_first (strip_lists self.old) }
        ensures rows { row_lists self.new ≡ in_order last_first (row_lists self.old) }
    {
        if last_first {
            self.reverse();
        }
    }

    /// Reverses the order of the strips and of the rows.
    fn reverse(&mut self)
        ensures sample_width { rows_width self.new ≡ rows_width self.old }
        ensures strips { strip_lists self.new ≡ reverse (strip_lists self.old) }
        ensures rows { row_lists self.new ≡ reverse (row_lists self.old) }
    {
        match self {
            SampleRows::Bits(rows) => rows.reverse(),
            SampleRows::Bytes(kept) => kept.reverse(),
            SampleRows::Words(kept) => kept.reverse(),
        }
    }

    /// Returns how many columns are made side by side.
    pub fn batch_length(&self) -> u32
        ensures length { result ≡ batch_length (rows_width self.now) }
        ensures some { 0 < result }
    {
        match self {
            SampleRows::Bits(_) => BATCH_OF_BITS,
            SampleRows::Bytes(_) | SampleRows::Words(_) => BATCH,
        }
    }

    /// Returns `count` columns of the rows, from column `first` on, the last column first. In each column, the samples
    /// of the strips come before those of the later rows, or behind them if `rows_first` is true. For bits, `first` has
    /// to be a multiple of 8, `count` 1 to 256, and `depth` 1. The only fault is `Memory`.
    pub fn batch(
        &self,
        alloc: Global,
        rows_first: bool,
        first: usize,
        count: usize,
        depth: usize,
    ) -> Result<Vec<Samples>, ToolFault>
        requires reach { ReachColumns (first + count) depth (strip_lists self.now) (row_lists self.now) }
        requires sizes { (kept_count (strip_lists self.now) (row_lists self.now) * depth ≤ MAX_ROW_LENGTH)
            × (depth ≤ MAX_DEPTH) × (first + count ≤ 4294967295) }
        requires bits { rows_width self.now ≡ SampleWidth.Bits → IsBatchOfBits first count depth }
        ensures made { IfOk result (λ batch. batch.items
            ≡ reverse (map (kept_column rows_first depth (strip_lists self.now) (row_lists self.now))
            (range_with_len first count))) }
        ensures refused { IfErr result (λ fault. fault ≡ Memory) }
    {
        match self {
            SampleRows::Bits(rows) => {
                let columns = pnm_samples::columns(alloc, rows, first / 8, count)?;
                last_first(alloc, columns)
            }
            SampleRows::Bytes(kept) => {
                let columns = columns_of(alloc, kept, rows_first, first, count, depth)?;
                last_first(alloc, columns)
            }
            SampleRows::Words(kept) => {
                let columns = columns_of(alloc, kept, rows_first, first, count, depth)?;
                last_first(alloc, columns)
            }
        }
    }
}
