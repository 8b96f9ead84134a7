//! `pamflip` for the ways that exchange columns and rows, from pamflip(1).

ghost use Rattle.std.specs.Prelude.{◌≡◌, ◌<◌, ◌++◌, [], true, false, length, OnOk, IfErr};
ghost use Rattle.pnm_tools.specs.declared.fault.ToolFault.TheVariants.{Memory};
ghost use Rattle.pnm_tools.specs.declared.tool.Tool.TheVariants.{Flip};
ghost use Rattle.pnm_tools.specs.Flip.{transform_of};
ghost use Rattle.pnm_transpose.specs.Keeping.{IsTransposing, transposed_due};

use crate::sample_rows::SampleRows;
use crate::together::next_columns;
use pnm_image::{Head, RepeatedRows, Rows, SampleWidth, Samples, Shape};
use pnm_tools::{FlipWay, ImageTool, ToolFault, flipped_head};
use std::alloc::Global;
use std::marker::Model;

/// Exchanges columns and rows: keeps the rows of an image, and gives its columns. If the way reverses the order of the
/// rows, the kept rows are reversed once the image has ended. If it reverses the order of the columns, the last one is
/// made first.
#[derive(Drop)]
pub struct Transposer {
    way: FlipWay,
    depth: u32,
    rows: SampleRows,
    /// The columns that were made and not given yet, the next one last.
    batch: Vec<Samples>,
    /// The first column that wasn't made yet.
    next: u32,
    /// The end of the columns that weren't made yet; 0 until the image has ended.
    columns: u32,
}

impl Model for Transposer {
    ghost use Rattle.pnm_transpose.specs.Keeping.{Transposed, transposed};
    ghost use Rattle.pnm_transpose.specs.Internal.Keeping.{HasColumns};
    ghost use Rattle.pnm_transpose.specs.SampleRows.{row_lists, strip_lists, rows_width};

    ghost Value = { Transposed };

    ghost view = { λ w. transposed w.way w.depth (rows_width w.rows) (strip_lists w.rows) (row_lists w.rows)
        w.batch.items w.next w.columns };

    ghost invariant = { λ w.
        HasColumns (transposed w.way w.depth (rows_width w.rows) (strip_lists w.rows) (row_lists w.rows) w.batch.items
        w.next w.columns) };
}

impl ImageTool for Transposer {
    ghost tool = { λ w. Flip w.way };

    ghost ready = { IsTransposing };

    ghost due = { transposed_due };

    ghost kept = { λ w. w.strips ++ w.rows ++ w.batch };

    fn begin(&mut self, alloc: Global, head: &Head) -> Result<Head, ToolFault> {
        let transposed = flipped_head(alloc, self.way, head)?;
        let shape = head.shape();
        let sample_width = SampleWidth::of(shape.kind, shape.maxval);
        self.clear(alloc);
        self.rows = SampleRows::of_width(alloc, sample_width);
        Ok(transposed)
    }

    /// Keeps the rows, and makes no row of the result yet.
    fn take(&mut self, alloc: Global, shape: Shape, _y: u32, rows: Rows) -> Result<(), ToolFault> {
        let last_first = self.way.transform().rows_reversed;
        self.rows.add(alloc, last_first, shape, &rows)
    }

    fn end(&mut self, shape: Shape) {
        let last_first = self.way.transform().rows_reversed;
        self.rows.put_in_order(last_first);
        self.depth = shape.depth;
        self.columns = shape.width;
    }

    /// Gives the next columns of the batch. Makes a batch first if there is none.
    #[inline(never)]
    fn give(&mut self, alloc: Global) -> Result<Option<RepeatedRows>, ToolFault> {
        if self.batch.is_empty() && self.next < self.columns {
            if self.way.transform().columns_reversed {
                self.make_last(alloc)?;
            } else {
                self.make_first(alloc)?;
            }
        }
        Ok(next_columns(&mut self.batch)?.map(RepeatedRows::once))
    }

    fn release(&mut self, alloc: Global) {
        self.clear(alloc);
    }
}

impl Transposer {
    /// Creates the tool before the first row.
    pub fn new(alloc: Global, way: FlipWay) -> Transposer
        requires { (transform_of way).exchanged ≡ true }
        ensures way { result.way ≡ way }
        ensures rows { (result.strips ≡ []) × (result.rows ≡ []) }
        ensures batch { result.batch ≡ [] }
    {
        Transposer {
            way,
            depth: 0,
            rows: SampleRows::new(alloc),
            batch: Vec::new(alloc),
            next: 0,
            columns: 0,
        }
    }

    /// Drops all rows and columns.
    fn clear(&mut self, alloc: Global)
        ensures way { self.new.way ≡ self.old.way }
        ensures rows { (self.new.strips ≡ []) × (self.new.rows ≡ []) × (self.new.batch ≡ []) }
        ensures columns { (self.new.next ≡ 0) × (self.new.columns ≡ 0) }
    {
        self.columns = 0;
        self.next = 0;
        self.rows = SampleRows::new(alloc);
        self.batch = Vec::new(alloc);
    }

    /// Makes a batch of the first columns that are left. The only fault is `Memory`.
    fn make_first(&mut self, alloc: Global) -> Result<(), ToolFault>
        requires order { (transform_of self.old.way).columns_reversed ≡ false }
        requires left { (self.old.batch ≡ []) × (self.old.next < self.old.columns) }
        ensures way { self.new.way ≡ self.old.way }
        ensures due { OnOk result (transposed_due self.new ≡ transposed_due self.old) }
        ensures some { OnOk result (0 < length self.new.batch) }
        ensures refused { IfErr result (λ fault. fault ≡ Memory) }
    {
        let count = (self.columns - self.next).min(self.rows.batch_length());
        let (first, depth) = (self.next as usize, self.depth as usize);
        let rows_first = self.way.transform().rows_reversed;
        self.batch = self
            .rows
            .batch(alloc, rows_first, first, count as usize, depth)?;
        self.next += count;
        Ok(())
    }

    /// Makes a batch of the last columns that are left. The first of them is at a multiple of a batch's length. The
    /// only fault is `Memory`.
    fn make_last(&mut self, alloc: Global) -> Result<(), ToolFault>
        requires order { (transform_of self.old.way).columns_reversed ≡ true }
        requires left { (self.old.batch ≡ []) × (self.old.next < self.old.columns) }
        ensures way { self.new.way ≡ self.old.way }
        ensures due { OnOk result (transposed_due self.new ≡ transposed_due self.old) }
        ensures some { OnOk result (0 < length self.new.batch) }
        ensures refused { IfErr result (λ fault. fault ≡ Memory) }
    {
        let count = (self.columns - self.next - 1) % self.rows.batch_length() + 1;
        let (first, depth) = (self.columns - count, self.depth as usize);
        let rows_first = self.way.transform().rows_reversed;
        let mut batch = self
            .rows
            .batch(alloc, rows_first, first as usize, count as usize, depth)?;
        batch.reverse();
        self.batch = batch;
        self.columns = first;
        Ok(())
    }
}
