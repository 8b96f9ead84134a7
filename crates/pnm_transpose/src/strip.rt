//! Rows of an image, most of which are kept in strips with columns and rows exchanged. So they are exchanged while the
//! image comes, when they lie in the processor's cache.

ghost use Rattle.std.specs.Prelude.{◌≡◌, ◌≤◌, ◌+◌, ◌*◌, ◌++◌, [], All, OnOk, IfOk, IfErr, length, reverse};
ghost use Rattle.std.specs.List.{flat_map, range_with_len};
ghost use Rattle.pnm_image.specs.declared.limits.TheConstants.{MAX_DEPTH, MAX_ROW_LENGTH, MAX_SIDE};
ghost use Rattle.pnm_tools.specs.declared.fault.ToolFault.TheVariants.{Memory};
ghost use Rattle.pnm_transpose.specs.declared.strip.TheConstants.{STRIP_ROWS as rows_in_strip};
ghost use Rattle.pnm_transpose.specs.Internal.ColumnBatches.{AreAsLong};
ghost use Rattle.pnm_tools.specs.Flip.{column_of, in_order};
ghost use Rattle.pnm_transpose.specs.Strips.{HaveSizes};
ghost use Rattle.pnm_transpose.specs.Internal.Strips.{KeepColumns};

use crate::batch::{blank_columns, put_all};
use crate::blocks::BlockSample;
use crate::flat_rows::FlatRows;
use crate::row_of::RowOf;
use pnm_tools::ToolFault;
use std::alloc::Global;

/// The number of rows in a strip. A line of the processor's cache holds this many bytes of a column, or half as many
/// words.
pub(crate) const STRIP_ROWS: usize = 64;

/// How many columns of a strip are made side by side.
const STRIP_COLUMNS: usize = 64;

/// Rows of an image.
#[derive(Drop)]
pub(crate) struct StripedRows<T> {
    /// The first rows, `STRIP_ROWS` in each strip: the samples of the first column, top to bottom or bottom to top,
    /// then those of the second column, and so on.
    pub strips: Vec<RowOf<T>>,
    /// The rows that came after the strips.
    pub rows: FlatRows<T>,
}

impl<T> StripedRows<T> {
    /// Creates an empty list of rows.
    pub fn new(alloc: Global) -> StripedRows<T>
        ensures strips { result.strips.items ≡ [] }
        ensures rows { result.rows ≡ [] }
    {
        StripedRows {
            strips: Vec::new(alloc),
            rows: FlatRows::new(alloc),
        }
    }

    /// Reverses the order of the strips and of the rows.
    pub fn reverse(&mut self)
        ensures strips { self.new.strips.items ≡ reverse self.old.strips.items }
        ensures rows { self.new.rows ≡ reverse self.old.rows }
    {
        self.strips.reverse();
        self.rows.reverse();
    }
}

impl<T: BlockSample> StripedRows<T> {
    /// Makes a strip of the rows that came last, once there are as many as a strip has. The only fault is `Memory`.
    pub fn fill_strip(
        &mut self,
        alloc: Global,
        last_first: bool,
        width: usize,
        depth: usize,
    ) -> Result<(), ToolFault>
        requires sizes { HaveSizes width depth self.old.strips.items self.old.rows }
        requires limits { (width ≤ MAX_SIDE) × (depth ≤ MAX_DEPTH) × (width * depth ≤ MAX_ROW_LENGTH) }
        ensures kept { OnOk result (KeepColumns last_first width depth
            self.old.strips.items self.old.rows self.new.strips.items self.new.rows) }
        ensures refused { IfErr result (λ fault. fault ≡ Memory) }
    {
        if self.rows.len() != STRIP_ROWS {
            return Ok(());
        }
        order_rows(&mut self.rows, last_first);
        let strip = strip_of(alloc, &self.rows, width, depth)?;
        self.strips.push(strip)?;
        self.rows.clear();
        Ok(())
    }
}

/// Reverses the order of the rows if `last_first` is true.
fn order_rows<T>(rows: &mut FlatRows<T>, last_first: bool)
    ensures { rows.new ≡ in_order last_first rows.old }
{
    if last_first {
        rows.reverse();
    }
}

/// Returns the rows with columns and rows exchanged: the columns, one after the other. The only fault is `Memory`.
fn strip_of<T: BlockSample>(
    alloc: Global,
    rows: &FlatRows<T>,
    width: usize,
    depth: usize,
) -> Result<RowOf<T>, ToolFault>
    requires rows { All (λ row. width * depth ≤ length row) rows.now }
    requires count { length rows.now ≡ rows_in_strip }
    requires limits { (width ≤ MAX_SIDE) × (depth ≤ MAX_DEPTH) × (width * depth ≤ MAX_ROW_LENGTH) }
    ensures made { IfOk result (λ strip. strip
        ≡ flat_map (column_of depth rows.now) (range_with_len 0 width)) }
    ensures refused { IfErr result (λ fault. fault ≡ Memory) }
{
    let part = rows.len() * depth;
    let mut columns = blank_columns(alloc, STRIP_COLUMNS, part)?;
    let mut strip = Vec::with_capacity(alloc, width * part)?;
    let mut first = 0;
    while first < width {
        columns.truncate(width - first);
        add_columns(&mut strip, columns.as_mut_slice(), rows, first, depth)?;
        first += columns.len();
    }
    Ok(RowOf::new(strip))
}

/// Adds columns of the rows to the samples of a strip, as many as `columns` has places for. The only fault is `Memory`.
fn add_columns<T: BlockSample>(
    strip: &mut Vec<T>,
    columns: &mut [Vec<T>],
    rows: &FlatRows<T>,
    first: usize,
    depth: usize,
) -> Result<(), ToolFault>
    requires rows { All (λ row. (first + length columns.old) * depth ≤ length row) rows.now }
    requires sizes { (length rows.now * depth ≤ MAX_ROW_LENGTH) × (depth ≤ MAX_DEPTH)
        × (first + length columns.old ≤ 4294967295) }
    requires long { AreAsLong (length rows.now * depth) columns.old }
    ensures added { OnOk result (strip.new.items ≡ strip.old.items
        ++ flat_map (column_of depth rows.now) (range_with_len first (length columns.old))) }
    ensures long { (length columns.new ≡ length columns.old) × AreAsLong (length rows.now * depth) columns.new }
    ensures refused { IfErr result (λ fault. fault ≡ Memory) }
{
    put_all(columns, 0, rows, first, depth);
    for column in columns.iter() {
        strip.extend_from_slice(column.as_slice())?;
    }
    Ok(())
}
