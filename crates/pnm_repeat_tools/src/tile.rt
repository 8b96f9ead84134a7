//! `pnmtile`: the image side by side, from pnmtile(1).

ghost use Rattle.std.specs.Prelude.{◌≡◌, ◌≤◌, ◌<◌, ◌+◌, ◌*◌, ◌%◌, ◌^◌, ◌⊎◌, ◌++◌, All, length, map, min, take, drop};
ghost use Rattle.std.specs.Prelude.{[], Ok, Err, OnOk, IfOk, IfErr};
ghost use Rattle.std.specs.List.{flat_map, range_with_len};
ghost use Rattle.pnm_image.specs.declared.limits.TheConstants.{MAX_ROW_LENGTH};
ghost use Rattle.pnm_image.specs.HeldRows.{AreRows, row_lists};
ghost use Rattle.pnm_samples.specs.Pixels.{all_pixels};
ghost use Rattle.pnm_tools.specs.declared.fault.ToolFault.TheVariants.{Memory};
ghost use Rattle.pnm_tools.specs.declared.tool.Tool.TheVariants.{Tile};
ghost use Rattle.pnm_tools.specs.Tile.{tiled_row};
ghost use Rattle.pnm_image.specs.Heads.{IsWithinLimits};
ghost use Rattle.pnm_repeat_tools.specs.Keeping.{IsTiling, row_of_tiles};
ghost use Rattle.pnm_repeat_tools.specs.Internal.Keeping.{HasTiles, row_of_samples};
ghost use Rattle.pnm_repeat_tools.specs.Keeping.{tiled, tiled_due};
ghost use Rattle.pnm_tools.specs.ToolLimits.{IsExtent};
ghost use Rattle.pnm_tools.specs.Tools.{TakesHead, result_head};

use crate::kept_rows::KeptRows;
use pnm_image::{BitRows, Bits, Head, Kind, RepeatedRows, RowSlice, RowVec, Rows, Shape};
use pnm_tools::{ImageTool, ToolFault, count_together, head_within_limits};
use std::alloc::{AllocError, Global};
use std::marker::Model;

/// Lays copies of an image side by side. Keeps the part of the rows that the result shows, and makes the rows of the
/// result from it.
#[derive(Drop)]
pub struct Tiler {
    width: u32,
    height: u32,
    /// The shape of the image, once the image has ended. Its width is that of the kept rows.
    shape: Shape,
    /// The part of the rows so far that the result shows.
    rows: KeptRows,
    /// The number of rows of the result that are still to be given; 0 until the image has ended.
    left: u32,
}

/// Returns how many samples of a row of an image of this shape are shown, of at most `width` columns.
fn shown_length(width: u32, shape: Shape) -> usize
    ensures { result ≡ min width shape.width * shape.depth }
{
    width.min(shape.width) as usize * shape.depth as usize
}

/// Returns `count` rows of the result, from row `y` on, one after another. They have `width` columns, and are made from
/// the kept rows of an image of this shape.
///
/// # Errors
///
/// `Memory` if there is no memory for them.
fn tile_rows(
    alloc: Global,
    width: u32,
    shape: Shape,
    rows: &KeptRows,
    y: u32,
    count: u32,
) -> Result<RowVec, ToolFault>
    requires tiles { HasTiles (tiled width 0 shape.width shape.depth rows.now 0) }
    requires end { y + count < 2 ^ 32 }
    ensures whole { IfOk result (λ made. AreRows count (width * shape.depth) made) }
    ensures made { IfOk result (λ made. row_lists count (width * shape.depth) made
        ≡ map (row_of_tiles width shape.width shape.depth rows.now) (range_with_len y count)) }
    ensures refused { IfErr result (λ fault. fault ≡ Memory) }
{
    let (samples, kept) = rows.parts();
    match samples {
        RowSlice::Bits(bits) => {
            let tiled = tile_bits(alloc, width, shape, bits, y, count)?;
            Ok(RowVec::Bits(tiled))
        }
        RowSlice::Bytes(bytes) => {
            let tiled = tile(alloc, width, shape, bytes, kept, y, count)?;
            Ok(RowVec::Bytes(tiled))
        }
        RowSlice::Words(words) => {
            let tiled = tile(alloc, width, shape, words, kept, y, count)?;
            Ok(RowVec::Words(tiled))
        }
    }
}

/// Returns `count` rows of the result, from row `y` on, made from `kept` rows. The only fault is `Memory`.
fn tile<T: Copy>(
    alloc: Global,
    width: u32,
    shape: Shape,
    samples: &[T],
    kept: usize,
    y: u32,
    count: u32,
) -> Result<Vec<T>, ToolFault>
    requires some { (0 < kept) × (0 < shape.width) }
    requires rows { length samples.now ≡ kept * (shape.width * shape.depth) }
    requires fits { width * shape.depth ≤ MAX_ROW_LENGTH }
    requires end { y + count < 2 ^ 32 }
    ensures made { IfOk result (λ made. made.items
        ≡ flat_map (row_of_samples width shape.width shape.depth kept samples.now) (range_with_len y count)) }
    ensures refused { IfErr result (λ fault. fault ≡ Memory) }
{
    let each = shape.width as usize * shape.depth as usize;
    let filled = width as usize * shape.depth as usize;
    let mut tiled = Vec::with_capacity(alloc, count as usize * filled)?;
    for at in y..y + count {
        let start = at as usize % kept * each;
        tile_row(&mut tiled, width, shape, &samples[start..start + each])?;
    }
    Ok(tiled)
}

/// Adds copies of a row side by side, up to `width` columns. The only fault is `Memory`.
fn tile_row<T: Copy>(
    tiled: &mut Vec<T>,
    width: u32,
    shape: Shape,
    row: &[T],
) -> Result<(), ToolFault>
    requires row { (0 < shape.width) × (length row.now ≡ shape.width * shape.depth) }
    requires fits { width * shape.depth ≤ MAX_ROW_LENGTH }
    ensures made { OnOk result
        (tiled.new.items ≡ tiled.old.items ++ tiled_row width shape.width shape.depth row.now) }
    ensures refused { IfErr result (λ fault. fault ≡ Memory) }
{
    let filled = width as usize * shape.depth as usize;
    let start = tiled.len();
    tiled.extend_from_slice(&row[..filled.min(row.len())])?;
    // What was added so far is whole copies, and so is its double.
    while tiled.len() - start < filled {
        let copied = tiled.len() - start;
        let more = copied.min(filled - copied);
        repeat_samples(tiled, start, more)?;
    }
    Ok(())
}

/// Adds `count` samples again, those from `start` on: one copy moves them all.
///
/// # Errors
///
/// If there is no memory for them.
fn repeat_samples<T: Copy>(tiled: &mut Vec<T>, start: usize, count: usize) -> Result<(), AllocError>
    requires some { 0 < count }
    requires within { start + count ≤ length tiled.old.items }
    ensures { OnOk result (tiled.new.items
        ≡ tiled.old.items ++ take count (drop start tiled.old.items)) }
{
    let end = tiled.len();
    let sample = tiled[start];
    tiled.resize(end + count, sample)?;
    let (there, copy) = tiled.as_mut_slice().split_at_mut(end);
    copy.copy_from_slice(&there[start..start + count]);
    Ok(())
}

/// Returns `count` rows of the result, from row `y` on, made from kept rows of pixels of one bit. The only fault is
/// `Memory`.
fn tile_bits(
    alloc: Global,
    width: u32,
    shape: Shape,
    rows: &BitRows,
    y: u32,
    count: u32,
) -> Result<BitRows, ToolFault>
    requires tiles { HasTiles (tiled width 0 shape.width shape.depth rows.now 0) }
    requires end { y + count < 2 ^ 32 }
    ensures made { IfOk result (λ made. made
        ≡ map (row_of_tiles width shape.width shape.depth rows.now) (range_with_len y count)) }
    ensures refused { IfErr result (λ fault. fault ≡ Memory) }
{
    let (each, filled) = (shape.width * shape.depth, width * shape.depth);
    if each % 8 == 0 || filled == each {
        tile_bytes(alloc, each, filled, rows, y, count)
    } else {
        tile_pixels(alloc, each, filled, rows, y, count)
    }
}

/// Does what `tile_bits` does for rows of `each` pixels, repeated up to `filled` pixels, if each copy begins at a byte:
/// tiles their bytes. The only fault is `Memory`.
fn tile_bytes(
    alloc: Global,
    each: u32,
    filled: u32,
    rows: &BitRows,
    y: u32,
    count: u32,
) -> Result<BitRows, ToolFault>
    requires rows { (0 < length rows.now) × All (λ row. length row ≡ each) rows.now }
    requires some { (0 < each) × (each ≤ filled) }
    requires whole { (each % 8 ≡ 0) ⊎ (filled ≡ each) }
    requires fits { filled ≤ MAX_ROW_LENGTH }
    requires end { y + count < 2 ^ 32 }
    ensures made { IfOk result (λ made. made
        ≡ map (row_of_tiles filled each 1 rows.now) (range_with_len y count)) }
    ensures refused { IfErr result (λ fault. fault ≡ Memory) }
{
    let (bytes, kept, _) = rows.parts();
    let in_bytes = Shape {
        kind: Kind::Pam,
        width: each.div_ceil(8),
        height: 1,
        depth: 1,
        maxval: 255,
    };
    let tiled = tile(alloc, filled.div_ceil(8), in_bytes, bytes, kept, y, count)?;
    Ok(BitRows::new(tiled, count as usize, filled as usize))
}

/// Does what `tile_bytes` does if copies begin within bytes: tiles a row at a time. The only fault is `Memory`.
fn tile_pixels(
    alloc: Global,
    each: u32,
    filled: u32,
    rows: &BitRows,
    y: u32,
    count: u32,
) -> Result<BitRows, ToolFault>
    requires rows { (0 < length rows.now) × All (λ row. length row ≡ each) rows.now }
    requires some { 0 < each }
    requires fits { filled ≤ MAX_ROW_LENGTH }
    requires end { y + count < 2 ^ 32 }
    ensures made { IfOk result (λ made. made
        ≡ map (row_of_tiles filled each 1 rows.now) (range_with_len y count)) }
    ensures refused { IfErr result (λ fault. fault ≡ Memory) }
{
    let (_, kept, _) = rows.parts();
    let size = count as usize * filled.div_ceil(8) as usize;
    let mut tiled = Vec::with_capacity(alloc, size)?;
    let mut row = Bits::empty(alloc);
    for at in y..y + count {
        let (bytes, _) = rows.row(at as usize % kept);
        row.clear();
        tile_bit_row(&mut row, filled, bytes, each)?;
        tiled.extend_from_slice(row.as_bytes())?;
    }
    Ok(BitRows::new(tiled, count as usize, filled as usize))
}

/// Adds `filled` pixels: copies of the first `each` pixels of `bytes` side by side, the last time a part of them.
fn tile_bit_row(tiled: &mut Bits, filled: u32, bytes: &[u8], each: u32) -> Result<(), AllocError>
    requires some { 0 < each }
    requires row { each ≤ 8 * length bytes.now }
    ensures { OnOk result (tiled.new
        ≡ tiled.old ++ tiled_row filled each 1 (take each (all_pixels bytes.now))) }
{
    for _ in 0..filled / each {
        tiled.append_pixels(bytes, 0, each as usize)?;
    }
    tiled.append_pixels(bytes, 0, (filled % each) as usize)
}

impl Model for Tiler {
    ghost use Rattle.pnm_repeat_tools.specs.Keeping.{Tiled, tiled, AreWithin};
    ghost use Rattle.pnm_repeat_tools.specs.Internal.Keeping.{HasTiles};
    ghost use Rattle.std.specs.Prelude.{◌<◌, ◌≤◌};

    ghost Value = { Tiled };

    ghost view = { λ w. tiled w.width w.height w.shape.width w.shape.depth w.rows w.left };

    ghost invariant = { λ w. 0 < w.left → (w.left ≤ w.height)
        × HasTiles (tiled w.width w.height w.shape.width w.shape.depth w.rows w.left)
        × AreWithin w.shape.maxval w.rows };
}

impl ImageTool for Tiler {
    ghost tool = { λ w. Tile w.width w.height };

    ghost ready = { IsTiling };

    ghost due = { tiled_due };

    ghost kept = { λ w. w.rows };

    fn begin(&mut self, alloc: Global, head: &Head) -> Result<Head, ToolFault> {
        let tiled = tiled_head(alloc, self.width, self.height, head)?;
        self.left = 0;
        self.rows = KeptRows::new(alloc);
        Ok(tiled)
    }

    /// Keeps the part of the rows that the result shows, and makes no row of the result yet.
    fn take(&mut self, alloc: Global, shape: Shape, y: u32, rows: Rows) -> Result<(), ToolFault> {
        if y >= self.height {
            return Ok(());
        }
        let kept = (self.height - y).min(rows.count()) as usize;
        let shown = shown_length(self.width, shape);
        self.rows.push_fronts(alloc, &rows, kept, shown)?;
        Ok(())
    }

    fn end(&mut self, shape: Shape) {
        let width = self.width.min(shape.width);
        self.shape = Shape { width, ..shape };
        self.left = self.height;
    }

    /// Gives short rows together, and longer ones one by one. After a fault no row is left.
    #[inline(never)]
    fn give(&mut self, alloc: Global) -> Result<Option<RepeatedRows>, ToolFault> {
        if self.left == 0 {
            return Ok(None);
        }
        let row_length = self.width as usize * self.shape.depth as usize;
        let count = count_together(row_length, self.left);
        let (y, left) = (self.height - self.left, self.left - count);
        self.left = 0;
        let samples = tile_rows(alloc, self.width, self.shape, &self.rows, y, count)?;
        self.left = left;
        let rows = Rows::new(samples, self.shape.maxval, count, row_length);
        Ok(Some(RepeatedRows::once(rows)))
    }

    fn release(&mut self, alloc: Global) {
        self.left = 0;
        self.rows = KeptRows::new(alloc);
    }
}

impl Tiler {
    /// Returns the tool that fills `width` columns and `height` rows, before the first row.
    pub fn new(alloc: Global, width: u32, height: u32) -> Tiler
        ensures width { result.width ≡ width }
        ensures height { result.height ≡ height }
        ensures rows { result.rows ≡ [] }
    {
        Tiler {
            width,
            height,
            shape: Shape {
                kind: Kind::Pam,
                width: 0,
                height: 0,
                depth: 0,
                maxval: 0,
            },
            rows: KeptRows::new(alloc),
            left: 0,
        }
    }
}

/// Returns the head of the tiled image, or the refusal.
fn tiled_head(alloc: Global, width: u32, height: u32, head: &Head) -> Result<Head, ToolFault>
    requires { IsExtent width × IsExtent height }
    ensures made { IfOk result (λ made. result_head (Tile width height) head.now ≡ Ok made) }
    ensures source { OnOk result (IsWithinLimits head.now.shape) }
    ensures limits { OnOk result (width * head.now.shape.depth ≤ MAX_ROW_LENGTH) }
    ensures refused { IfErr result (λ fault. (result_head (Tile width height) head.now ≡ Err fault)
        ⊎ ((fault ≡ Memory) × TakesHead (Tile width height) head.now)) }
{
    let shape = head.shape();
    if shape.height == 0 {
        return Err(ToolFault::OutOfOrder);
    }
    let tiled = Shape {
        width,
        height,
        ..shape
    };
    head_within_limits(alloc, tiled, head.tuple_type())
}
