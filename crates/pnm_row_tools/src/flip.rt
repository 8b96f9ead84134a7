//! `pamflip` for the ways in which rows stay rows, from pamflip(1). Each way is a rule: it may reverse the order of the
//! columns and that of the rows.

ghost use Rattle.std.specs.Prelude.{◌≡◌, ◌≤◌, ◌*◌, ◌⊎◌, All, if◌then◌else◌, length, map, reverse, false, [], None};
ghost use Rattle.std.specs.Prelude.{OnOk, IfOk, IfErr, Ok, Err};
ghost use Rattle.std.specs.List.{AllByRecursion};
ghost use Rattle.pnm_image.specs.Heads.{IsWithinLimits, row_length};
ghost use Rattle.pnm_image.specs.HeldRows.{AreRows, row_lists};
ghost use Rattle.pnm_image.specs.Places.{IsRowOf};
ghost use Rattle.pnm_tools.specs.declared.fault.ToolFault.TheVariants.{Memory};
ghost use Rattle.pnm_tools.specs.declared.tool.Tool.TheVariants.{Flip};
ghost use Rattle.pnm_tools.specs.Flip.{mirrored_row, moved_rows, moves_rows, transform_of, transformed_row};
ghost use Rattle.pnm_tools.specs.Flip.{ReversesRows};
ghost use Rattle.pnm_samples.specs.Cuts.{last_first};
ghost use Rattle.pnm_row_tools.specs.Internal.EachRow.{HoldsRows, changed};
ghost use Rattle.pnm_row_tools.specs.RowKeeping.{FlipsInRows, IsReversingRows, reversed_due};
ghost use Rattle.pnm_tools.specs.Tools.{TakesHead, result_head};

use crate::row_tool::RowTool;
use pnm_image::{Head, RepeatedRows, RowVec, Rows, Shape};
use pnm_samples::reverse_rows;
use pnm_tools::{FlipWay, ImageTool, ToolFault, Transform, flipped_head};
use std::alloc::{AllocError, Global};
use std::marker::Model;

/// Reverses the order of `pixels` pixels, or rows, of `size` samples each: reverses all samples, and then those of each
/// pixel again.
fn reverse_pixels<T: Copy>(samples: &mut [T], pixels: usize, size: usize)
    requires size { 1 ≤ size }
    requires pixels { length samples.old ≡ pixels * size }
    ensures { samples.new ≡ last_first pixels size samples.old }
{
    if size == 3 {
        return reverse_colors(samples, pixels);
    }
    samples.reverse();
    if size > 1 {
        for x in 0..pixels {
            samples[x * size..(x + 1) * size].reverse();
        }
    }
}

/// Reverses the order of `pixels` pixels of three samples, without a loop over a pixel's samples.
fn reverse_colors<T: Copy>(samples: &mut [T], pixels: usize)
    requires { length samples.old ≡ pixels * 3 }
    ensures { samples.new ≡ last_first pixels 3 samples.old }
{
    samples.reverse();
    for x in 0..pixels {
        let start = x * 3;
        reverse_three(&mut samples[start..start + 3]);
    }
}

/// Reverses the order of three samples.
#[inline]
fn reverse_three<T: Copy>(samples: &mut [T])
    requires { length samples.old ≡ 3 }
    ensures { samples.new ≡ reverse samples.old }
{
    let first = samples[0];
    samples[0] = samples[2];
    samples[2] = first;
}

/// Reverses the pixels of each of `count` rows of an image of this shape, in place. Bits of several planes become
/// bytes.
///
/// # Errors
///
/// If there is no memory for the bytes.
fn mirror_rows(alloc: Global, shape: Shape, count: u32, rows: RowVec) -> Result<RowVec, AllocError>
    requires limits { IsWithinLimits shape }
    requires rows { AreRows count (row_length shape) rows }
    ensures { IfOk result (λ mirrored. HoldsRows count (row_length shape) mirrored
        (map (mirrored_row shape) (row_lists count (row_length shape) rows))) }
{
    match rows {
        RowVec::Bits(mut bits) if shape.depth == 1 => {
            bits.mirror();
            Ok(RowVec::Bits(bits))
        }
        RowVec::Bits(bits) => {
            let mut unpacked = bits.to_bytes(alloc)?;
            reverse_each(unpacked.as_mut_slice(), shape, count as usize);
            Ok(RowVec::Bytes(unpacked))
        }
        RowVec::Bytes(mut bytes) => {
            reverse_each(bytes.as_mut_slice(), shape, count as usize);
            Ok(RowVec::Bytes(bytes))
        }
        RowVec::Words(mut words) => {
            reverse_each(words.as_mut_slice(), shape, count as usize);
            Ok(RowVec::Words(words))
        }
    }
}

/// Reverses the pixels of each of `count` rows.
fn reverse_each<T: Copy>(samples: &mut [T], shape: Shape, count: usize)
    requires limits { IsWithinLimits shape }
    requires rows { length samples.old ≡ count * row_length shape }
    ensures { samples.new ≡ changed (mirrored_row shape) count (row_length shape) samples.old }
{
    let (width, depth) = (shape.width as usize, shape.depth as usize);
    let each = width * depth;
    for i in 0..count {
        let start = i * each;
        reverse_pixels(&mut samples[start..start + each], width, depth);
    }
}

/// Reverses the order of `count` rows of `each` samples, in place.
fn reverse_order(rows: RowVec, count: usize, each: usize) -> RowVec
    requires { AreRows count each rows }
    ensures { HoldsRows count each result (reverse (row_lists count each rows)) }
{
    match rows {
        RowVec::Bits(mut bits) => {
            bits.reverse();
            RowVec::Bits(bits)
        }
        RowVec::Bytes(mut bytes) => {
            reverse_rows(bytes.as_mut_slice(), count, each);
            RowVec::Bytes(bytes)
        }
        RowVec::Words(mut words) => {
            reverse_rows(words.as_mut_slice(), count, each);
            RowVec::Words(words)
        }
    }
}

/// Reverses the order of `count` rows of an image of this shape, and the pixels of each row: all pixels are reversed as
/// one long row. Bits of several planes become bytes.
///
/// # Errors
///
/// If there is no memory for the bytes.
fn turn_round(alloc: Global, shape: Shape, count: u32, rows: RowVec) -> Result<RowVec, AllocError>
    requires limits { IsWithinLimits shape }
    requires rows { AreRows count (row_length shape) rows }
    ensures { IfOk result (λ turned. HoldsRows count (row_length shape) turned
        (map (mirrored_row shape) (reverse (row_lists count (row_length shape) rows)))) }
{
    let (pixels, depth) = (count as usize * shape.width as usize, shape.depth as usize);
    match rows {
        RowVec::Bits(mut bits) if shape.depth == 1 => {
            bits.turn_round();
            Ok(RowVec::Bits(bits))
        }
        RowVec::Bits(bits) => {
            let mut unpacked = bits.to_bytes(alloc)?;
            reverse_pixels(unpacked.as_mut_slice(), pixels, depth);
            Ok(RowVec::Bytes(unpacked))
        }
        RowVec::Bytes(mut bytes) => {
            reverse_pixels(bytes.as_mut_slice(), pixels, depth);
            Ok(RowVec::Bytes(bytes))
        }
        RowVec::Words(mut words) => {
            reverse_pixels(words.as_mut_slice(), pixels, depth);
            Ok(RowVec::Words(words))
        }
    }
}

/// Reverses the order of rows of an image of this shape, and the pixels of each row if `transform` reverses the
/// columns.
///
/// # Errors
///
/// If there is no memory for bits that become bytes.
fn transform_rows(
    alloc: Global,
    transform: Transform,
    shape: Shape,
    rows: Rows,
) -> Result<Rows, AllocError>
    requires limits { IsWithinLimits shape }
    requires rows { AllByRecursion (IsRowOf shape) rows }
    ensures { IfOk result (λ turned. turned ≡ map (transformed_row transform shape) (reverse rows)) }
{
    let (held, count, row_length) = rows.into_parts();
    if transform.columns_reversed {
        let turned = turn_round(alloc, shape, count, held)?;
        Ok(Rows::new(turned, shape.maxval, count, row_length))
    } else {
        let reversed = reverse_order(held, count as usize, row_length);
        Ok(Rows::new(reversed, shape.maxval, count, row_length))
    }
}

/// Passes the rows of images on, with their pixels reversed or unchanged: any way that leaves rows in their places.
#[derive(Drop)]
pub struct RowFlipper {
    way: FlipWay,
}

impl Model for RowFlipper {
    ghost use Rattle.pnm_tools.specs.declared.flip.FlipWay.{FlipWay};
    ghost use Rattle.pnm_row_tools.specs.RowKeeping.{KeepsRows};

    ghost Value = { FlipWay };

    ghost view = { λ w. w.way };

    ghost invariant = { λ w. KeepsRows w.way };
}

impl RowTool for RowFlipper {
    ghost tool = { λ way. Flip way };

    ghost ready = { FlipsInRows };

    ghost nothing_at_end = { λ way shape rows ready i. if ready.stays i then moved_rows (transform_of way) shape
        rows else [] };

    fn begin(&mut self, alloc: Global, head: &Head) -> Result<Head, ToolFault> {
        flipped_head(alloc, self.way, head)
    }

    /// Changes the rows in place.
    fn rows(
        &self,
        alloc: Global,
        shape: Shape,
        _y: u32,
        rows: Rows,
    ) -> Result<Option<Rows>, ToolFault> {
        if !self.way.transform().columns_reversed {
            return Ok(Some(rows));
        }
        let (held, count, row_length) = rows.into_parts();
        let mirrored = mirror_rows(alloc, shape, count, held)?;
        Ok(Some(Rows::new(mirrored, shape.maxval, count, row_length)))
    }
}

impl RowFlipper {
    /// Creates the tool before the first row.
    pub fn new(way: FlipWay) -> RowFlipper
        requires { moves_rows (transform_of way) ≡ false }
        ensures { result ≡ way }
    {
        RowFlipper { way }
    }
}

/// Reverses the order of rows, and maybe that of the pixels of each row. Keeps the rows of an image in the blocks in
/// which they come, and gives the last row first.
#[derive(Drop)]
pub struct RowReverser {
    way: FlipWay,
    blocks: Vec<Rows>,
    /// The image's shape, once the image has ended and the tool gives its rows.
    ended: Option<Shape>,
}

impl Model for RowReverser {
    ghost use Rattle.pnm_row_tools.specs.RowKeeping.{Reversed, reversed, flattened};
    ghost use Rattle.pnm_row_tools.specs.Internal.RowKeeping.{CanReverse};

    ghost Value = { Reversed };

    ghost view = { λ w. reversed w.way (flattened w.blocks.items) w.ended };

    ghost invariant = { λ w. CanReverse (reversed w.way (flattened w.blocks.items) w.ended) };
}

impl ImageTool for RowReverser {
    ghost tool = { λ w. Flip w.way };

    ghost ready = { IsReversingRows };

    ghost due = { reversed_due };

    ghost kept = { λ w. w.rows };

    fn begin(&mut self, alloc: Global, head: &Head) -> Result<Head, ToolFault> {
        let reversed = flipped_head(alloc, self.way, head)?;
        self.ended = None;
        self.blocks = Vec::new(alloc);
        Ok(reversed)
    }

    /// Keeps the rows, and makes none of the result yet.
    fn take(
        &mut self,
        _alloc: Global,
        _shape: Shape,
        _y: u32,
        rows: Rows,
    ) -> Result<(), ToolFault> {
        self.blocks.push(rows)?;
        Ok(())
    }

    fn end(&mut self, shape: Shape) {
        self.ended = Some(shape);
    }

    #[inline(never)]
    fn give(&mut self, alloc: Global) -> Result<Option<RepeatedRows>, ToolFault> {
        let Some(shape) = self.ended else {
            return Ok(None);
        };
        let Some(kept) = self.blocks.pop() else {
            return Ok(None);
        };
        let turned = transform_rows(alloc, self.way.transform(), shape, kept)?;
        Ok(Some(RepeatedRows::once(turned)))
    }

    fn release(&mut self, alloc: Global) {
        self.blocks = Vec::new(alloc);
    }
}

impl RowReverser {
    /// Creates the tool before the first row.
    pub fn new(alloc: Global, way: FlipWay) -> RowReverser
        requires { ReversesRows (transform_of way) }
        ensures way { result.way ≡ way }
        ensures rows { result.rows ≡ [] }
        ensures coming { result.ended ≡ None }
    {
        RowReverser {
            way,
            blocks: Vec::new(alloc),
            ended: None,
        }
    }
}
