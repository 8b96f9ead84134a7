//! `pamcut`: a rectangle of the image, from pamcut(1).

ghost use Rattle.std.specs.Prelude.{◌≡◌, ◌≤◌, ◌+◌, ◌-◌, ◌*◌, ◌^◌, ◌⊎◌, IfOk, [], ◌<◌, length, map};
ghost use Rattle.std.specs.Prelude.{IfSome, IfNone, take, drop};
ghost use Rattle.std.specs.List.{AllByRecursion, copy_within};
ghost use Rattle.pnm_image.specs.Places.{IsRowOf};
ghost use Rattle.pnm_image.specs.declared.limits.TheConstants.{MAX_SIDE};
ghost use Rattle.pnm_tools.specs.Cut.{IsLawfulAxis, columns_of_row, span_of, first_kept, last_kept};
ghost use Rattle.pnm_tools.specs.Cut.{edge_of, IsLawfulBox, columns_kept, rows_kept, span_count};
ghost use Rattle.pnm_tools.specs.declared.tool.Tool.TheVariants.{Cut};
ghost use Rattle.pnm_row_tools.specs.Internal.RowKeeping.{parts_kept};
ghost use Rattle.pnm_row_tools.specs.Internal.EachRow.{parts_of};

use crate::row_tool::RowTool;
use pnm_image::{Head, RowVec, Rows, Shape};
use pnm_tools::{CutBox, Span, ToolFault, head_within_limits};
use std::alloc::Global;

/// How many samples are copied at once if source and target overlap.
const CHUNK: usize = 512;

/// The samples to keep of rows that follow one another.
#[derive(Clone, Copy)]
struct Parts {
    /// The first of these rows, and the number of rows.
    top: usize,
    count: usize,
    /// The number of samples in a row.
    row_length: usize,
    /// The first sample to keep of a row, and how many to keep.
    first: usize,
    kept: usize,
}

/// Keeps the columns `columns` of the rows `among`: moves their samples to the front, in place. The rows are of an
/// image of this shape.
fn keep_columns_of_rows(columns: Span, among: Span, shape: Shape, rows: Rows) -> Rows
    requires columns { (columns.first ≤ columns.last) × (columns.last < shape.width) }
    requires among { (among.first ≤ among.last) × (among.last < length rows) }
    requires rows { AllByRecursion (IsRowOf shape) rows }
    ensures { result ≡ map (columns_of_row columns shape.depth) (take (span_count among) (drop among.first rows)) }
{
    let (held, count, row_length) = rows.into_parts();
    let kept_rows = among.last - among.first + 1;
    let parts = parts_kept(columns, among, shape.depth as usize, row_length);
    if parts.kept == row_length && kept_rows == count {
        return Rows::new(held, shape.maxval, count, row_length);
    }
    let kept = match held {
        RowVec::Bits(mut bits) => {
            bits.keep_part(parts.top, parts.count, parts.first, parts.kept);
            RowVec::Bits(bits)
        }
        RowVec::Bytes(mut bytes) => {
            keep_of_each(&mut bytes, &mut [0; CHUNK], parts);
            RowVec::Bytes(bytes)
        }
        RowVec::Words(mut words) => {
            keep_of_each(&mut words, &mut [0; CHUNK], parts);
            RowVec::Words(words)
        }
    };
    Rows::new(kept, shape.maxval, kept_rows, parts.kept)
}

/// Returns the samples to keep of the rows `among`: the columns `columns`.
fn parts_kept(columns: Span, among: Span, depth: usize, row_length: usize) -> Parts
    requires columns { (columns.first ≤ columns.last) × ((columns.last + 1) * depth < 2 ^ 64) }
    requires among { among.first ≤ among.last }
    ensures { result ≡ parts_kept columns among depth row_length }
{
    Parts {
        top: among.first as usize,
        count: (among.last - among.first) as usize + 1,
        row_length,
        first: columns.first as usize * depth,
        kept: (columns.last as usize - columns.first as usize + 1) * depth,
    }
}

/// Keeps these parts of the rows, in place and in order. Samples that overlap their new place pass through `chunk`.
fn keep_of_each<T: Copy>(samples: &mut Vec<T>, chunk: &mut [T], parts: Parts)
    requires chunk { 0 < length chunk.old }
    requires rows { parts.top * parts.row_length + parts.count * parts.row_length
        ≤ length samples.old.items }
    requires within { parts.first + parts.kept ≤ parts.row_length }
    ensures { samples.new.items ≡ parts_of parts samples.old.items }
{
    move_parts(samples.as_mut_slice(), chunk, parts);
    samples.truncate(parts.count * parts.kept);
}

/// Moves these parts of the rows to the front, as `keep_of_each` does.
#[inline(always)]
fn move_parts<T: Copy>(samples: &mut [T], chunk: &mut [T], parts: Parts)
    requires chunk { 0 < length chunk.old }
    requires rows { parts.top * parts.row_length + parts.count * parts.row_length ≤ length samples.old }
    requires within { parts.first + parts.kept ≤ parts.row_length }
    ensures { take (parts.count * parts.kept) samples.new ≡ parts_of parts samples.old }
{
    let (skipped, kept) = (parts.top * parts.row_length, parts.kept);
    for i in 0..parts.count {
        let start = skipped + i * parts.row_length + parts.first;
        copy_down(samples, chunk, start, i * kept, kept);
    }
}

/// Copies `count` samples down from `from` to `to` (`to <= from`), through `chunk` if the two ranges overlap. Does
/// nothing if they are the same.
#[inline]
fn copy_down<T: Copy>(samples: &mut [T], chunk: &mut [T], from: usize, to: usize, count: usize)
    requires chunk { 0 < length chunk.old }
    requires down { to ≤ from }
    requires within { from + count ≤ length samples.old }
    ensures { samples.new ≡ copy_within samples.old from (from + count) to }
{
    if from == to {
        return;
    }
    if count <= from - to {
        copy_apart(samples, from, to, count);
    } else {
        copy_by_chunks(samples, chunk, from, to, count);
    }
}

/// Copies `count` samples down to a range that they overlap, through `chunk`, as many at a time as it has room for.
/// This takes a fraction of the time of copying one sample after another.
fn copy_by_chunks<T: Copy>(samples: &mut [T], chunk: &mut [T], from: usize, to: usize, count: usize)
    requires chunk { 0 < length chunk.old }
    requires down { to ≤ from }
    requires within { from + count ≤ length samples.old }
    ensures { samples.new ≡ copy_within samples.old from (from + count) to }
{
    let size = chunk.len();
    let copies = count / size;
    for i in 0..copies {
        let done = i * size;
        copy_chunk(samples, chunk, from + done, to + done, size);
    }
    let done = copies * size;
    let rest = count - done;
    copy_chunk(samples, &mut chunk[..rest], from + done, to + done, rest);
}

/// Copies `count` samples, which just fill `chunk`, through it down to `to`.
fn copy_chunk<T: Copy>(samples: &mut [T], chunk: &mut [T], from: usize, to: usize, count: usize)
    requires chunk { length chunk.old ≡ count }
    requires down { to ≤ from }
    requires within { from + count ≤ length samples.old }
    ensures { samples.new ≡ copy_within samples.old from (from + count) to }
{
    chunk.copy_from_slice(&samples[from..from + count]);
    samples[to..to + count].copy_from_slice(chunk);
}

/// Copies `count` samples down to a range that they don't overlap.
#[inline]
fn copy_apart<T: Copy>(samples: &mut [T], from: usize, to: usize, count: usize)
    requires apart { to + count ≤ from }
    requires within { from + count ≤ length samples.old }
    ensures { samples.new ≡ copy_within samples.old from (from + count) to }
{
    let (front, back) = samples.split_at_mut(from);
    front[to..to + count].copy_from_slice(&back[..count]);
}

/// Cuts the rows of images.
#[derive(Clone, Copy)]
pub struct Cutter {
    cut: CutBox,
    /// The columns and the rows to keep of the image.
    columns: Span,
    rows: Span,
}

impl RowTool for Cutter {
    ghost use Rattle.pnm_row_tools.specs.RowKeeping.{HasSpans};

    ghost tool = { λ w. Cut w.cut };

    ghost ready = { HasSpans };

    ghost nothing_at_end = { λ _ _ _ _ _. [] };

    fn begin(&mut self, alloc: Global, head: &Head) -> Result<Head, ToolFault> {
        let shape = head.shape();
        if shape.height == 0 {
            return Err(ToolFault::OutOfOrder);
        }
        let (Some(columns), Some(rows)) = (
            columns_kept(&self.cut, shape),
            rows_kept(&self.cut, shape),
        ) else {
            return Err(ToolFault::CutOutside);
        };
        self.columns = columns;
        self.rows = rows;
        let kept = Shape {
            width: span_count(columns),
            height: span_count(rows),
            ..shape
        };
        head_within_limits(alloc, kept, head.tuple_type())
    }

    /// Drops the rows that aren't kept, and moves the kept columns of the others to the front.
    fn rows(
        &self,
        _alloc: Global,
        shape: Shape,
        y: u32,
        rows: Rows,
    ) -> Result<Option<Rows>, ToolFault> {
        let Some(among) = kept_among(self.rows, y, rows.count()) else {
            return Ok(None);
        };
        let kept = keep_columns_of_rows(self.columns, among, shape, rows);
        Ok(Some(kept))
    }
}

impl Cutter {
    ghost use Rattle.pnm_row_tools.specs.RowKeeping.{cut_of};

    /// Returns the tool that keeps this rectangle, before the first image.
    pub fn new(cut: CutBox) -> Cutter
        ensures { cut_of result ≡ cut }
    {
        let none = Span { first: 0, last: 0 };
        Cutter {
            cut,
            columns: none,
            rows: none,
        }
    }
}

/// Returns the columns to keep of an image of this shape, if they lie inside it.
fn columns_kept(cut: &CutBox, shape: Shape) -> Option<Span>
    requires { IsLawfulBox cut.now }
    ensures { result ≡ columns_kept cut.now shape }
{
    span_of(shape.width, cut.left, cut.right, cut.width)
}

/// Returns the rows to keep of an image of this shape, if they lie inside it.
fn rows_kept(cut: &CutBox, shape: Shape) -> Option<Span>
    requires { IsLawfulBox cut.now }
    ensures { result ≡ rows_kept cut.now shape }
{
    span_of(shape.height, cut.top, cut.bottom, cut.height)
}

/// Returns which of `count` rows, from row `y` on, are kept, counted from 0 at row `y`. Returns `None` if none of them
/// is.
fn kept_among(kept: Span, y: u32, count: u32) -> Option<Span>
    requires kept { kept.first ≤ kept.last }
    requires some { 1 ≤ count }
    requires within { y + count < 2 ^ 32 }
    ensures before { IfSome result (λ among. among.first ≡ kept.first - y) }
    ensures among { IfSome result (λ among. (among.first ≤ among.last) × (y + among.last ≤ kept.last)) }
    ensures behind { IfSome result (λ among. count ≡ among.last + 1 + ((y + count) - (kept.last + 1))) }
    ensures none { IfNone result ((y + count ≤ kept.first) ⊎ (kept.last < y)) }
{
    let last = y + (count - 1);
    if last < kept.first || kept.last < y {
        return None;
    }
    Some(Span {
        first: kept.first.saturating_sub(y),
        last: kept.last.min(last) - y,
    })
}

/// Returns the number of columns or rows in the span.
fn span_count(span: Span) -> u32
    requires { (span.first ≤ span.last) × (span.last < MAX_SIDE) }
    ensures { result ≡ span_count span }
{
    span.last - span.first + 1
}

/// Returns what is kept of `count` columns or rows, if it lies among them.
fn span_of(count: u32, start: Option<i32>, end: Option<i32>, size: Option<u32>) -> Option<Span>
    requires { IsLawfulAxis start end size }
    ensures { result ≡ span_of count start end size }
{
    let first = first_kept(count, start, end, size);
    let last = last_kept(count, start, end, size);
    if 0 <= first && first <= last && last < i64::from(count) {
        Some(Span {
            first: first as u32,
            last: last as u32,
        })
    } else {
        None
    }
}

/// Returns the first column, or row, that is kept, counted from 0; it may lie outside the image.
fn first_kept(count: u32, start: Option<i32>, end: Option<i32>, size: Option<u32>) -> i64
    requires { IsLawfulAxis start end size }
    ensures { result ≡ first_kept count start end size }
{
    match (start, end, size) {
        (Some(start), _, _) => edge_of(count, start),
        (None, Some(end), Some(size)) => edge_of(count, end) - i64::from(size) + 1,
        (None, _, _) => 0,
    }
}

/// Returns the last column, or row, that is kept, counted from 0; it may lie outside the image.
fn last_kept(count: u32, start: Option<i32>, end: Option<i32>, size: Option<u32>) -> i64
    requires { IsLawfulAxis start end size }
    ensures { result ≡ last_kept count start end size }
{
    match (start, end, size) {
        (_, Some(end), _) => edge_of(count, end),
        (Some(start), None, Some(size)) => edge_of(count, start) + i64::from(size) - 1,
        (None, None, Some(size)) => i64::from(size) - 1,
        (_, None, None) => i64::from(count) - 1,
    }
}

/// Returns a column or a row by its number from the start. A negative `edge` counts from the end.
fn edge_of(count: u32, edge: i32) -> i64
    ensures { result ≡ edge_of count edge }
{
    if edge < 0 {
        i64::from(count) + i64::from(edge)
    } else {
        i64::from(edge)
    }
}
