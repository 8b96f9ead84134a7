//! Columns of an image, made side by side.

ghost use Rattle.std.specs.Prelude.{◌≡◌, ◌≤◌, ◌+◌, ◌-◌, ◌*◌, ℕ, List, All, drop, length, map, reverse, take};
ghost use Rattle.std.specs.Prelude.{IfOk, IfErr};
ghost use Rattle.std.specs.List.{range_with_len};
ghost use Rattle.pnm_image.specs.declared.limits.TheConstants.{MAX_DEPTH, MAX_ROW_LENGTH};
ghost use Rattle.pnm_tools.specs.declared.fault.ToolFault.TheVariants.{Memory};
ghost use Rattle.pnm_transpose.specs.Internal.ColumnBatches.{AreBlank, AreLongEnough, HavePixels, column_samples};
ghost use Rattle.pnm_tools.specs.Flip.{column_of};
ghost use Rattle.pnm_tools.specs.PixelSamples.{pixel_of};
ghost use Rattle.pnm_transpose.specs.Strips.{kept_column, kept_count};
ghost use Rattle.pnm_transpose.specs.Internal.Strips.{ReachColumns};

use crate::blocks::BlockSample;
use crate::flat_rows::FlatRows;
use crate::row_of::RowOf;
use crate::strip::{STRIP_ROWS, StripedRows};
use pnm_image::{Bits, SampleVec, Samples};
use pnm_tools::{ToolFault, color_at, store};
use std::alloc::Global;

/// A column of an image, which becomes a row of the result.
pub(crate) trait Column: Drop {
    /// Its samples.
    ghost samples: { Self → List ℕ };

    /// Returns the column as samples, without a copy.
    fn into_samples(self) -> Samples
        ensures { result ≡ samples self };
}

impl Column for Bits {
    ghost samples = { λ bits. bits };

    fn into_samples(self) -> Samples {
        Samples::from_vec(SampleVec::Bits(self))
    }
}

impl Column for Vec<u8> {
    ghost samples = { λ bytes. bytes.items };

    fn into_samples(self) -> Samples {
        Samples::from_vec(SampleVec::Bytes(self))
    }
}

impl Column for Vec<u16> {
    ghost samples = { λ words. words.items };

    fn into_samples(self) -> Samples {
        Samples::from_vec(SampleVec::Words(self))
    }
}

/// Returns the columns as samples, the last column first. The only fault is `Memory`.
pub(crate) fn last_first<C: Column>(
    alloc: Global,
    columns: Vec<C>,
) -> Result<Vec<Samples>, ToolFault>
    ensures made { IfOk result (λ batch. batch.items ≡ reverse (map C.samples columns.items)) }
    ensures refused { IfErr result (λ fault. fault ≡ Memory) }
{
    let mut columns = columns;
    let mut batch = Vec::with_capacity(alloc, columns.len())?;
    while let Some(column) = columns.pop() {
        batch.push(column.into_samples())?;
    }
    Ok(batch)
}

/// Returns `count` columns of the rows, from column `first` on. The only fault is `Memory`.
pub(crate) fn columns_of<T: BlockSample>(
    alloc: Global,
    kept: &StripedRows<T>,
    rows_first: bool,
    first: usize,
    count: usize,
    depth: usize,
) -> Result<Vec<Vec<T>>, ToolFault>
    requires reach { ReachColumns (first + count) depth kept.now.strips.items kept.now.rows }
    requires sizes { (kept_count kept.now.strips.items kept.now.rows * depth ≤ MAX_ROW_LENGTH)
        × (depth ≤ MAX_DEPTH) × (first + count ≤ 4294967295) }
    ensures made { IfOk result (λ columns. column_samples columns.items
        ≡ map (kept_column rows_first depth kept.now.strips.items kept.now.rows) (range_with_len first count)) }
    ensures refused { IfErr result (λ fault. fault ≡ Memory) }
{
    // Each column is allocated at full length, so that no store has to grow it.
    let samples = STRIP_ROWS * depth * kept.strips.len() + depth * kept.rows.len();
    let mut columns = blank_columns(alloc, count, samples)?;
    put_kept(columns.as_mut_slice(), kept, rows_first, first, depth);
    Ok(columns)
}

/// Stores columns of the rows, each from its first sample on: first the samples of the rows in strips, and then those
/// of the later rows, or in the opposite order if `rows_first` is true.
fn put_kept<T: BlockSample>(
    columns: &mut [Vec<T>],
    kept: &StripedRows<T>,
    rows_first: bool,
    first: usize,
    depth: usize,
)
    requires reach { ReachColumns (first + length columns.old) depth kept.now.strips.items kept.now.rows }
    requires sizes { (kept_count kept.now.strips.items kept.now.rows * depth ≤ MAX_ROW_LENGTH)
        × (depth ≤ MAX_DEPTH) × (first + length columns.old ≤ 4294967295) }
    requires long { AreLongEnough (kept_count kept.now.strips.items kept.now.rows * depth) columns.old }
    ensures { HavePixels (length columns.old) 0
        (λ k. kept_column rows_first depth kept.now.strips.items kept.now.rows (first + k))
        columns.old columns.new }
{
    let (strips, rows) = (kept.strips.as_slice(), &kept.rows);
    let part = STRIP_ROWS * depth;
    if rows_first {
        put_all(columns, 0, rows, first, depth);
        put_rows(columns, rows.len() * depth, strips, first, part);
    } else {
        put_rows(columns, 0, strips, first, part);
        put_all(columns, strips.len() * part, rows, first, depth);
    }
}

/// Stores the rows' pixels from `at` of each column on, one row after the other: as many rows in blocks as `put_blocks`
/// exchanges, and the others four at a time.
pub(crate) fn put_all<T: BlockSample>(
    columns: &mut [Vec<T>],
    at: usize,
    rows: &FlatRows<T>,
    first: usize,
    depth: usize,
)
    requires rows { All (λ row. (first + length columns.old) * depth ≤ length row) rows.now }
    requires sizes { (at + length rows.now * depth ≤ MAX_ROW_LENGTH) × (depth ≤ MAX_DEPTH)
        × (first + length columns.old ≤ 4294967295) }
    requires long { AreLongEnough (at + length rows.now * depth) columns.old }
    ensures { HavePixels (length columns.old) at (λ k. column_of depth rows.now (first + k))
        columns.old columns.new }
{
    let begun = T::put_blocks(columns, at, rows, first, depth);
    put_from(columns, at + begun * depth, rows, begun, first, depth);
}

/// Stores the pixels of the rows from row `begun` on, from `at` of each column on, one row after the other: four rows
/// at a time.
fn put_from<T: Copy>(
    columns: &mut [Vec<T>],
    at: usize,
    rows: &FlatRows<T>,
    begun: usize,
    first: usize,
    depth: usize,
)
    requires begun { begun ≤ length rows.now }
    requires rows { All (λ row. (first + length columns.old) * depth ≤ length row) rows.now }
    requires sizes { (at + (length rows.now - begun) * depth ≤ MAX_ROW_LENGTH) × (depth ≤ MAX_DEPTH)
        × (first + length columns.old ≤ 4294967295) }
    requires long { AreLongEnough (at + (length rows.now - begun) * depth) columns.old }
    ensures { HavePixels (length columns.old) at (λ k. column_of depth (drop begun rows.now) (first + k))
        columns.old columns.new }
{
    let left = rows.len() - begun;
    let fours = left / 4;
    for group in 0..fours {
        let y = 4 * group;
        put_four(columns, at + y * depth, rows, begun + y, first, depth);
    }
    let y = 4 * fours;
    put_some(
        columns,
        at + y * depth,
        rows,
        begun + y,
        left - y,
        first,
        depth,
    );
}

/// Stores the pixels of four rows, from row `y` on, from `at` of each column on, one row after the other.
fn put_four<T: Copy>(
    columns: &mut [Vec<T>],
    at: usize,
    rows: &FlatRows<T>,
    y: usize,
    first: usize,
    depth: usize,
)
    requires four { y + 4 ≤ length rows.now }
    requires rows { All (λ row. (first + length columns.old) * depth ≤ length row) rows.now }
    requires sizes { (at + 4 * depth ≤ MAX_ROW_LENGTH) × (first + length columns.old ≤ 4294967295) }
    requires long { AreLongEnough (at + 4 * depth) columns.old }
    ensures { HavePixels (length columns.old) at (λ k. column_of depth (take 4 (drop y rows.now)) (first + k))
        columns.old columns.new }
{
    match depth {
        1 => put_four_samples(columns, at, rows, y, first),
        3 => put_four_colors(columns, at, rows, y, first),
        _ => put_some(columns, at, rows, y, 4, first, depth),
    }
}

/// Stores four rows of pixels of one sample, from row `y` on. Reads all samples of a column before it stores one, so
/// that the compiler stores them at once.
fn put_four_samples<T: Copy>(
    columns: &mut [Vec<T>],
    at: usize,
    rows: &FlatRows<T>,
    y: usize,
    first: usize,
)
    requires four { y + 4 ≤ length rows.now }
    requires rows { All (λ row. (first + length columns.old) * 1 ≤ length row) rows.now }
    requires long { AreLongEnough (at + 4) columns.old }
    ensures { HavePixels (length columns.old) at (λ k. column_of 1 (take 4 (drop y rows.now)) (first + k))
        columns.old columns.new }
{
    // No effect at run time: from this, a proof learns that the number of rows fits a `usize`.
    let _ = rows.len();
    let (a, b) = (rows.row(y), rows.row(y + 1));
    let (c, d) = (rows.row(y + 2), rows.row(y + 3));
    for (k, column) in columns.iter_mut().enumerate() {
        let x = first + k;
        store(column.as_mut_slice(), at, &[a[x], b[x], c[x], d[x]]);
    }
}

/// Stores four rows of pixels of three samples, from row `y` on.
fn put_four_colors<T: Copy>(
    columns: &mut [Vec<T>],
    at: usize,
    rows: &FlatRows<T>,
    y: usize,
    first: usize,
)
    requires four { y + 4 ≤ length rows.now }
    requires rows { All (λ row. (first + length columns.old) * 3 ≤ length row) rows.now }
    requires long { AreLongEnough (at + 12) columns.old }
    ensures { HavePixels (length columns.old) at (λ k. column_of 3 (take 4 (drop y rows.now)) (first + k))
        columns.old columns.new }
{
    // No effect at run time: from this, a proof learns that the number of rows fits a `usize`.
    let _ = rows.len();
    let (a, b) = (rows.row(y), rows.row(y + 1));
    let (c, d) = (rows.row(y + 2), rows.row(y + 3));
    for (k, column) in columns.iter_mut().enumerate() {
        let x = 3 * (first + k);
        let (p, q) = (color_at(a, x), color_at(b, x));
        let (r, s) = (color_at(c, x), color_at(d, x));
        let four = [p.0, p.1, p.2, q.0, q.1, q.2, r.0, r.1, r.2, s.0, s.1, s.2];
        store(column.as_mut_slice(), at, &four);
    }
}

/// Stores the pixels of `count` rows, from row `y` on, from `at` of each column on, one row after the other.
fn put_some<T: Copy>(
    columns: &mut [Vec<T>],
    at: usize,
    rows: &FlatRows<T>,
    y: usize,
    count: usize,
    first: usize,
    depth: usize,
)
    requires count { y + count ≤ length rows.now }
    requires rows { All (λ row. (first + length columns.old) * depth ≤ length row) rows.now }
    requires sizes { (at + count * depth ≤ MAX_ROW_LENGTH) × (first + length columns.old ≤ 4294967295) }
    requires long { AreLongEnough (at + count * depth) columns.old }
    ensures { HavePixels (length columns.old) at (λ k. column_of depth (take count (drop y rows.now)) (first + k))
        columns.old columns.new }
{
    // No effect at run time: from this, a proof learns that the number of rows fits a `usize`.
    let _ = rows.len();
    for n in 0..count {
        put_pixels(columns, at + n * depth, rows.row(y + n), first, depth);
    }
}

/// Stores the strips' parts from `at` of each column on, one strip after the other.
fn put_rows<T: Copy>(
    columns: &mut [Vec<T>],
    at: usize,
    rows: &[RowOf<T>],
    first: usize,
    depth: usize,
)
    requires rows { All (λ row. (first + length columns.old) * depth ≤ length row) rows.now }
    requires sizes { (at + length rows.now * depth ≤ MAX_ROW_LENGTH)
        × (first + length columns.old ≤ 4294967295) }
    requires long { AreLongEnough (at + length rows.now * depth) columns.old }
    ensures { HavePixels (length columns.old) at (λ k. column_of depth rows.now (first + k))
        columns.old columns.new }
{
    for (n, row) in rows.iter().enumerate() {
        put_pixels(columns, at + n * depth, row.as_slice(), first, depth);
    }
}

/// Stores a row's pixels, each at `at` of a column.
fn put_pixels<T: Copy>(columns: &mut [Vec<T>], at: usize, row: &[T], first: usize, depth: usize)
    requires row { (first + length columns.old) * depth ≤ length row.now }
    requires fits { first + length columns.old ≤ 4294967295 }
    requires long { AreLongEnough (at + depth) columns.old }
    ensures { HavePixels (length columns.old) at (λ k. pixel_of depth row.now (first + k))
        columns.old columns.new }
{
    for (k, column) in columns.iter_mut().enumerate() {
        let x = (first + k) * depth;
        store(column.as_mut_slice(), at, &row[x..x + depth]);
    }
}

/// Returns `count` columns of `samples` samples each, which are still to be stored. The only fault is `Memory`.
pub(crate) fn blank_columns<T: Copy + Default>(
    alloc: Global,
    count: usize,
    samples: usize,
) -> Result<Vec<Vec<T>>, ToolFault>
    ensures blank { IfOk result (λ columns. AreBlank count samples columns.items) }
    ensures refused { IfErr result (λ fault. fault ≡ Memory) }
{
    let mut columns = Vec::with_capacity(alloc, count)?;
    for _ in 0..count {
        columns.push(Vec::from_elem(alloc, T::default(), samples)?)?;
    }
    Ok(columns)
}
