//! Rows and columns of bytes of one plane, exchanged in blocks.

ghost use Rattle.std.specs.Prelude.{◌≡◌, ◌≤◌, ◌+◌, ◌*◌, All, drop, length, take};
ghost use Rattle.pnm_image.specs.declared.limits.TheConstants.{MAX_ROW_LENGTH};
ghost use Rattle.pnm_transpose.specs.Internal.ColumnBatches.{AreLongEnough, AreRowsFrom, HavePixels};
ghost use Rattle.pnm_tools.specs.Flip.{column_of};

use crate::flat_rows::FlatRows;
use pnm_samples::lanes_beside;
use pnm_tools::store;

/// A sample as a row of an image holds it.
pub(crate) trait BlockSample: Copy + Default {
    /// Stores the pixels of the first rows, as many rows as are exchanged in blocks, from `at` of each column on, one
    /// row after the other. Returns the number of these rows.
    fn put_blocks(
        columns: &mut [Vec<Self>],
        at: usize,
        rows: &FlatRows<Self>,
        first: usize,
        depth: usize,
    ) -> usize
        requires rows { All (λ row. (first + length columns.old) * depth ≤ length row) rows.now }
        requires sizes { (at + length rows.now * depth ≤ MAX_ROW_LENGTH)
            × (first + length columns.old ≤ 4294967295) }
        requires long { AreLongEnough (at + length rows.now * depth) columns.old }
        ensures count { result ≤ length rows.now }
        ensures stored { HavePixels (length columns.old) at
            (λ k. column_of depth (take result rows.now) (first + k)) columns.old columns.new };
}

impl BlockSample for u16 {
    /// Stores no rows.
    fn put_blocks(
        _columns: &mut [Vec<u16>],
        _at: usize,
        _rows: &FlatRows<u16>,
        _first: usize,
        _depth: usize,
    ) -> usize {
        0
    }
}

impl BlockSample for u8 {
    /// Stores sixteen rows at a time if a pixel is one sample.
    fn put_blocks(
        columns: &mut [Vec<u8>],
        at: usize,
        rows: &FlatRows<u8>,
        first: usize,
        depth: usize,
    ) -> usize {
        if depth != 1 {
            return 0;
        }
        let groups = rows.len() / 16;
        for group in 0..groups {
            let y = 16 * group;
            put_sixteen(columns, at + y, rows, y, first);
        }
        16 * groups
    }
}

/// Stores sixteen rows, from row `y` on, from `at` of each column on: bytes of sixteen columns at a time.
fn put_sixteen(columns: &mut [Vec<u8>], at: usize, rows: &FlatRows<u8>, y: usize, first: usize)
    requires sixteen { y + 16 ≤ length rows.now }
    requires rows { All (λ row. (first + length columns.old) * 1 ≤ length row) rows.now }
    requires fits { first + length columns.old ≤ 4294967295 }
    requires long { AreLongEnough (at + 16) columns.old }
    ensures { HavePixels (length columns.old) at (λ k. column_of 1 (take 16 (drop y rows.now)) (first + k))
        columns.old columns.new }
{
    let sixteen = sixteen_rows(rows, y);
    let mut done = 0;
    while done < columns.len() {
        let lanes = lanes_beside(&sixteen, first + done);
        let count = (columns.len() - done).min(16);
        for i in 0..count {
            let bytes = lanes[i].to_array();
            store(columns[done + i].as_mut_slice(), at, &bytes);
        }
        done += count;
    }
}

/// Returns sixteen rows, from row `y` on.
fn sixteen_rows(rows: &FlatRows<u8>, y: usize) -> [&[u8]; 16]
    requires { y + 16 ≤ length rows.now }
    ensures count { length result ≡ 16 }
    ensures rows { AreRowsFrom y rows.now result }
{
    // No effect at run time: from this, a proof learns that the number of rows fits a `usize`.
    let _ = rows.len();
    let mut sixteen = [rows.row(y); 16];
    for i in 1..16 {
        sixteen[i] = rows.row(y + i);
    }
    sixteen
}
