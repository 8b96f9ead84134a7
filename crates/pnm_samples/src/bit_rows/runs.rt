//! Runs of pixels of rows, moved to the front within the bytes of the rows.

ghost use Rattle.std.specs.Prelude.{ℕ, ◌≡◌, ◌+◌, ◌*◌, ◌^◌, ◌<◌, ◌≤◌, drop, length, take};
ghost use Rattle.pnm_samples.specs.Internal.BitRows.{IsMovedRun, row_bytes};
ghost use Rattle.pnm_samples.specs.PixelRows.{bytes_for};
ghost use Rattle.pnm_samples.specs.Pixels.{all_pixels};

use crate::bits::fill_run;

/// How many bytes are moved at once. They are put together outside the rows, since a run can overlap its new place.
const CHUNK: usize = 512;

/// Moves a run of `each` pixels from each of `count` rows to the front, each run to the start of a byte. A run begins
/// at pixel `left` of its row. The rows begin at byte `start` and lie `apart` bytes apart. The spare pixels of a run's
/// last byte are unspecified.
pub(super) fn move_runs(
    bytes: &mut [u8],
    start: usize,
    apart: usize,
    count: usize,
    left: usize,
    each: usize,
)
    requires rows { start + count * apart ≤ length bytes.old }
    requires within { 0 < count → left + each ≤ 8 * apart }
    requires fits { 0 < count → left + each < 2 ^ 64 }
    ensures { (row : ℕ) → row < count → take each (all_pixels (row_bytes (bytes_for each) row bytes.new))
        ≡ take each (drop left (all_pixels (drop (start + row * apart) bytes.old))) }
{
    let mut chunk = [0; CHUNK];
    let size = each.div_ceil(8);
    let pixels = (count * apart).saturating_mul(8);
    if size == apart && left < pixels && pixels < usize::MAX {
        // The runs lie as close together as the rows did, so they are moved as one. Pixels of another row are spare.
        move_by_chunks(bytes, &mut chunk, start, 0, left, pixels - left);
        return;
    }
    for row in 0..count {
        let from = start + row * apart + left / 8;
        move_run(bytes, &mut chunk, from, row * size, left % 8, each);
    }
}

/// Moves a run of `count` pixels to the start of byte `to`. The run begins `skipped` pixels after the start of byte
/// `from`, and `to` isn't past `from`. The run moves at once if it doesn't overlap its new place.
#[inline]
fn move_run(
    bytes: &mut [u8],
    chunk: &mut [u8],
    from: usize,
    to: usize,
    skipped: usize,
    count: usize,
)
    requires chunk { (0 < length chunk.old) × (length chunk.old < 2 ^ 60) }
    requires down { to ≤ from }
    requires run { 8 * from + skipped + count ≤ 8 * length bytes.old }
    requires fits { skipped + count < 2 ^ 64 }
    ensures { IsMovedRun from to skipped count bytes.old bytes.new }
{
    let size = count.div_ceil(8);
    if to + size <= from {
        let (front, back) = bytes.split_at_mut(from);
        fill_run(&mut front[to..to + size], back, skipped, count);
    } else {
        move_by_chunks(bytes, chunk, from, to, skipped, count);
    }
}

/// Does the same for a run that overlaps its new place.
#[inline(never)]
fn move_by_chunks(
    bytes: &mut [u8],
    chunk: &mut [u8],
    from: usize,
    to: usize,
    skipped: usize,
    count: usize,
)
    requires chunk { (0 < length chunk.old) × (length chunk.old < 2 ^ 60) }
    requires down { to ≤ from }
    requires run { 8 * from + skipped + count ≤ 8 * length bytes.old }
    requires fits { skipped + count < 2 ^ 64 }
    ensures { IsMovedRun from to skipped count bytes.old bytes.new }
{
    let size = chunk.len();
    let chunks = count / (8 * size);
    for i in 0..chunks {
        let done = i * size;
        move_chunk(bytes, chunk, from + done, to + done, skipped, 8 * size);
    }
    let done = chunks * size;
    let rest = count - 8 * done;
    let last = &mut chunk[..rest.div_ceil(8)];
    move_chunk(bytes, last, from + done, to + done, skipped, rest);
}

/// Does the same for as many pixels as the chunk has room for.
fn move_chunk(
    bytes: &mut [u8],
    chunk: &mut [u8],
    from: usize,
    to: usize,
    skipped: usize,
    count: usize,
)
    requires chunk { length chunk.old ≡ bytes_for count }
    requires down { to ≤ from }
    requires run { 8 * from + skipped + count ≤ 8 * length bytes.old }
    requires fits { skipped + count < 2 ^ 64 }
    ensures { IsMovedRun from to skipped count bytes.old bytes.new }
{
    fill_run(chunk, &bytes[from..], skipped, count);
    bytes[to..to + chunk.len()].copy_from_slice(chunk);
}
