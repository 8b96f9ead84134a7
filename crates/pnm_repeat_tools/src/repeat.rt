//! Repeats pixels across, and rows down.

ghost use Rattle.std.specs.Prelude.{◌≡◌, ◌≤◌, ◌+◌, ◌*◌, ◌++◌, ◌∷◌, [], length, replicate, take, IfOk, IfErr};
ghost use Rattle.std.specs.List.{flat_map, range_with_len};
ghost use Rattle.pnm_image.specs.Heads.{row_length};
ghost use Rattle.pnm_tools.specs.declared.fault.ToolFault.TheVariants.{Memory};
ghost use Rattle.pnm_tools.specs.Enlarge.{enlarged_row, copies_of};
ghost use Rattle.pnm_tools.specs.PixelSamples.{pixel_of};

use pnm_image::{Kind, Shape};
use pnm_tools::{ToolFault, color_at, store};
use std::alloc::Global;

/// The fewest samples of a run that is copied as a whole.
const LEAST_RUN: usize = 16;

/// Repeats each of `count` runs of `each` samples `times` times: long runs by copies, and short ones as if they were
/// pixels.
///
/// # Errors
///
/// `Memory` if there is no memory for them.
pub(crate) fn repeat_runs<T: Copy + Default>(
    alloc: Global,
    times: u32,
    samples: &[T],
    count: u32,
    each: usize,
) -> Result<Vec<T>, ToolFault>
    requires { length samples.now ≡ count * each }
    ensures made { IfOk result (λ made. made.items
        ≡ flat_map (λ run. copies_of times (pixel_of each samples.now run))
        (range_with_len 0 count)) }
    ensures refused { IfErr result (λ fault. fault ≡ Memory) }
{
    if each < LEAST_RUN {
        let shape = Shape {
            kind: Kind::Pam,
            width: count,
            height: 1,
            depth: each as u32,
            maxval: 1,
        };
        return repeat_pixels(alloc, times, shape, samples);
    }
    let Some(total) = samples.len().checked_mul(times as usize) else {
        return Err(ToolFault::Memory);
    };
    let mut repeated = Vec::with_capacity(alloc, total)?;
    for run in 0..count as usize {
        let copied = &samples[run * each..(run + 1) * each];
        for _ in 0..times {
            repeated.extend_from_slice(copied)?;
        }
    }
    Ok(repeated)
}

/// Returns the row with each pixel repeated `across` times. The only fault is `Memory`.
pub(crate) fn repeat_pixels<T: Copy + Default>(
    alloc: Global,
    across: u32,
    shape: Shape,
    row: &[T],
) -> Result<Vec<T>, ToolFault>
    requires row { length row.now ≡ row_length shape }
    ensures made { IfOk result (λ made. made.items ≡ enlarged_row across shape row.now) }
    ensures refused { IfErr result (λ fault. fault ≡ Memory) }
{
    let Some(count) = row.len().checked_mul(across as usize) else {
        return Err(ToolFault::Memory);
    };
    // The buffer is allocated at full length, so that no store has to grow it.
    let mut enlarged = Vec::from_elem(alloc, T::default(), count)?;
    repeat_into(across, shape, row, enlarged.as_mut_slice());
    Ok(enlarged)
}

/// Fills the buffer with the row, each pixel `across` times, by the loop for this factor and depth.
fn repeat_into<T: Copy>(across: u32, shape: Shape, row: &[T], buffer: &mut [T])
    requires row { length row.now ≡ row_length shape }
    requires buffer { length buffer.old ≡ length row.now * across }
    ensures { buffer.new ≡ enlarged_row across shape row.now }
{
    match (across, shape.depth) {
        (2, 1) => double_samples(shape, row, buffer),
        (2, 3) => double_colors(shape, row, buffer),
        (_, 1) => repeat_samples(across, shape, row, buffer),
        (_, 3) => repeat_colors(across, shape, row, buffer),
        (_, depth) if depth >= 16 => repeat_wide(across, shape, row, buffer),
        _ => repeat_each(across, shape, row, buffer),
    }
}

/// Fills the buffer with the row, each pixel twice. A pixel is one sample.
fn double_samples<T: Copy>(shape: Shape, row: &[T], buffer: &mut [T])
    requires depth { shape.depth ≡ 1 }
    requires row { length row.now ≡ row_length shape }
    requires buffer { length buffer.old ≡ length row.now * 2 }
    ensures { buffer.new ≡ enlarged_row 2 shape row.now }
{
    for i in 0..row.len() {
        let sample = row[i];
        buffer[2 * i] = sample;
        buffer[2 * i + 1] = sample;
    }
}

/// Fills the buffer with the row, each pixel twice. A pixel is three samples.
fn double_colors<T: Copy>(shape: Shape, row: &[T], buffer: &mut [T])
    requires depth { shape.depth ≡ 3 }
    requires row { length row.now ≡ row_length shape }
    requires buffer { length buffer.old ≡ length row.now * 2 }
    ensures { buffer.new ≡ enlarged_row 2 shape row.now }
{
    let width = shape.width as usize;
    let fours = width / 4;
    for x in 0..fours {
        double_four_colors(&row[12 * x..12 * x + 12], &mut buffer[24 * x..24 * x + 24]);
    }
    for x in 4 * fours..width {
        put_twice(buffer, 6 * x, color_at(row, 3 * x));
    }
}

/// Stores four pixels of three samples, each twice. Reads all samples first, so that the compiler moves them side by
/// side.
fn double_four_colors<T: Copy>(row: &[T], buffer: &mut [T])
    requires row { length row.now ≡ 12 }
    requires buffer { length buffer.old ≡ 24 }
    ensures { buffer.new ≡ flat_map (λ x. copies_of 2 (pixel_of 3 row.now x)) (range_with_len 0 4) }
{
    let (first, second) = (color_at(row, 0), color_at(row, 3));
    let (third, fourth) = (color_at(row, 6), color_at(row, 9));
    put_twice(buffer, 0, first);
    put_twice(buffer, 6, second);
    put_twice(buffer, 12, third);
    put_twice(buffer, 18, fourth);
}

/// Stores three samples twice, from `at` on.
#[inline(always)]
fn put_twice<T: Copy>(buffer: &mut [T], at: usize, color: (T, T, T))
    requires { at + 6 ≤ length buffer.old }
    ensures long { length buffer.new ≡ length buffer.old }
    ensures stored { take (at + 6) buffer.new
        ≡ take at buffer.old ++ copies_of 2 (color.0 ∷ color.1 ∷ color.2 ∷ []) }
{
    let (a, b, c) = color;
    store(buffer, at, &[a, b, c, a, b, c]);
}

/// Fills the buffer with the row, each pixel `across` times. A pixel is one sample.
fn repeat_samples<T: Copy>(across: u32, shape: Shape, row: &[T], buffer: &mut [T])
    requires depth { shape.depth ≡ 1 }
    requires row { length row.now ≡ row_length shape }
    requires buffer { length buffer.old ≡ length row.now * across }
    ensures { buffer.new ≡ enlarged_row across shape row.now }
{
    let across = across as usize;
    for i in 0..row.len() {
        put_copies(buffer, i * across, across, row[i]);
    }
}

/// Stores a sample `count` times, from `at` on. Stores sixteen at once if there is room for them, since the samples
/// behind the last copy are stored later.
fn put_copies<T: Copy>(buffer: &mut [T], at: usize, count: usize, sample: T)
    requires { at + count ≤ length buffer.old }
    ensures long { length buffer.new ≡ length buffer.old }
    ensures stored { take (at + count) buffer.new ≡ take at buffer.old ++ replicate count sample }
{
    let end = at + count;
    let mut place = at;
    while place < end {
        if buffer.len() - place >= 16 {
            buffer[place..place + 16].copy_from_slice(&[sample; 16]);
            place += 16;
        } else {
            buffer[place] = sample;
            place += 1;
        }
    }
}

/// Fills the buffer with the row, each pixel `across` times. A pixel is three samples.
fn repeat_colors<T: Copy>(across: u32, shape: Shape, row: &[T], buffer: &mut [T])
    requires depth { shape.depth ≡ 3 }
    requires row { length row.now ≡ row_length shape }
    requires buffer { length buffer.old ≡ length row.now * across }
    ensures { buffer.new ≡ enlarged_row across shape row.now }
{
    let (width, across) = (shape.width as usize, across as usize);
    for x in 0..width {
        put_colors(buffer, 3 * x * across, across, color_at(row, 3 * x));
    }
}

/// Stores three samples `count` times, from `at` on, as `put_copies` stores one.
fn put_colors<T: Copy>(buffer: &mut [T], at: usize, count: usize, color: (T, T, T))
    requires { at + 3 * count ≤ length buffer.old }
    ensures long { length buffer.new ≡ length buffer.old }
    ensures stored { take (at + 3 * count) buffer.new
        ≡ take at buffer.old ++ copies_of count (color.0 ∷ color.1 ∷ color.2 ∷ []) }
{
    let (a, b, c) = color;
    let mut stored = 0;
    while stored < count {
        let place = at + 3 * stored;
        if buffer.len() - place >= 15 {
            let five = [a, b, c, a, b, c, a, b, c, a, b, c, a, b, c];
            store(buffer, place, &five);
            stored += 5;
        } else {
            store(buffer, place, &[a, b, c]);
            stored += 1;
        }
    }
}

/// Fills the buffer with the row, each pixel `across` times.
fn repeat_each<T: Copy>(across: u32, shape: Shape, row: &[T], buffer: &mut [T])
    requires row { length row.now ≡ row_length shape }
    requires buffer { length buffer.old ≡ length row.now * across }
    ensures { buffer.new ≡ enlarged_row across shape row.now }
{
    let (width, depth) = (shape.width as usize, shape.depth as usize);
    let mut at = 0;
    for x in 0..width {
        let pixel = &row[x * depth..(x + 1) * depth];
        for _ in 0..across {
            for p in 0..depth {
                buffer[at + p] = pixel[p];
            }
            at += depth;
        }
    }
}

/// Fills the buffer with the row, each pixel `across` times. A pixel is many samples.
fn repeat_wide<T: Copy>(across: u32, shape: Shape, row: &[T], buffer: &mut [T])
    requires row { length row.now ≡ row_length shape }
    requires buffer { length buffer.old ≡ length row.now * across }
    ensures { buffer.new ≡ enlarged_row across shape row.now }
{
    let (width, depth) = (shape.width as usize, shape.depth as usize);
    let mut at = 0;
    for x in 0..width {
        let pixel = &row[x * depth..(x + 1) * depth];
        for _ in 0..across {
            store(buffer, at, pixel);
            at += depth;
        }
    }
}
