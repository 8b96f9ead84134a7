//! `pamchannel`: planes of the image, in the order in which they are named, from pamchannel(1).

ghost use Rattle.std.specs.Prelude.{◌≡◌, ◌<◌, ◌≤◌, ◌↔◌, ◌⊎◌, ◌+◌, ◌*◌, All, IsTrue, OnOk, IfOk, IfErr, Ok, Err, length};
ghost use Rattle.std.specs.Prelude.{map, slice_index_or, []};
ghost use Rattle.std.specs.List.{AllByRecursion, range_with_len};
ghost use Rattle.pnm_image.specs.Places.{IsRowOf};
ghost use Rattle.pnm_tools.specs.declared.fault.ToolFault.TheVariants.{Memory};
ghost use Rattle.pnm_tools.specs.declared.tool.Tool.TheVariants.{Channel};
ghost use Rattle.pnm_tools.specs.Channel.{picked_row, IsLawfulPick, HasPlanes};
ghost use Rattle.pnm_tools.specs.Internal.Channel.{picked_or};
ghost use Rattle.pnm_tools.specs.Tools.{TakesHead, result_head};
ghost use Rattle.pnm_row_tools.specs.Internal.RowKeeping.{as_wide};

use crate::row_tool::RowTool;
use pnm_image::{Head, Kind, RowSlice, RowVec, Rows, Shape};
use pnm_tools::{Planes, ToolFault, head_within_limits};
use std::alloc::{AllocError, Global};

/// Picks planes of rows of an image of this shape, for all pixels at once. The result has the width of the rows, but
/// bits become bytes.
///
/// # Errors
///
/// If there is no memory for them.
fn pick_planes(
    alloc: Global,
    planes: &Planes,
    shape: Shape,
    rows: &Rows,
) -> Result<Rows, AllocError>
    requires lawful { IsLawfulPick planes.now }
    requires planes { HasPlanes planes.now shape }
    requires rows { AllByRecursion (IsRowOf shape) rows.now }
    ensures { IfOk result (λ picked. picked ≡ map (picked_row planes.now shape) rows.now) }
{
    let (numbers, count, width) = (planes.numbers(), rows.count(), shape.width as usize);
    let pixels = count as usize * width;
    let held = match rows.as_slice() {
        RowSlice::Bits(bits) => {
            let unpacked = bits.to_bytes(alloc)?;
            let picked = pick(alloc, numbers, shape, pixels, unpacked.as_slice())?;
            RowVec::Bytes(picked)
        }
        RowSlice::Bytes(bytes) => {
            let picked = pick(alloc, numbers, shape, pixels, bytes)?;
            RowVec::Bytes(picked)
        }
        RowSlice::Words(words) => {
            let picked = pick(alloc, numbers, shape, pixels, words)?;
            RowVec::Words(picked)
        }
    };
    Ok(Rows::new(held, shape.maxval, count, width * numbers.len()))
}

/// Returns the samples of the planes `numbers` of `pixels` pixels of an image of this shape.
///
/// # Errors
///
/// If there is no memory for them.
fn pick<T: Copy + Default>(
    alloc: Global,
    numbers: &[u16],
    shape: Shape,
    pixels: usize,
    samples: &[T],
) -> Result<Vec<T>, AllocError>
    requires numbers { All (λ number. number < shape.depth) numbers.now }
    requires pixels { length samples.now ≡ pixels * shape.depth }
    ensures { IfOk result
        (λ picked. (past : T) → picked.items ≡ picked_or past numbers.now (as_wide pixels shape) samples.now) }
{
    let (depth, count) = (shape.depth as usize, numbers.len());
    let Some(size) = pixels.checked_mul(count) else {
        return Err(AllocError);
    };
    let mut picked = Vec::from_elem(alloc, T::default(), size)?;
    let buffer = picked.as_mut_slice();
    if count == 1 {
        pick_plane(buffer, numbers[0] as usize, samples, depth);
        return Ok(picked);
    }
    for x in 0..pixels {
        pick_pixel(
            &mut buffer[x * count..(x + 1) * count],
            numbers,
            samples,
            x * depth,
        );
    }
    Ok(picked)
}

/// Fills the buffer with the samples of plane `number`, one for each pixel, without a loop over a pixel's planes.
fn pick_plane<T: Copy>(buffer: &mut [T], number: usize, samples: &[T], depth: usize)
    requires number { number < depth }
    requires pixels { length samples.now ≡ length buffer.old * depth }
    ensures { (past : T) → buffer.new
        ≡ map (λ x. slice_index_or samples.now (x * depth + number) past)
        (range_with_len 0 (length buffer.old)) }
{
    for x in 0..buffer.len() {
        buffer[x] = samples[x * depth + number];
    }
}

/// Fills the buffer with the samples of the planes `numbers` of the pixel whose samples begin at `first`.
fn pick_pixel<T: Copy>(buffer: &mut [T], numbers: &[u16], row: &[T], first: usize)
    requires buffer { length buffer.old ≡ length numbers.now }
    requires numbers { All (λ number. first + number < length row.now) numbers.now }
    ensures { (past : T) → buffer.new ≡ map (λ number. slice_index_or row.now (first + number) past) numbers.now }
{
    for at in 0..buffer.len() {
        buffer[at] = row[first + numbers[at] as usize];
    }
}

impl RowTool for Planes {
    ghost tool = { λ planes. Channel planes };

    ghost ready = { HasPlanes };

    ghost nothing_at_end = { λ _ _ _ _ _. [] };

    fn begin(&mut self, alloc: Global, head: &Head) -> Result<Head, ToolFault> {
        picked_head(alloc, self, head)
    }

    /// Makes new rows.
    fn rows(
        &self,
        alloc: Global,
        shape: Shape,
        _y: u32,
        rows: Rows,
    ) -> Result<Option<Rows>, ToolFault> {
        let picked = pick_planes(alloc, self, shape, &rows)?;
        Ok(Some(picked))
    }
}

/// Returns the head of the image of these planes, as pamchannel(1) has it: PAM with one plane for each number, and with
/// the tuple type of `planes`.
///
/// # Errors
///
/// `ChannelOutside` if the image lacks one of the planes; otherwise as `head_within_limits`.
pub fn picked_head(alloc: Global, planes: &Planes, head: &Head) -> Result<Head, ToolFault>
    requires { IsLawfulPick planes.now }
    ensures made { IfOk result (λ made. result_head (Channel planes.now) head.now ≡ Ok made) }
    ensures planes { OnOk result (HasPlanes planes.now head.now.shape) }
    ensures refused { IfErr result (λ fault. (result_head (Channel planes.now) head.now ≡ Err fault)
        ⊎ ((fault ≡ Memory) × TakesHead (Channel planes.now) head.now)) }
{
    let shape = head.shape();
    let numbers = planes.numbers();
    if !are_below(numbers, shape.depth) {
        return Err(ToolFault::ChannelOutside);
    }
    let picked = Shape {
        kind: Kind::Pam,
        depth: numbers.len() as u32,
        ..shape
    };
    head_within_limits(alloc, picked, planes.tuple_type())
}

/// Returns true if the number of each plane is below the depth.
fn are_below(numbers: &[u16], depth: u32) -> bool
    ensures { IsTrue result ↔ All (λ number. number < depth) numbers.now }
{
    numbers.iter().all(|number| u32::from(*number) < depth)
}
