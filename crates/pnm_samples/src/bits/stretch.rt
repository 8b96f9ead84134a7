//! Pixels repeated any number of times.

ghost use Rattle.std.specs.Prelude.{◌≡◌, ◌+◌, ◌-◌, ◌*◌, ◌/◌, ◌%◌, ◌^◌, ◌<◌, ◌≤◌, ◌++◌, length, take};
ghost use Rattle.std.specs.Prelude.{replicate, bit_or, IfOk, OnOk};
ghost use Rattle.std.specs.List.{flat_map};
ghost use lib.Lanes.{zip2};
ghost use Rattle.pnm_samples.specs.Pixels.{pixels, all_pixels};
ghost use Rattle.pnm_samples.specs.Internal.Stretches.{AreStretched, stride};

use super::{Bits, pixel_at, window};
use std::alloc::{AllocError, Global};
use std::simd::prelude::*;

/// More times than there is memory for.
const MOST_TIMES: usize = 72_057_594_037_927_936;

/// How many half bytes are stretched in advance, if any are. A row of fewer bytes takes less work without that.
const HALVES: usize = 32;

impl Bits {
    /// The row with each pixel repeated `times` times. Each byte becomes `times` whole bytes: in a long row, those of
    /// its left half and those of its right half, laid over each other.
    pub(super) fn stretch_pixels(&self, alloc: Global, times: usize) -> Result<Bits, AllocError>
        ensures { IfOk result (λ bits. bits ≡ flat_map (λ s. replicate times s) self.now) }
    {
        let (Some(count), Some(filled)) = (
            self.count.checked_mul(times),
            self.bytes.len().checked_mul(times),
        ) else {
            return Err(AllocError);
        };
        // What is written for the last byte reaches up to 15 bytes further.
        let Some(buffer) = filled.checked_add(15) else {
            return Err(AllocError);
        };
        if times >= MOST_TIMES {
            return Err(AllocError);
        }
        let mut bytes = Vec::from_elem(alloc, 0, buffer)?;
        fill(alloc, bytes.as_mut_slice(), self.bytes.as_slice(), times)?;
        Ok(Bits::new(bytes, count))
    }
}

/// Fills the white buffer with the pixels of the bytes, each `times` times. The rest of the buffer is unspecified.
fn fill(alloc: Global, buffer: &mut [u8], bytes: &[u8], times: usize) -> Result<(), AllocError>
    requires times { times < 2 ^ 56 }
    requires buffer { length buffer.old ≡ length bytes.now * times + 15 }
    requires white { buffer.old ≡ replicate (length buffer.old) 0 }
    ensures { OnOk result (take (8 * (length bytes.now * times)) (all_pixels buffer.new)
        ≡ flat_map (λ s. replicate times s) (all_pixels bytes.now)) }
{
    if bytes.len() < HALVES {
        stretch_each(buffer, bytes, times);
        return Ok(());
    }
    let left = stretched_halves(alloc, times, 16)?;
    let right = stretched_halves(alloc, times, 1)?;
    fill_stretched(buffer, bytes, left.as_slice(), right.as_slice(), times);
    Ok(())
}

/// Fills the white buffer byte by byte with the pixels of the bytes, each `times` times.
fn stretch_each(buffer: &mut [u8], bytes: &[u8], times: usize)
    requires times { times < 2 ^ 56 }
    requires buffer { length buffer.old ≡ length bytes.now * times + 15 }
    requires white { buffer.old ≡ replicate (length buffer.old) 0 }
    ensures { take (8 * (length bytes.now * times)) (all_pixels buffer.new)
        ≡ flat_map (λ s. replicate times s) (all_pixels bytes.now) }
{
    for i in 0..bytes.len() {
        let at = i * times;
        stretch(&mut buffer[at..at + times], bytes[i], times);
    }
}

/// How many bytes hold a stretched byte: `times`, rounded up to a multiple of 16.
fn stride_of(times: usize) -> usize
    requires { times < 2 ^ 56 }
    ensures enough { times ≤ result }
    ensures most { result ≤ times + 15 }
    ensures whole { result ≡ stride times }
{
    times.div_ceil(16) * 16
}

/// The sixteen multiples of `unit` from 0 on, stretched, each at its multiple of the stride. The bytes between them are
/// unspecified.
fn stretched_halves(alloc: Global, times: usize, unit: u8) -> Result<Vec<u8>, AllocError>
    requires times { times < 2 ^ 56 }
    requires unit { unit ≤ 16 }
    ensures { IfOk result (λ bytes. AreStretched times unit 16 bytes.items) }
{
    let stride = stride_of(times);
    let mut bytes = Vec::with_capacity(alloc, 16 * stride)?;
    for half in 0..16u8 {
        let at = half as usize * stride;
        bytes.resize(at + stride, 0)?;
        stretch(&mut bytes.as_mut_slice()[at..], half * unit, times);
    }
    Ok(bytes)
}

/// Fills the white buffer with the pixels of a byte, each `times` times, and the last one up to the end.
fn stretch(buffer: &mut [u8], byte: u8, times: usize)
    requires times { times < 2 ^ 56 }
    requires buffer { times ≤ length buffer.old }
    requires white { buffer.old ≡ replicate (length buffer.old) 0 }
    ensures { take (8 * times) (all_pixels buffer.new)
        ≡ flat_map (λ s. replicate times s) (pixels byte) }
{
    let mut held = 1;
    for i in 0..8usize {
        let pixel = pixel_at(7 - i as u32, byte);
        paint(buffer, i * times, held, pixel);
        held = pixel;
    }
}

/// Sets all pixels after the first `kept` to `pixel`. Before, each of them is `held`.
#[inline]
fn paint(buffer: &mut [u8], kept: usize, held: u8, pixel: u8)
    requires buffer { kept ≤ 8 * length buffer.old }
    requires held { all_pixels buffer.old
        ≡ take kept (all_pixels buffer.old) ++ replicate (8 * length buffer.old - kept) held }
    requires pixel { pixel ≤ 1 }
    ensures { all_pixels buffer.new
        ≡ take kept (all_pixels buffer.old) ++ replicate (8 * length buffer.old - kept) pixel }
{
    if pixel != held {
        paint_from(buffer, kept, pixel);
    }
}

/// Sets all pixels after the first `kept` to `pixel`.
fn paint_from(buffer: &mut [u8], kept: usize, pixel: u8)
    requires buffer { kept ≤ 8 * length buffer.old }
    requires pixel { pixel ≤ 1 }
    ensures { all_pixels buffer.new
        ≡ take kept (all_pixels buffer.old) ++ replicate (8 * length buffer.old - kept) pixel }
{
    let byte = plain_byte(pixel);
    let whole = kept / 8;
    let used = kept % 8;
    if used == 0 {
        buffer[whole..].fill(byte);
    } else {
        let free = 8 - used;
        buffer[whole] = window(buffer[whole] >> free, byte, free as u32);
        buffer[whole + 1..].fill(byte);
    }
}

/// The byte of eight pixels, each of them `pixel`.
fn plain_byte(pixel: u8) -> u8
    requires { pixel ≤ 1 }
    ensures { pixels result ≡ replicate 8 pixel }
{
    if pixel == 0 { 0xff } else { 0 }
}

/// Fills the buffer with the pixels of the bytes, each `times` times. The rest of the buffer is unspecified.
fn fill_stretched(buffer: &mut [u8], bytes: &[u8], left: &[u8], right: &[u8], times: usize)
    requires times { times < 2 ^ 56 }
    requires buffer { length buffer.old ≡ length bytes.now * times + 15 }
    requires left { AreStretched times 16 16 left.now }
    requires right { AreStretched times 1 16 right.now }
    ensures { take (8 * (length bytes.now * times)) (all_pixels buffer.new)
        ≡ flat_map (λ s. replicate times s) (all_pixels bytes.now) }
{
    let stride = stride_of(times);
    for i in 0..bytes.len() {
        let high = (bytes[i] / 16) as usize * stride;
        let low = (bytes[i] % 16) as usize * stride;
        let at = i * times;
        overlay(
            &mut buffer[at..at + stride],
            &left[high..high + stride],
            &right[low..low + stride],
        );
    }
}

/// Fills the buffer with two pictures, one over the other, sixteen bytes at a time.
#[inline]
fn overlay(buffer: &mut [u8], left: &[u8], right: &[u8])
    requires whole { length buffer.old % 16 ≡ 0 }
    requires left { length left.now ≡ length buffer.old }
    requires right { length right.now ≡ length buffer.old }
    ensures { buffer.new ≡ zip2 bit_or left.now right.now }
{
    if buffer.len() == 16 {
        overlay_sixteen(buffer, left, right);
        return;
    }
    for i in 0..buffer.len() / 16 {
        let at = 16 * i;
        overlay_sixteen(
            &mut buffer[at..at + 16],
            &left[at..at + 16],
            &right[at..at + 16],
        );
    }
}

/// Sixteen bytes of both, as one vector.
#[inline]
fn overlay_sixteen(buffer: &mut [u8], left: &[u8], right: &[u8])
    requires buffer { length buffer.old ≡ 16 }
    requires left { length left.now ≡ 16 }
    requires right { length right.now ≡ 16 }
    ensures { buffer.new ≡ zip2 bit_or left.now right.now }
{
    let both = u8x16::from_slice(left) | u8x16::from_slice(right);
    both.copy_to_slice(buffer);
}
