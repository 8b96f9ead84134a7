//! A row of pixels of one bit, packed as in a file.

ghost use Rattle.std.specs.Prelude.{◌≡◌, ℕ, ◌+◌, ◌-◌, ◌*◌, ◌/◌, ◌%◌, ◌^◌, ◌<◌, ◌≤◌, List, [], ◌++◌, length, take};
ghost use Rattle.std.specs.Prelude.{drop, map, replicate, OnOk, OnErr, IfOk, IsTrue, ◌↔◌, All, slice_index};
ghost use Rattle.pnm_samples.specs.Pixels.{pixel_at, pixels, all_pixels, ArePacked, packed_bytes};
ghost use Rattle.pnm_samples.specs.Internal.Pixels.{AreBytes};

use crate::bit_rows::rows_to_samples;
use crate::widths::bytes_to_words;
use std::alloc::{AllocError, Global};
use std::marker::Model;

mod mirror;
mod repeat;
mod stretch;

pub(crate) use mirror::{move_to_end, turn_round};

/// Pixels of one bit, eight to a byte, the most significant bit leftmost. A bit of 1 is black, which is sample 0.
#[derive(Debug, Drop)]
pub struct Bits {
    bytes: Vec<u8>,
    count: usize,
}

impl Model for Bits {
    ghost use Rattle.std.specs.Prelude.{List, ℕ, take};
    ghost use Rattle.pnm_samples.specs.Pixels.{all_pixels, ArePacked};

    ghost Value = { List ℕ };

    ghost view = { λ b. take b.count (all_pixels b.bytes.items) };

    ghost invariant = { λ b. ArePacked b.count b.bytes.items };
}

impl Bits {
    /// Creates a row of the first `count` pixels of the bytes, or of all if there are fewer, without a copy. Clears the
    /// spare bits of the last byte.
    pub fn new(bytes: Vec<u8>, count: usize) -> Bits
        ensures { result ≡ take count (all_pixels bytes.items) }
    {
        let mut bytes = bytes;
        let count = count.min(bytes.len().saturating_mul(8));
        bytes.truncate(count.div_ceil(8));
        clear_spare(bytes.as_mut_slice(), count);
        Bits { bytes, count }
    }

    /// Creates a row of no pixels.
    pub fn empty(alloc: Global) -> Bits
        ensures { result ≡ [] }
    {
        Bits {
            bytes: Vec::new(alloc),
            count: 0,
        }
    }

    /// Copies the pixels.
    ///
    /// # Errors
    ///
    /// If there is no memory for them.
    pub fn copy(&self, alloc: Global) -> Result<Bits, AllocError>
        ensures { IfOk result (λ copy. copy ≡ self.now) }
    {
        Ok(Bits {
            bytes: Vec::from_slice(alloc, self.bytes.as_slice())?,
            count: self.count,
        })
    }

    /// Returns the number of pixels.
    pub fn len(&self) -> usize
        ensures { result ≡ length self.now }
    {
        self.count
    }

    /// Returns the bytes of the pixels, with white spare bits.
    pub fn as_bytes(&self) -> &[u8]
        ensures bytes { result.now ≡ packed_bytes self.now }
        ensures count { length result.now ≡ (length self.now + 7) / 8 }
        ensures pixels { self.now ≡ take (length self.now) (all_pixels result.now) }
        ensures packed { ArePacked (length self.now) result.now }
    {
        bytes_of(self.bytes.as_slice())
    }

    /// Returns the bytes of the pixels, with white spare bits, without a copy.
    pub fn into_bytes(self) -> Vec<u8>
        ensures bytes { result.items ≡ packed_bytes self }
        ensures packed { ArePacked (length self) result.items }
        ensures pixels { self ≡ take (length self) (all_pixels result.items) }
    {
        let bytes = self.bytes;
        // No effect at run time: a proof learns from this that each byte is below 256.
        let _ = bytes_of(bytes.as_slice());
        bytes
    }

    /// Returns the pixel at place `at`.
    pub fn pixel(&self, at: usize) -> u16
        requires { at < length self.now }
        ensures { result ≡ slice_index self.now at }
    {
        pixel_of(self.bytes.as_slice(), at)
    }

    /// Returns the greatest number that a pixel can be.
    pub(crate) fn bound(&self) -> u32
        ensures white { result ≡ 1 }
        ensures within { All (λ sample. sample ≤ result) self.now }
    {
        // No effect at run time: a proof learns from this that the pixels are those of the bytes.
        let _ = &self.bytes;
        1
    }

    /// Returns the pixels as samples held in words.
    ///
    /// # Errors
    ///
    /// If there is no memory for them.
    pub fn to_words(&self, alloc: Global) -> Result<Vec<u16>, AllocError>
        ensures { IfOk result (λ words. words.items ≡ self.now) }
    {
        bytes_to_words(alloc, self.to_bytes(alloc)?.as_slice())
    }

    /// Returns the pixels as samples, a byte each.
    ///
    /// # Errors
    ///
    /// If there is no memory for them.
    pub fn to_bytes(&self, alloc: Global) -> Result<Vec<u8>, AllocError>
        ensures { IfOk result (λ bytes. bytes.items ≡ self.now) }
    {
        rows_to_samples(alloc, self.bytes.as_slice(), 1, self.count)
    }

    /// Exchanges black and white, in place.
    pub fn invert(&mut self)
        ensures { self.new ≡ map (λ s. 1 - s) self.old }
    {
        let bytes = self.bytes.as_mut_slice();
        complement(bytes);
        clear_spare(bytes, self.count);
    }

    /// Appends `count` pixels of a row, from pixel `start` on.
    ///
    /// # Errors
    ///
    /// If there is no memory for them, or either row has 2^62 pixels or more. Then nothing is changed.
    pub fn append(&mut self, from: &Bits, start: usize, count: usize) -> Result<(), AllocError>
        requires { start + count ≤ length from.now }
        ensures appended { OnOk result (self.new ≡ self.old ++ take count (drop start from.now)) }
        ensures failed { OnErr result (self.new ≡ self.old) }
    {
        self.append_pixels(from.bytes.as_slice(), start, count)
    }

    /// Appends `count` pixels of the bytes, from pixel `start` on.
    ///
    /// # Errors
    ///
    /// As `append`.
    pub fn append_pixels(
        &mut self,
        from: &[u8],
        start: usize,
        count: usize,
    ) -> Result<(), AllocError>
        requires { start + count ≤ 8 * length from.now }
        ensures appended { OnOk result (self.new ≡ self.old ++ take count (drop start (all_pixels from.now))) }
        ensures failed { OnErr result (self.new ≡ self.old) }
    {
        let held = self.count;
        if held >= PIXELS_BEYOND_MEMORY || from.len() >= PIXELS_BEYOND_MEMORY / 8 {
            return Err(AllocError);
        }
        self.bytes.resize((held + count).div_ceil(8), 0)?;
        place_run(self.bytes.as_mut_slice(), held, from, start, count);
        clear_spare(self.bytes.as_mut_slice(), held + count);
        self.count = held + count;
        Ok(())
    }

    /// Removes all pixels, and keeps their memory.
    pub fn clear(&mut self)
        ensures { self.new ≡ [] }
    {
        self.bytes.clear();
        self.count = 0;
    }
}

/// Returns the pixel of the bytes at place `at`.
pub(crate) fn pixel_of(bytes: &[u8], at: usize) -> u16
    requires { at < 8 * length bytes.now }
    ensures { result ≡ slice_index (all_pixels bytes.now) at }
{
    u16::from(pixel_at((7 - at % 8) as u32, bytes[at / 8]))
}

/// Returns whether the first `count` pixels of the bytes, or all if there are fewer, are black.
pub(crate) fn are_black(bytes: &[u8], count: usize) -> bool
    ensures { IsTrue result ↔ All (λ sample. sample ≤ 0) (take count (all_pixels bytes.now)) }
{
    for at in 0..count {
        if at / 8 >= bytes.len() {
            return true;
        }
        if pixel_of(bytes, at) > 0 {
            return false;
        }
    }
    true
}

/// More pixels than there is memory for.
const PIXELS_BEYOND_MEMORY: usize = 4_611_686_018_427_387_904;

/// Returns the same bytes. A proof learns from the call that each one is below 256.
pub(crate) fn bytes_of(bytes: &[u8]) -> &[u8]
    ensures same { result.now ≡ bytes.now }
    ensures fit { AreBytes result.now }
{
    bytes
}

/// Stores the pixels of a byte as samples.
#[tactic(auto, unfolding(crate::specs::Pixels::pixels))]
pub(crate) fn store_pixels(samples: &mut [u8], byte: u8)
    requires { length samples.old ≡ 8 }
    ensures { samples.new ≡ pixels byte }
{
    samples[0] = pixel_at(7, byte);
    samples[1] = pixel_at(6, byte);
    samples[2] = pixel_at(5, byte);
    samples[3] = pixel_at(4, byte);
    samples[4] = pixel_at(3, byte);
    samples[5] = pixel_at(2, byte);
    samples[6] = pixel_at(1, byte);
    samples[7] = pixel_at(0, byte);
}

/// Returns the pixel in a bit of a byte, the bit counted from the right.
fn pixel_at(bit: u32, byte: u8) -> u8
    requires { bit < 8 }
    ensures { result ≡ pixel_at bit byte }
{
    u8::from((byte >> bit) & 1 == 0)
}

/// Exchanges black and white.
pub(crate) fn complement(bytes: &mut [u8])
    ensures { all_pixels bytes.new ≡ map (λ s. 1 - s) (all_pixels bytes.old) }
{
    for byte in bytes.iter_mut() {
        *byte = !*byte;
    }
}

/// Returns the eight pixels of two bytes that follow the first `skipped`.
#[inline]
fn window(high: u8, low: u8, skipped: u32) -> u8
    requires { skipped < 8 }
    ensures { pixels result ≡ drop skipped (pixels high) ++ take skipped (pixels low) }
{
    let both = u16::from(high) * 256 + u16::from(low);
    ((both >> (8 - skipped)) % 256) as u8
}

/// Returns the byte with all pixels white but the first `kept`.
#[inline]
fn whiten_spare(byte: u8, kept: u32) -> u8
    requires { kept < 8 }
    ensures { pixels result ≡ take kept (pixels byte) ++ replicate (8 - kept) 1 }
{
    byte & !(0xff >> kept)
}

/// Makes the pixels after the first `count` white.
pub(crate) fn clear_spare(bytes: &mut [u8], count: usize)
    requires { length bytes.old ≡ (count + 7) / 8 }
    ensures kept { take count (all_pixels bytes.new) ≡ take count (all_pixels bytes.old) }
    ensures spare { ArePacked count bytes.new }
{
    let whole = count / 8;
    if whole < bytes.len() {
        bytes[whole] = whiten_spare(bytes[whole], (count % 8) as u32);
    }
}

/// Fills the buffer with the pixels of `part` behind the first `skipped`. `part` is a byte longer. If this were inlined
/// where both are of one slice, it would shift one byte at a time.
#[inline(never)]
fn shift_into(buffer: &mut [u8], part: &[u8], skipped: u32)
    requires skipped { skipped < 8 }
    requires part { length part.now ≡ length buffer.old + 1 }
    ensures { all_pixels buffer.new ≡ take (8 * length buffer.old) (drop skipped (all_pixels part.now)) }
{
    for i in 0..buffer.len() {
        buffer[i] = window(part[i], part[i + 1], skipped);
    }
}

/// Returns the byte of the pixels that follow the first `skipped`. Pixels past the end are white.
#[inline]
fn byte_after(bytes: &[u8], skipped: usize) -> u8
    requires { skipped < 8 * length bytes.now }
    ensures { (n : ℕ) → n ≤ 8 → skipped + n ≤ 8 * length bytes.now
        → take n (pixels result) ≡ take n (drop skipped (all_pixels bytes.now)) }
{
    let at = skipped / 8;
    let low = if at + 1 < bytes.len() {
        bytes[at + 1]
    } else {
        0
    };
    window(bytes[at], low, (skipped % 8) as u32)
}

/// Fills the buffer with the pixels from `start` on.
fn fill_whole(buffer: &mut [u8], from: &[u8], start: usize)
    requires { start + 8 * length buffer.old ≤ 8 * length from.now }
    ensures { all_pixels buffer.new ≡ take (8 * length buffer.old) (drop start (all_pixels from.now)) }
{
    let first = start / 8;
    if start % 8 == 0 {
        buffer.copy_from_slice(&from[first..first + buffer.len()]);
    } else {
        let part = &from[first..first + buffer.len() + 1];
        shift_into(buffer, part, (start % 8) as u32);
    }
}

/// Fills the buffer with `count` pixels, from pixel `start` on.
#[inline]
pub(crate) fn fill_run(buffer: &mut [u8], from: &[u8], start: usize, count: usize)
    requires buffer { length buffer.old ≡ (count + 7) / 8 }
    requires run { start + count ≤ 8 * length from.now }
    requires fits { start + count < 2 ^ 64 }
    ensures { take count (all_pixels buffer.new) ≡ take count (drop start (all_pixels from.now)) }
{
    let whole = count / 8;
    fill_whole(&mut buffer[..whole], from, start);
    if whole < buffer.len() {
        buffer[whole] = byte_after(from, start + 8 * whole);
    }
}

/// Places `count` pixels, from pixel `start` on, after the first `held` pixels of the buffer, which end within a byte.
fn place_within(buffer: &mut [u8], held: usize, from: &[u8], start: usize, count: usize)
    requires within { (0 < held % 8) × (0 < count) }
    requires buffer { length buffer.old ≡ (held + count + 7) / 8 }
    requires run { start + count ≤ 8 * length from.now }
    requires fits { (start + count < 2 ^ 63) × (held < 2 ^ 63) }
    ensures { take (held + count) (all_pixels buffer.new) ≡ take held (all_pixels buffer.old) ++ take count
        (drop start (all_pixels from.now)) }
{
    let last = held / 8;
    let free = 8 - held % 8;
    buffer[last] = window(buffer[last] >> free, byte_after(from, start), free as u32);
    if free < count {
        fill_run(&mut buffer[last + 1..], from, start + free, count - free);
    }
}

/// Places `count` pixels, from pixel `start` on, after the first `held` pixels of the buffer.
fn place_run(buffer: &mut [u8], held: usize, from: &[u8], start: usize, count: usize)
    requires buffer { length buffer.old ≡ (held + count + 7) / 8 }
    requires run { start + count ≤ 8 * length from.now }
    requires fits { (start + count < 2 ^ 63) × (held < 2 ^ 63) }
    ensures { take (held + count) (all_pixels buffer.new) ≡ take held (all_pixels buffer.old) ++ take count
        (drop start (all_pixels from.now)) }
{
    if held % 8 == 0 {
        fill_run(&mut buffer[held / 8..], from, start, count);
    } else if count > 0 {
        place_within(buffer, held, from, start, count);
    }
}
