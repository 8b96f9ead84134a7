//! The samples of a row.

ghost use Rattle.std.specs.Prelude.{◌≡◌, ◌≤◌, ◌↔◌, ◌+◌, ◌<◌, All, IfOk, IsTrue, take, drop, length, slice_index};
ghost use Rattle.pnm_samples.specs.SampleVecs.{HasWhiteSpare, samples_of, slice_samples};

use crate::bits::{Bits, are_black, pixel_of};
use crate::bounds::{GREATEST_BYTE, GREATEST_WORD, are_bytes_within, are_words_within};
use crate::packing::pack;
use crate::widths::{bytes_to_words, words_to_bytes};
use std::alloc::{AllocError, Global};
use std::marker::Model;

/// The samples of a row, as wide as they have to be.
#[derive(Debug, Drop)]
pub enum SampleVec {
    /// Each is 0 or 1.
    Bits(Bits),
    /// Each is at most 255.
    Bytes(Vec<u8>),
    /// Each is at most 65,535.
    Words(Vec<u16>),
}

/// Borrowed samples, in the width that holds them.
#[derive(Clone, Copy, Debug)]
pub enum SampleSlice<'a> {
    /// Each is 0 or 1: the first pixels of these bytes, and how many there are.
    Bits(&'a [u8], usize),
    /// Each is at most 255.
    Bytes(&'a [u8]),
    /// Each is at most 65,535.
    Words(&'a [u16]),
}

impl SampleVec {
    /// Borrows the samples in the width that holds them.
    pub fn as_slice(&self) -> SampleSlice<'_>
        ensures samples { slice_samples result ≡ samples_of self.now }
        ensures spare { HasWhiteSpare result }
    {
        match self {
            SampleVec::Bits(bits) => SampleSlice::Bits(bits.as_bytes(), bits.len()),
            SampleVec::Bytes(bytes) => SampleSlice::Bytes(bytes.as_slice()),
            SampleVec::Words(words) => SampleSlice::Words(words.as_slice()),
        }
    }
}

impl SampleSlice<'_> {
    /// Returns the sample at a place, counted from 0.
    pub fn sample(self, at: usize) -> u16
        requires { at < length (slice_samples self) }
        ensures { result ≡ slice_index (slice_samples self.entry) at }
    {
        match self {
            SampleSlice::Bits(bytes, _) => pixel_of(bytes, at),
            SampleSlice::Bytes(bytes) => u16::from(bytes[at]),
            SampleSlice::Words(words) => words[at],
        }
    }

    /// Returns whether no sample is above `most`. It looks at no sample if none can be above it.
    pub fn are_within(self, most: u32) -> bool
        ensures { IsTrue result ↔ All (λ sample. sample ≤ most) (slice_samples self.entry) }
    {
        match self {
            SampleSlice::Bits(bytes, count) => most > 0 || are_black(bytes, count),
            SampleSlice::Bytes(bytes) => are_bytes_within(bytes, most),
            SampleSlice::Words(words) => are_words_within(words, most),
        }
    }

    /// Fills the buffer with the samples from `start` on.
    pub fn copy_to(self, start: usize, buffer: &mut [u16])
        requires { start + length buffer.old ≤ length (slice_samples self) }
        ensures { buffer.new ≡ take (length buffer.old) (drop start (slice_samples self.entry)) }
    {
        for i in 0..buffer.len() {
            buffer[i] = self.sample(start + i);
        }
    }
}

/// The samples of a row: columns left to right, and in each column the planes in order. It keeps a bound that no sample
/// is above, so that the samples are compared with the maxval once, and not at each stage.
#[derive(Debug, Drop)]
pub struct Samples {
    held: SampleVec,
    /// No sample is above it.
    bound: u32,
}

impl Model for Samples {
    ghost use Rattle.std.specs.Prelude.{List, ℕ, ◌≤◌, All};
    ghost use Rattle.pnm_samples.specs.SampleVecs.{samples_of};

    ghost Value = { List ℕ };

    ghost view = { λ s. samples_of s.held };

    ghost invariant = { λ s. All (λ sample. sample ≤ s.bound) (samples_of s.held) };
}

impl Samples {
    /// Wraps the samples that the vector holds, without a copy.
    pub fn new(samples: Vec<u16>) -> Samples
        ensures { result ≡ samples.items }
    {
        Samples::from_vec(SampleVec::Words(samples))
    }

    /// Wraps the samples in `held`, without a copy.
    pub fn from_vec(held: SampleVec) -> Samples
        ensures { result ≡ samples_of held }
    {
        let bound = bound_of(&held);
        Samples::within(held, bound)
    }

    /// Wraps the samples in `held`, none of them above `bound`, without a copy. If the bound is within the maxval, a
    /// place looks at no sample of the row.
    pub fn within(held: SampleVec, bound: u32) -> Samples
        requires { All (λ sample. sample ≤ bound) (samples_of held) }
        ensures { result ≡ samples_of held }
    {
        Samples { held, bound }
    }

    /// Returns the samples in the width that holds them, without a copy.
    pub fn into_vec(self) -> SampleVec
        ensures { samples_of result ≡ self }
    {
        self.held
    }

    /// Borrows the samples in the width that holds them.
    pub fn as_slice(&self) -> SampleSlice<'_>
        ensures samples { slice_samples result ≡ self.now }
        ensures spare { HasWhiteSpare result }
    {
        self.held.as_slice()
    }

    /// Returns a number that no sample is above.
    pub fn bound(&self) -> u32
        ensures { All (λ sample. sample ≤ result) self.now }
    {
        // No effect at run time: a proof learns from this that no held sample is above the bound.
        let _ = &self.held;
        self.bound
    }

    /// Returns the number of samples.
    pub fn len(&self) -> usize
        ensures { result ≡ length self.now }
    {
        match &self.held {
            SampleVec::Bits(bits) => bits.len(),
            SampleVec::Bytes(bytes) => bytes.len(),
            SampleVec::Words(words) => words.len(),
        }
    }

    /// Returns the sample at a place, counted from 0.
    pub fn sample(&self, at: usize) -> u16
        requires { at < length self.now }
        ensures { result ≡ slice_index self.now at }
    {
        self.as_slice().sample(at)
    }

    /// Returns whether no sample is above `most`. It looks at no sample if none can be above it.
    #[inline(always)]
    pub fn are_within(&self, most: u32) -> bool
        ensures { IsTrue result ↔ All (λ sample. sample ≤ most) self.now }
    {
        self.bound <= most || self.as_slice().are_within(most)
    }

    /// Returns the samples as bits, without a copy if they are held as bits.
    ///
    /// # Errors
    ///
    /// If there is no memory for the bits.
    pub fn into_bits(self, alloc: Global) -> Result<Bits, AllocError>
        requires { All (λ sample. sample ≤ 1) self }
        ensures { IfOk result (λ bits. bits ≡ self) }
    {
        match self.held {
            SampleVec::Bits(bits) => Ok(bits),
            SampleVec::Bytes(bytes) => pack_bits(
                alloc,
                bytes_to_words(alloc, bytes.as_slice())?.as_slice(),
            ),
            SampleVec::Words(words) => pack_bits(alloc, words.as_slice()),
        }
    }

    /// Returns the samples as bytes, without a copy if they are held as bytes.
    ///
    /// # Errors
    ///
    /// If there is no memory for the bytes.
    pub fn into_bytes(self, alloc: Global) -> Result<Vec<u8>, AllocError>
        requires { All (λ sample. sample ≤ 255) self }
        ensures { IfOk result (λ bytes. bytes.items ≡ self) }
    {
        match self.held {
            SampleVec::Bits(bits) => bits.to_bytes(alloc),
            SampleVec::Bytes(bytes) => Ok(bytes),
            SampleVec::Words(words) => words_to_bytes(alloc, words.as_slice()),
        }
    }

    /// Returns the samples as words, without a copy if they are held as words.
    ///
    /// # Errors
    ///
    /// If there is no memory for the words.
    pub fn into_words(self, alloc: Global) -> Result<Vec<u16>, AllocError>
        ensures { IfOk result (λ words. words.items ≡ self) }
    {
        match self.held {
            SampleVec::Bits(bits) => bits.to_words(alloc),
            SampleVec::Bytes(bytes) => bytes_to_words(alloc, bytes.as_slice()),
            SampleVec::Words(words) => Ok(words),
        }
    }

    /// Returns the samples as words, in a new vector.
    ///
    /// # Errors
    ///
    /// If there is no memory for the words.
    pub fn to_words(&self, alloc: Global) -> Result<Vec<u16>, AllocError>
        ensures { IfOk result (λ words. words.items ≡ self.now) }
    {
        match &self.held {
            SampleVec::Bits(bits) => bits.to_words(alloc),
            SampleVec::Bytes(bytes) => bytes_to_words(alloc, bytes.as_slice()),
            SampleVec::Words(words) => Vec::from_slice(alloc, words.as_slice()),
        }
    }

    /// Copies the samples, in the same width.
    ///
    /// # Errors
    ///
    /// If there is no memory for them.
    pub fn copy(&self, alloc: Global) -> Result<Samples, AllocError>
        ensures { IfOk result (λ copy. copy ≡ self.now) }
    {
        let held = match &self.held {
            SampleVec::Bits(bits) => SampleVec::Bits(bits.copy(alloc)?),
            SampleVec::Bytes(bytes) => SampleVec::Bytes(Vec::from_slice(alloc, bytes.as_slice())?),
            SampleVec::Words(words) => SampleVec::Words(Vec::from_slice(alloc, words.as_slice())?),
        };
        Ok(Samples {
            held,
            bound: self.bound,
        })
    }
}

/// Returns the greatest number that a sample of this width can be.
fn bound_of(held: &SampleVec) -> u32
    ensures { All (λ sample. sample ≤ result) (samples_of held.now) }
{
    match held {
        SampleVec::Bits(bits) => bits.bound(),
        SampleVec::Bytes(bytes) => byte_bound(bytes.as_slice()),
        SampleVec::Words(words) => word_bound(words.as_slice()),
    }
}

/// Returns a number that no byte is above. A proof learns from the call that this holds for `bytes`.
fn byte_bound(bytes: &[u8]) -> u32
    ensures { All (λ sample. sample ≤ result) bytes.now }
{
    GREATEST_BYTE
}

/// Returns a number that no word is above. A proof learns from the call that this holds for `words`.
fn word_bound(words: &[u16]) -> u32
    ensures { All (λ sample. sample ≤ result) words.now }
{
    GREATEST_WORD
}

/// Packs samples of 0 and 1 into pixels.
fn pack_bits(alloc: Global, pixels: &[u16]) -> Result<Bits, AllocError>
    requires { All (λ sample. sample ≤ 1) pixels.now }
    ensures { IfOk result (λ bits. bits ≡ pixels.now) }
{
    let mut bytes = Vec::from_elem(alloc, 0, pixels.len().div_ceil(8))?;
    pack(pixels, bytes.as_mut_slice());
    Ok(Bits::new(bytes, pixels.len()))
}
