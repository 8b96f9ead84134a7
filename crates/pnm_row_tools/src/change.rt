//! Changes rows sample by sample, in any width.

ghost use Rattle.std.specs.Prelude.{ℕ, ◌≡◌, ◌≤◌, ◌<◌, All, IfOk, map, length, slice_index};
ghost use Rattle.std.specs.List.{concat};
ghost use Rattle.pnm_image.specs.declared.limits.TheConstants.{MAX_MAXVAL};
ghost use Rattle.pnm_image.specs.declared.rows.RowVec.TheVariants.{Bits};
ghost use Rattle.pnm_row_tools.specs.Internal.EachRow.{HoldsSamples, IsEachChanged, held_samples};
ghost use Rattle.pnm_tools.specs.Tools.{IsLawfulTool};

use crate::sample_tool::SampleTool;
use crate::widths::Width;
use pnm_image::RowVec;
use pnm_samples::BitRows;
use std::alloc::{AllocError, Global};

/// The greatest sample that fits a byte.
const GREATEST_BYTE: u32 = 255;

/// A change of samples. It is copied into the loops over samples.
pub(crate) trait Change: Copy {
    /// The change is defined for this sample.
    ghost takes: { Self → ℕ → Type 0 };

    /// What becomes of the sample.
    ghost changed: { Self → ℕ → ℕ };

    /// Returns what becomes of a sample.
    fn change(self, sample: u16) -> u16
        requires { takes self sample }
        ensures { result ≡ changed self sample };
}

/// The change that a tool makes in an image of this maxval, computed for each sample.
#[derive(Clone, Copy)]
pub(crate) struct Computed<T: SampleTool> {
    pub(crate) tool: T,
    pub(crate) maxval: u32,
}

impl<T: SampleTool> Change for Computed<T> {
    ghost takes = { λ c sample.
        IsLawfulTool (T.tool c.tool) × (1 ≤ c.maxval) × (c.maxval ≤ MAX_MAXVAL) × (sample ≤ c.maxval) };

    ghost changed = { λ c sample. (T.rule c.tool).sample c.maxval sample };

    #[inline(always)]
    fn change(self, sample: u16) -> u16 {
        self.tool.sample(self.maxval, sample)
    }
}

/// The change that a table holds, by each sample's number.
#[derive(Clone, Copy)]
pub(crate) struct LookedUp<'a> {
    pub(crate) table: &'a [u16],
}

impl Change for LookedUp<'_> {
    ghost takes = { λ l sample. sample < length l.table.now };

    ghost changed = { λ l sample. slice_index l.table.now sample };

    #[inline(always)]
    fn change(self, sample: u16) -> u16 {
        self.table[sample as usize]
    }
}

/// Changes each sample of rows whose samples are at most `most` afterwards. Rows become bytes if `most` is at most 255,
/// and words otherwise. Rows of that width are changed in place. Bits of an image of maxval 1 stay bits if black and
/// white stay or are exchanged; all other bits become bytes first.
///
/// # Errors
///
/// If there is no memory for samples of another width.
pub(crate) fn change_rows<C: Change>(
    alloc: Global,
    change: C,
    maxval: u32,
    most: u32,
    rows: RowVec,
) -> Result<RowVec, AllocError>
    requires maxval { (1 ≤ maxval) × (most ≤ MAX_MAXVAL) }
    requires takes { (sample : ℕ) → sample ≤ maxval → C.takes change sample }
    requires within { (sample : ℕ) → sample ≤ maxval → C.changed change sample ≤ most }
    requires range { All (λ sample. sample ≤ maxval) (held_samples rows) }
    ensures { IfOk result (IsEachChanged (C.changed change) rows) }
{
    match rows {
        RowVec::Bits(bits) if maxval == 1 => change_bits(alloc, change, most, bits),
        RowVec::Bits(bits) => {
            let bytes = bits.to_bytes(alloc)?;
            change_bytes(alloc, change, maxval, most, bytes)
        }
        RowVec::Bytes(bytes) => change_bytes(alloc, change, maxval, most, bytes),
        RowVec::Words(words) => change_words(alloc, change, maxval, most, words),
    }
}

/// Changes rows of pixels of one bit each, of an image of maxval 1.
///
/// # Errors
///
/// If there is no memory for samples of another width.
fn change_bits<C: Change>(
    alloc: Global,
    change: C,
    most: u32,
    bits: BitRows,
) -> Result<RowVec, AllocError>
    requires most { most ≤ MAX_MAXVAL }
    requires takes { (sample : ℕ) → sample ≤ 1 → C.takes change sample }
    requires within { (sample : ℕ) → sample ≤ 1 → C.changed change sample ≤ most }
    requires range { All (λ sample. sample ≤ 1) (concat bits) }
    ensures { IfOk result (IsEachChanged (C.changed change) (Bits bits)) }
{
    let mut bits = bits;
    match (change.change(0), change.change(1)) {
        (0, 1) => Ok(RowVec::Bits(bits)),
        (1, 0) => {
            bits.invert();
            Ok(RowVec::Bits(bits))
        }
        _ => {
            let bytes = bits.to_bytes(alloc)?;
            change_bytes(alloc, change, 1, most, bytes)
        }
    }
}

/// Changes samples that are held as bytes.
///
/// # Errors
///
/// If there is no memory for words.
fn change_bytes<C: Change>(
    alloc: Global,
    change: C,
    maxval: u32,
    most: u32,
    bytes: Vec<u8>,
) -> Result<RowVec, AllocError>
    requires most { most ≤ MAX_MAXVAL }
    requires takes { (sample : ℕ) → sample ≤ maxval → C.takes change sample }
    requires within { (sample : ℕ) → sample ≤ maxval → C.changed change sample ≤ most }
    requires range { All (λ sample. sample ≤ maxval) bytes.items }
    ensures { IfOk result (HoldsSamples (map (C.changed change) bytes.items)) }
{
    if most > GREATEST_BYTE {
        let words = change_into(alloc, change, maxval, most, bytes.as_slice())?;
        return Ok(RowVec::Words(words));
    }
    let mut bytes = bytes;
    change_each(change, maxval, most, bytes.as_mut_slice());
    Ok(RowVec::Bytes(bytes))
}

/// Changes samples that are held as words.
///
/// # Errors
///
/// If there is no memory for bytes.
fn change_words<C: Change>(
    alloc: Global,
    change: C,
    maxval: u32,
    most: u32,
    words: Vec<u16>,
) -> Result<RowVec, AllocError>
    requires most { most ≤ MAX_MAXVAL }
    requires takes { (sample : ℕ) → sample ≤ maxval → C.takes change sample }
    requires within { (sample : ℕ) → sample ≤ maxval → C.changed change sample ≤ most }
    requires range { All (λ sample. sample ≤ maxval) words.items }
    ensures { IfOk result (HoldsSamples (map (C.changed change) words.items)) }
{
    if most <= GREATEST_BYTE {
        let bytes = change_into(alloc, change, maxval, most, words.as_slice())?;
        return Ok(RowVec::Bytes(bytes));
    }
    let mut words = words;
    change_each(change, maxval, most, words.as_mut_slice());
    Ok(RowVec::Words(words))
}

/// Changes each sample in place.
fn change_each<C: Change, W: Width>(change: C, maxval: u32, most: u32, samples: &mut [W])
    requires most { most ≤ W.greatest }
    requires takes { (sample : ℕ) → sample ≤ maxval → C.takes change sample }
    requires within { (sample : ℕ) → sample ≤ maxval → C.changed change sample ≤ most }
    requires range { All (λ sample. W.value sample ≤ maxval) samples.old }
    ensures { map W.value samples.new ≡ map (λ sample. C.changed change (W.value sample)) samples.old }
{
    for sample in samples.iter_mut() {
        *sample = W::of_number(change.change(sample.number()));
    }
}

/// Returns the samples, each changed, in another width.
///
/// # Errors
///
/// If there is no memory for them.
fn change_into<C: Change, W: Width, N: Width>(
    alloc: Global,
    change: C,
    maxval: u32,
    most: u32,
    samples: &[W],
) -> Result<Vec<N>, AllocError>
    requires most { most ≤ N.greatest }
    requires takes { (sample : ℕ) → sample ≤ maxval → C.takes change sample }
    requires within { (sample : ℕ) → sample ≤ maxval → C.changed change sample ≤ most }
    requires range { All (λ sample. W.value sample ≤ maxval) samples.now }
    ensures { IfOk result (λ made.
        map N.value made.items ≡ map (λ sample. C.changed change (W.value sample)) samples.now) }
{
    let mut made = Vec::from_elem(alloc, N::of_number(0), samples.len())?;
    for at in 0..samples.len() {
        made[at] = N::of_number(change.change(samples[at].number()));
    }
    Ok(made)
}
