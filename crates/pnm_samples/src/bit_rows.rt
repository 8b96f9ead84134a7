//! Rows of pixels of one bit, as they lie one after another in a raw file.

ghost use Rattle.std.specs.Prelude.{ℕ, ◌≡◌, ◌+◌, ◌-◌, ◌*◌, ◌/◌, ◌%◌, ◌<◌, ◌≤◌, ◌∷◌, ◌++◌, [], drop, get_or, length};
ghost use Rattle.std.specs.Prelude.{All, map, replicate, reverse, take, IfOk, IsTrue, IsFalse, OnOk, OnErr};
ghost use Rattle.std.specs.List.{concat, flat_map};
ghost use Rattle.pnm_samples.specs.PixelRows.{bytes_for, rows_of_bytes};
ghost use Rattle.pnm_samples.specs.Internal.BitRows.{ArePackedRows, row_bytes};
ghost use Rattle.pnm_samples.specs.Cuts.{cut_rows};
ghost use Rattle.pnm_samples.specs.Pixels.{all_pixels, packed_bytes, ArePacked};

use crate::bits::{
    Bits, bytes_of, clear_spare, complement, fill_run, move_to_end, store_pixels, turn_round,
};
use crate::packing::pack;
use crate::row_order::reverse_rows;
use std::alloc::{AllocError, Global};
use std::marker::Model;

mod runs;

use runs::move_runs;

/// Rows of pixels, all of the same length, one after another. Each begins at a byte, and its spare bits are white.
#[derive(Debug, Drop)]
pub struct BitRows {
    bytes: Vec<u8>,
    count: usize,
    /// How many pixels a row has.
    each: usize,
}

impl Model for BitRows {
    ghost use Rattle.std.specs.Prelude.{List, ℕ};
    ghost use Rattle.pnm_samples.specs.PixelRows.{rows_of_bytes};
    ghost use Rattle.pnm_samples.specs.Internal.BitRows.{ArePackedRows, row_bytes};

    ghost Value = { List (List ℕ) };

    ghost view = { λ r. rows_of_bytes r.count r.each r.bytes.items };

    ghost invariant = { λ r. ArePackedRows r.count r.each r.bytes.items };
}

impl BitRows {
    /// The `count` rows of `each` pixels that the bytes hold, without a copy. Spare bits are cleared.
    pub fn new(bytes: Vec<u8>, count: usize, each: usize) -> BitRows
        requires { length bytes.items ≡ count * bytes_for each }
        ensures { result ≡ rows_of_bytes count each bytes.items }
    {
        let mut bytes = bytes;
        clear_spare_of_each(bytes.as_mut_slice(), count, each);
        BitRows { bytes, count, each }
    }

    /// `count` rows of `each` pixels, which are these samples.
    ///
    /// # Errors
    ///
    /// If there is no memory for them.
    pub fn from_pixels(
        alloc: Global,
        pixels: &[u16],
        count: usize,
        each: usize,
    ) -> Result<BitRows, AllocError>
        requires whole { length pixels.now ≡ count * each }
        requires pixels { All (λ sample. sample ≤ 1) pixels.now }
        ensures { IfOk result (λ rows. rows ≡ cut_rows count each pixels.now) }
    {
        let size = each.div_ceil(8);
        let mut bytes = Vec::from_elem(alloc, 0, count * size)?;
        for row in 0..count {
            let buffer = &mut bytes.as_mut_slice()[row * size..(row + 1) * size];
            pack(&pixels[row * each..(row + 1) * each], buffer);
        }
        Ok(BitRows { bytes, count, each })
    }

    /// A single row, without a copy.
    pub fn one(row: Bits) -> BitRows
        ensures { result ≡ row ∷ [] }
    {
        let each = row.len();
        BitRows {
            bytes: row.into_bytes(),
            count: 1,
            each,
        }
    }

    /// The first row, without a copy, or no pixels if there is none.
    pub fn into_first(self) -> Bits
        ensures { result ≡ get_or self 0 [] }
    {
        let count = if self.count > 0 { self.each } else { 0 };
        Bits::new(self.bytes, count)
    }

    /// The bytes of the rows, with white spare bits, the number of rows, and the number of pixels in a row.
    pub fn parts(&self) -> (&[u8], usize, usize)
        ensures bytes { result.0.now ≡ flat_map packed_bytes self.now }
        ensures rows { self.now ≡ rows_of_bytes result.1 result.2 result.0.now }
        ensures whole { length result.0.now ≡ result.1 * bytes_for result.2 }
    {
        (bytes_of(self.bytes.as_slice()), self.count, self.each)
    }

    /// The bytes of the rows, with white spare bits, without a copy.
    pub fn into_bytes(self) -> Vec<u8>
        ensures { result.items ≡ flat_map packed_bytes self }
    {
        let bytes = self.bytes;
        // No effect at run time: a proof learns from this that each byte is below 256.
        let _ = bytes_of(bytes.as_slice());
        bytes
    }

    /// The bytes of row `at`, and how many pixels it has.
    pub fn row(&self, at: usize) -> (&[u8], usize)
        requires { at < length self.now }
        ensures pixels { take result.1 (all_pixels result.0.now) ≡ get_or self.now at [] }
        ensures packed { ArePacked result.1 result.0.now }
    {
        let size = self.each.div_ceil(8);
        let start = at * size;
        (&self.bytes[start..start + size], self.each)
    }

    /// Adds other rows at the end. Returns false, and adds nothing, if they were made with another row length than
    /// these, even if there are no rows here or there.
    ///
    /// # Errors
    ///
    /// If there is no memory for them, or if a `usize` can't hold the number of rows. Then nothing is changed.
    pub fn append(&mut self, more: &BitRows) -> Result<bool, AllocError>
        ensures added { IfOk result (λ done. IsTrue done → self.new ≡ self.old ++ more.now) }
        ensures same { IfOk result (λ done. IsFalse done → self.new ≡ self.old) }
        ensures unlike { IfOk result (λ done. IsFalse done → 0 < length self.old → 0 < length more.now
            → length (get_or self.old 0 []) ≡ length (get_or more.now 0 []) → ⊥) }
        ensures failed { OnErr result (self.new ≡ self.old) }
    {
        if more.each != self.each {
            return Ok(false);
        }
        let Some(count) = self.count.checked_add(more.count) else {
            return Err(AllocError);
        };
        self.bytes.extend_from_slice(more.bytes.as_slice())?;
        self.count = count;
        Ok(true)
    }

    /// Adds a row of `each` pixels at the end, which the bytes hold. Returns false, and adds nothing, if the other rows
    /// were made with another row length.
    ///
    /// # Errors
    ///
    /// If there is no memory for it, or if a `usize` can't hold the number of rows. Then nothing is changed.
    pub fn append_row(&mut self, row: &[u8], each: usize) -> Result<bool, AllocError>
        requires { ArePacked each row.now }
        ensures added { IfOk result (λ done. IsTrue done
            → self.new ≡ self.old ++ take each (all_pixels row.now) ∷ []) }
        ensures same { IfOk result (λ done. IsFalse done → self.new ≡ self.old) }
        ensures failed { OnErr result (self.new ≡ self.old) }
    {
        if each == self.each {
            let Some(count) = self.count.checked_add(1) else {
                return Err(AllocError);
            };
            self.bytes.extend_from_slice(row)?;
            self.count = count;
            return Ok(true);
        }
        Ok(false)
    }

    /// Exchanges black and white, in place.
    pub fn invert(&mut self)
        ensures { self.new ≡ map (map (λ s. 1 - s)) self.old }
    {
        let bytes = self.bytes.as_mut_slice();
        complement(bytes);
        clear_spare_of_each(bytes, self.count, self.each);
    }

    /// Reverses the pixels of each row, in place.
    pub fn mirror(&mut self)
        ensures { self.new ≡ map reverse self.old }
    {
        let (count, each) = (self.count, self.each);
        mirror_each(self.bytes.as_mut_slice(), count, each);
    }

    /// Reverses the order of the rows, in place.
    pub fn reverse(&mut self)
        ensures { self.new ≡ reverse self.old }
    {
        let (count, size) = (self.count, self.each.div_ceil(8));
        reverse_rows(self.bytes.as_mut_slice(), count, size);
    }

    /// Reverses the order of the rows and the pixels of each row, in place.
    pub fn turn_round(&mut self)
        ensures { self.new ≡ reverse (map reverse self.old) }
    {
        let (count, each) = (self.count, self.each);
        turn_round(self.bytes.as_mut_slice());
        move_each_to_end(self.bytes.as_mut_slice(), count, each);
    }

    /// Keeps `count` rows from row `top` on, and of each of them `each` pixels from pixel `left` on, in place.
    pub fn keep_part(&mut self, top: usize, count: usize, left: usize, each: usize)
        requires rows { top + count ≤ length self.old }
        requires pixels { (k : ℕ) → k < length self.old → left + each ≤ length (get_or self.old k []) }
        ensures { self.new ≡ map (λ row. take each (drop left row)) (take count (drop top self.old)) }
    {
        let (apart, size) = (self.each.div_ceil(8), each.div_ceil(8));
        let start = top * apart;
        move_runs(self.bytes.as_mut_slice(), start, apart, count, left, each);
        self.bytes.truncate(count * size);
        clear_spare_of_each(self.bytes.as_mut_slice(), count, each);
        self.count = count;
        self.each = each;
    }

    /// A copy of `count` rows from row `top` on, with `each` pixels of each of them from pixel `left` on.
    ///
    /// # Errors
    ///
    /// If there is no memory for it.
    pub fn part(
        &self,
        alloc: Global,
        top: usize,
        count: usize,
        left: usize,
        each: usize,
    ) -> Result<BitRows, AllocError>
        requires rows { top + count ≤ length self.now }
        requires pixels { (k : ℕ) → k < length self.now → left + each ≤ length (get_or self.now k []) }
        ensures { IfOk result (λ part. part ≡ map (λ row. take each (drop left row)) (take count (drop top self.now))) }
    {
        if left == 0 && each == self.each {
            return self.copy_rows(alloc, top, count);
        }
        let (apart, size) = (self.each.div_ceil(8), each.div_ceil(8));
        let mut bytes = Vec::from_elem(alloc, 0, count * size)?;
        for row in 0..count {
            let start = top * apart + row * apart;
            let from = &self.bytes[start..start + apart];
            let buffer = &mut bytes.as_mut_slice()[row * size..(row + 1) * size];
            fill_run(buffer, from, left, each);
        }
        Ok(BitRows::new(bytes, count, each))
    }

    /// A copy of `count` rows from row `top` on.
    ///
    /// # Errors
    ///
    /// If there is no memory for it.
    fn copy_rows(&self, alloc: Global, top: usize, count: usize) -> Result<BitRows, AllocError>
        requires { top + count ≤ length self.now }
        ensures { IfOk result (λ part. part ≡ take count (drop top self.now)) }
    {
        let size = self.each.div_ceil(8);
        let start = top * size;
        let bytes = Vec::from_slice(alloc, &self.bytes[start..start + count * size])?;
        Ok(BitRows {
            bytes,
            count,
            each: self.each,
        })
    }

    /// The samples of the rows, a byte each, with nothing between the rows.
    ///
    /// # Errors
    ///
    /// If there is no memory for them.
    pub fn to_bytes(&self, alloc: Global) -> Result<Vec<u8>, AllocError>
        ensures { IfOk result (λ bytes. bytes.items ≡ concat self.now) }
    {
        rows_to_samples(alloc, self.bytes.as_slice(), self.count, self.each)
    }

    /// The rows with each pixel repeated `times` times.
    ///
    /// # Errors
    ///
    /// If there is no memory for them.
    pub fn widen(&self, alloc: Global, times: usize) -> Result<BitRows, AllocError>
        ensures { IfOk result (λ wide. wide ≡ map (flat_map (λ s. replicate times s)) self.now) }
    {
        let (Some(each), Some(apart)) = (
            self.each.checked_mul(times),
            self.each.div_ceil(8).checked_mul(times),
        ) else {
            return Err(AllocError);
        };
        let Some(pixels) = self.bytes.len().checked_mul(8) else {
            return Err(AllocError);
        };
        let pixels = Bits::new(Vec::from_slice(alloc, self.bytes.as_slice())?, pixels);
        let wide = pixels.repeat(alloc, times)?.into_bytes();
        // The repeated spare pixels of a row come after it, and may fill whole bytes.
        let size = each.div_ceil(8);
        if apart == size {
            return Ok(BitRows::new(wide, self.count, each));
        }
        let mut bytes = Vec::with_capacity(alloc, self.count * size)?;
        for row in 0..self.count {
            let start = row * apart;
            bytes.extend_from_slice(&wide[start..start + size])?;
        }
        Ok(BitRows::new(bytes, self.count, each))
    }
}

/// How many spare pixels the last byte of a row of `each` pixels has.
fn spare_of(each: usize) -> u32
    ensures { result ≡ (8 - each % 8) % 8 }
{
    ((8 - each % 8) % 8) as u32
}

/// Makes the spare pixels of `count` rows of `each` pixels white.
fn clear_spare_of_each(bytes: &mut [u8], count: usize, each: usize)
    requires { length bytes.old ≡ count * bytes_for each }
    ensures same { rows_of_bytes count each bytes.new ≡ rows_of_bytes count each bytes.old }
    ensures packed { ArePackedRows count each bytes.new }
{
    if each % 8 == 0 {
        return;
    }
    let size = each.div_ceil(8);
    for row in 0..count {
        clear_spare(&mut bytes[row * size..(row + 1) * size], each);
    }
}

/// Reverses the pixels of each of `count` rows of `each` pixels.
fn mirror_each(bytes: &mut [u8], count: usize, each: usize)
    requires { ArePackedRows count each bytes.old }
    ensures turned { rows_of_bytes count each bytes.new ≡ map reverse (rows_of_bytes count each bytes.old) }
    ensures packed { ArePackedRows count each bytes.new }
{
    let size = each.div_ceil(8);
    for row in 0..count {
        mirror_row(&mut bytes[row * size..(row + 1) * size], each);
    }
}

/// Reverses the pixels of a row of `each` pixels.
fn mirror_row(bytes: &mut [u8], each: usize)
    requires { ArePacked each bytes.old }
    ensures turned { take each (all_pixels bytes.new) ≡ reverse (take each (all_pixels bytes.old)) }
    ensures packed { ArePacked each bytes.new }
{
    turn_round(bytes);
    move_to_end(bytes, spare_of(each));
}

/// Moves the white pixels at the start of each row to its end, in `count` rows of `each` pixels.
fn move_each_to_end(bytes: &mut [u8], count: usize, each: usize)
    requires size { length bytes.old ≡ count * bytes_for each }
    requires white { (row : ℕ) → row < count
        → take ((8 - each % 8) % 8) (all_pixels (row_bytes (bytes_for each) row bytes.old))
        ≡ replicate ((8 - each % 8) % 8) 1 }
    ensures moved { (row : ℕ) → row < count → take each (all_pixels (row_bytes (bytes_for each) row bytes.new))
        ≡ drop ((8 - each % 8) % 8) (all_pixels (row_bytes (bytes_for each) row bytes.old)) }
    ensures packed { ArePackedRows count each bytes.new }
{
    let (size, spare) = (each.div_ceil(8), spare_of(each));
    if spare == 0 {
        return;
    }
    for row in 0..count {
        move_to_end(&mut bytes[row * size..(row + 1) * size], spare);
    }
}

/// The samples of `count` rows of `each` pixels, a byte per sample, with nothing between the rows.
///
/// # Errors
///
/// If there is no memory for them.
pub(crate) fn rows_to_samples(
    alloc: Global,
    bytes: &[u8],
    count: usize,
    each: usize,
) -> Result<Vec<u8>, AllocError>
    requires { length bytes.now ≡ count * bytes_for each }
    ensures { IfOk result (λ samples. samples.items ≡ concat (rows_of_bytes count each bytes.now)) }
{
    let size = each.div_ceil(8);
    let Some(total) = count.checked_mul(each) else {
        return Err(AllocError);
    };
    // The spare pixels of a row's last byte are stored, too, and the next row then overwrites them.
    let mut samples = Vec::from_elem(alloc, 0, total.saturating_add(7))?;
    for row in 0..count {
        let at = row * each;
        store_row(
            &mut samples[at..at + 8 * size],
            &bytes[row * size..(row + 1) * size],
        );
    }
    samples.truncate(total);
    Ok(samples)
}

/// Stores all pixels of a row's bytes as samples.
fn store_row(samples: &mut [u8], bytes: &[u8])
    requires { length samples.old ≡ 8 * length bytes.now }
    ensures { samples.new ≡ all_pixels bytes.now }
{
    let mut at = 0;
    for byte in bytes {
        store_pixels(&mut samples[at..at + 8], *byte);
        at += 8;
    }
}
