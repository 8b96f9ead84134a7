//! A fixed buffer for bytes.

ghost use Rattle.std.specs.Prelude.{◌≡◌, ◌+◌, ◌*◌, ◌<◌, ◌≤◌, ◌/◌, [], ◌++◌, length, take, drop, map, IfOk};
ghost use Rattle.pnm_image.specs.declared.shape.Kind.{Kind};
ghost use Rattle.pnm_samples.specs.Pixels.{all_pixels, packed_bytes};
ghost use Rattle.pnm_write.specs.PlainRows.{plain_row_text};
ghost use Rattle.pnm_write.specs.Internal.PlainParts.{text_of_part, column_after_part, sample_texts};
ghost use Rattle.pnm_write.specs.Encoding.{bytes_in};
ghost use Rattle.pnm_write.specs.Internal.WriteBuffers.{most_samples, FitIn};

use crate::numerals::{Numeral, append_numbers};
use crate::pixels::put_pixels;
use crate::raw::encode;
use pnm_image::SampleWidth;
use std::alloc::{AllocError, Global};
use std::marker::Model;

/// The most bytes that are held.
pub const BUFFER_BYTES: usize = 4096;

/// Up to 4,096 bytes, which are encoded here before they are written. Their memory is allocated once.
#[derive(Drop)]
pub struct WriteBuffer {
    bytes: Vec<u8>,
    length: usize,
}

impl Model for WriteBuffer {
    ghost use Rattle.std.specs.Prelude.{◌≡◌, List, ℕ, ◌≤◌, take, vec_len};

    ghost Value = { List ℕ };

    ghost view = { λ r. take r.length r.bytes.items };

    ghost invariant = { λ r. (r.length ≤ 4096) × (vec_len r.bytes ≡ 4096) };
}

impl WriteBuffer {
    /// Creates an empty buffer.
    pub fn new(alloc: Global) -> Result<WriteBuffer, AllocError>
        ensures { IfOk result (λ buffer. buffer ≡ []) }
    {
        let bytes = Vec::from_elem(alloc, 0, BUFFER_BYTES)?;
        Ok(WriteBuffer { bytes, length: 0 })
    }

    /// Returns the bytes.
    pub(crate) fn as_slice(&self) -> &[u8]
        ensures { result.now ≡ self.now }
    {
        &self.bytes[..self.length]
    }

    /// Removes all bytes.
    pub(crate) fn clear(&mut self)
        ensures { self.new ≡ [] }
    {
        self.length = 0;
    }

    /// Appends these bytes.
    pub(crate) fn push(&mut self, part: &[u8])
        requires { length self.old + length part.now ≤ 4096 }
        ensures bytes { self.new ≡ self.old ++ part.now }
        ensures count { length self.new ≡ length self.old + length part.now }
    {
        let end = self.length + part.len();
        self.bytes[self.length..end].copy_from_slice(part);
        self.length = end;
    }

    /// Replaces what the buffer holds with the bytes of these samples.
    pub(crate) fn fill(&mut self, sample_width: SampleWidth, samples: &[u16])
        requires count { length samples.now ≤ most_samples sample_width }
        requires range { FitIn sample_width samples.now }
        ensures { self.new ≡ bytes_in sample_width samples.now }
    {
        self.length = encode(sample_width, samples, &mut self.bytes);
    }

    /// Appends the numbers to a line that has `column` bytes, and to the lines after it. Returns how many bytes the
    /// last line has.
    pub(crate) fn append_numbers<N: Numeral>(&mut self, column: usize, numbers: &[N]) -> usize
        requires room { length self.old + 6 * length numbers.now ≤ 4096 }
        requires begun { 0 < column }
        requires line { column ≤ 70 }
        ensures text { self.new
            ≡ self.old ++ text_of_part column (sample_texts Kind.Gray (map N.value numbers.now)) }
        ensures count { length self.new ≤ length self.old + 6 * length numbers.now }
        ensures column { result ≡ column_after_part column (sample_texts Kind.Gray (map N.value numbers.now)) }
        ensures line { result ≤ 70 }
    {
        let (end, at) = append_numbers(&mut self.bytes, self.length, column, numbers);
        self.length = end;
        at
    }

    /// Replaces what the buffer holds with the text of a row: that of the first `count` pixels of the bytes.
    pub(crate) fn set_pixels(&mut self, bytes: &[u8], count: usize)
        requires few { length bytes.now ≤ 256 }
        requires enough { count ≤ 8 * length bytes.now }
        ensures { self.new ≡ plain_row_text Kind.Bit (take count (all_pixels bytes.now)) }
    {
        put_pixels(&mut self.bytes, bytes, count);
        self.length = 2 * count;
    }
}
