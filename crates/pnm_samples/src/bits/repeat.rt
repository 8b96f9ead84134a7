//! Pixels repeated several times.

ghost use Rattle.std.specs.Int.{to_be_bytes, w16};
ghost use Rattle.std.specs.Prelude.{◌≡◌, ◌*◌, ◌<◌, ◌^◌, length, replicate, IfOk};
ghost use Rattle.std.specs.List.{flat_map};
ghost use Rattle.pnm_samples.specs.Pixels.{pixels, all_pixels};

use super::Bits;
use std::alloc::{AllocError, Global};

impl Bits {
    /// The row with each pixel repeated `times` times.
    ///
    /// # Errors
    ///
    /// If there is no memory for it.
    pub fn repeat(&self, alloc: Global, times: usize) -> Result<Bits, AllocError>
        ensures { IfOk result (λ bits. bits ≡ flat_map (λ s. replicate times s) self.now) }
    {
        match times {
            1 => self.copy(alloc),
            2 => self.double_pixels(alloc),
            _ => self.stretch_pixels(alloc, times),
        }
    }

    /// Each pixel twice.
    fn double_pixels(&self, alloc: Global) -> Result<Bits, AllocError>
        ensures { IfOk result (λ bits. bits ≡ flat_map (λ s. replicate 2 s) self.now) }
    {
        let Some(count) = self.count.checked_mul(2) else {
            return Err(AllocError);
        };
        let mut bytes = Vec::new(alloc);
        bytes.resize(self.bytes.len() * 2, 0)?;
        fill_doubled(bytes.as_mut_slice(), self.bytes.as_slice());
        Ok(Bits::new(bytes, count))
    }
}

/// The bits of a byte, each twice.
#[inline]
fn double_bits(byte: u8) -> u16
    ensures { all_pixels (to_be_bytes w16 result) ≡ flat_map (λ s. replicate 2 s) (pixels byte) }
{
    let mut bits = u16::from(byte);
    bits = (bits | bits << 4) & 0x0f0f;
    bits = (bits | bits << 2) & 0x3333;
    bits = (bits | bits << 1) & 0x5555;
    bits | bits << 1
}

/// Fills the buffer with the pixels of the bytes, each twice.
fn fill_doubled(buffer: &mut [u8], bytes: &[u8])
    requires buffer { length buffer.old ≡ 2 * length bytes.now }
    requires fits { length bytes.now < 2 ^ 62 }
    ensures { all_pixels buffer.new ≡ flat_map (λ s. replicate 2 s) (all_pixels bytes.now) }
{
    for i in 0..bytes.len() {
        let [high, low] = double_bits(bytes[i]).to_be_bytes();
        buffer[2 * i] = high;
        buffer[2 * i + 1] = low;
    }
}
