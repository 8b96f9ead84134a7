//! Pixels in the opposite order.

ghost use Rattle.std.specs.Prelude.{◌≡◌, ℕ, ◌++◌, ◌<◌, List, replicate, reverse};
ghost use Rattle.pnm_samples.specs.Pixels.{all_pixels};

use super::{Bits, window};

impl Bits {
    /// Reverses the order of the pixels, in place.
    pub fn reverse(&mut self)
        ensures { self.new ≡ reverse self.old }
    {
        let spare = (8 - self.count % 8) % 8;
        turn_round(self.bytes.as_mut_slice());
        move_to_end(self.bytes.as_mut_slice(), spare as u32);
    }
}

/// Reverses the order of all pixels, including the spare ones of the last byte.
pub(crate) fn turn_round(bytes: &mut [u8])
    ensures { all_pixels bytes.new ≡ reverse (all_pixels bytes.old) }
{
    bytes.reverse();
    for byte in bytes.iter_mut() {
        *byte = byte.reverse_bits();
    }
}

/// Moves the first `skipped` pixels, which are white, to the end.
pub(crate) fn move_to_end(bytes: &mut [u8], skipped: u32)
    requires { skipped < 8 }
    ensures { (rest : List ℕ) → all_pixels bytes.old ≡ replicate skipped 1 ++ rest
        → all_pixels bytes.new ≡ rest ++ replicate skipped 1 }
{
    if skipped == 0 {
        return;
    }
    let count = bytes.len();
    if count > 0 {
        for i in 0..count - 1 {
            bytes[i] = window(bytes[i], bytes[i + 1], skipped);
        }
        bytes[count - 1] = window(bytes[count - 1], 0, skipped);
    }
}
