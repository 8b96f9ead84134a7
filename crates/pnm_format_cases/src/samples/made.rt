//! Made-up rows, of which there are several.

use pnm_samples::Bits;
use std::alloc::{AllocError, Global};

/// The pixel at a place of a made-up row: 0 is black.
pub fn made_up(kind: usize, at: usize) -> u16 {
    let mixed = at
        .wrapping_mul(at)
        .wrapping_add(kind.wrapping_mul(5))
        .wrapping_add(at / 3);
    u16::from(mixed % 5 > 1)
}

/// The bytes of `count` pixels of a made-up row, the first pixel in the bit of weight 128. Spare bits are set.
pub fn packed(alloc: Global, kind: usize, count: usize) -> Result<Vec<u8>, AllocError> {
    let mut bytes = Vec::new(alloc);
    for at in 0..count.div_ceil(8) {
        let mut byte = 0;
        for bit in 0..8 {
            let place = at.wrapping_mul(8).wrapping_add(bit);
            let is_black = place >= count || made_up(kind, place) == 0;
            byte = (byte << 1) | u8::from(is_black);
        }
        bytes.push(byte)?;
    }
    Ok(bytes)
}

/// `count` pixels of a made-up row.
pub fn bits_of(alloc: Global, kind: usize, count: usize) -> Result<Bits, AllocError> {
    Ok(Bits::new(packed(alloc, kind, count)?, count))
}
