//! The units of a raw row, as wide as the bytes that they lie in. A unit is a sample, or a byte of eight
//! pixels.

ghost use Rattle.std.specs.Prelude.{◌≡◌, ◌≤◌, ◌↔◌, IsTrue};
ghost use Rattle.pnm_image.specs.declared.limits.TheConstants.{MAX_SIDE};
ghost use Rattle.pnm_read.specs.Internal.RawParts.{AppendsWide};
ghost use Rattle.pnm_read.specs.Internal.Units.{AreBytesWithin};
ghost use Rattle.pnm_read.specs.Said.{units_in_row};

use crate::fault::InputFault;
use pnm_image::{SampleWidth, Shape};
use pnm_samples::{are_bytes_within, are_words_within};

/// Appends samples of two bytes. Fails with `Memory` if there is none for them, and with `SampleAboveMaxval` if one is
/// above the maxval. The loop over them is vector code.
pub fn append_wide(bytes: &[u8], maxval: u32, row: &mut Vec<u16>) -> Result<(), InputFault>
    ensures { AppendsWide maxval bytes.now row.old.items row.new.items result }
{
    let before = row.len();
    let samples = bytes
        .chunks_exact(2)
        .map(|pair| u16::from_be_bytes([pair[0], pair[1]]));
    if row.extend(samples).is_err() {
        return Err(InputFault::Memory);
    }
    if !are_words_within(&row[before..], maxval) {
        return Err(InputFault::SampleAboveMaxval);
    }
    Ok(())
}

/// Returns whether no unit of a byte is a sample above the maxval. A byte of eight pixels never is one.
pub fn are_units_within(bytes: &[u8], sample_width: SampleWidth, maxval: u32) -> bool
    ensures { IsTrue result ↔ AreBytesWithin sample_width maxval bytes.now }
{
    match sample_width {
        SampleWidth::Bits => true,
        SampleWidth::Bytes | SampleWidth::Words => are_bytes_within(bytes, maxval),
    }
}

/// Returns the number of units in a row of this shape.
pub fn units_in_row(sample_width: SampleWidth, shape: Shape) -> usize
    requires { shape.width ≤ MAX_SIDE }
    ensures { result ≡ units_in_row sample_width shape }
{
    match sample_width {
        SampleWidth::Bits => (shape.width as usize).div_ceil(8),
        SampleWidth::Bytes | SampleWidth::Words => shape.row_length() as usize,
    }
}
