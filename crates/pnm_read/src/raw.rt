//! The rows of a raw raster.

ghost use Rattle.std.specs.Prelude.{◌≡◌, ◌≤◌, ◌<◌, [], false, All, IfOk, OnOk, length, take};
ghost use Rattle.pnm_image.specs.declared.limits.TheConstants.{MAX_SIDE};
ghost use Rattle.pnm_image.specs.Formats.{is_plain_form};
ghost use Rattle.pnm_image.specs.SampleWidths.{sample_width_of};
ghost use Rattle.pnm_image.specs.declared.sample_width.SampleWidth.TheVariants.{Words};
ghost use Rattle.pnm_read.specs.Said.{raw_row, units_in_row};
ghost use Rattle.pnm_read.specs.Internal.BufferedReaders.{ReadCall, Finds};
ghost use Rattle.pnm_read.specs.Internal.RawParts.{FindsUnits, FindsPart};
ghost use Rattle.pnm_read.specs.Internal.RasterRows.{FindsRows};
ghost use Rattle.pnm_read.specs.Internal.Units.{samples_of_bytes, AreBytesWithin};

use crate::buffered_reader::BufferedReader;
use crate::fault::InputFault;
use crate::held_rows;
use crate::raster::Raster;
use crate::spare_rows::SpareRows;
use crate::units::{append_wide, are_units_within, units_in_row};
use pnm_image::{Bits, BytesIn, Rows, SampleVec, SampleWidth, Samples, Shape};

/// The next rows: those that are held whole, after one read if none is; or one row, which is read to its end.
/// No sample is above the maxval.
pub fn read_rows<R: BytesIn>(
    input: &mut BufferedReader<R>,
    spares: &mut SpareRows,
    raster: &Raster,
) -> Result<Rows, InputFault>
    requires row { raster.now.y < raster.now.shape.height }
    requires raw { is_plain_form raster.now.format.form ≡ false }
    ensures { ReadCall R.left R.failures R.same input.old input.new result (FindsRows raster.now result) }
{
    input.read_towards(held_rows::wanted_ahead(input.bytes(), raster))?;
    match held_rows::take(input, spares, raster)? {
        Some(rows) => Ok(rows),
        None => Ok(Rows::one(read_row(input, raster.shape, raster.units, raster.sample_width)?)),
    }
}

/// The next row, part by part: what is still to be read of bits and bytes goes straight into it.
fn read_row<R: BytesIn>(
    input: &mut BufferedReader<R>,
    shape: Shape,
    units: usize,
    sample_width: SampleWidth,
) -> Result<Samples, InputFault>
    requires width { shape.width ≤ MAX_SIDE }
    requires units { units ≡ units_in_row sample_width shape }
    requires sample_width { sample_width ≡ sample_width_of shape.kind shape.maxval }
    ensures { ReadCall R.left R.failures R.same input.old input.new result (Finds (raw_row shape) result) }
{
    let length = shape.row_length() as usize;
    match sample_width {
        SampleWidth::Bits => {
            let bytes = read_bytes(input, units, shape, SampleWidth::Bits)?;
            let bits = Bits::new(bytes, length);
            Ok(Samples::from_vec(SampleVec::Bits(bits)))
        }
        SampleWidth::Bytes => {
            let mut bytes = read_bytes(input, units, shape, SampleWidth::Bytes)?;
            bytes.truncate(length);
            Ok(Samples::within(SampleVec::Bytes(bytes), shape.maxval))
        }
        SampleWidth::Words => {
            let mut words = read_words(input, shape)?;
            words.truncate(length);
            Ok(Samples::within(SampleVec::Words(words), shape.maxval))
        }
    }
}

/// The bytes of the next row, `count` units, part by part.
#[inline(never)]
fn read_bytes<R: BytesIn>(
    input: &mut BufferedReader<R>,
    count: usize,
    shape: Shape,
    sample_width: SampleWidth,
) -> Result<Vec<u8>, InputFault>
    requires count { count ≡ units_in_row sample_width shape }
    requires sample_width { sample_width ≡ sample_width_of shape.kind shape.maxval }
    requires bytes { sample_width ≡ Words → ⊥ }
    ensures found { ReadCall R.left R.failures R.same input.old input.new result
        (FindsUnits (λ row. samples_of_bytes sample_width row.items) shape result) }
    ensures within { IfOk result (λ row. AreBytesWithin sample_width shape.maxval row.items) }
{
    let Ok(mut row) = Vec::from_elem(input.allocator(), 0, count) else {
        return Err(InputFault::Memory);
    };
    let mut filled = 0;
    while filled < count {
        let target = &mut row.as_mut_slice()[filled..];
        filled += read_part(input, target, sample_width, shape.maxval)?;
    }
    Ok(row)
}

/// Takes the next units of a byte into the front of the target, and returns how many.
fn read_part<R: BytesIn>(
    input: &mut BufferedReader<R>,
    target: &mut [u8],
    sample_width: SampleWidth,
    maxval: u32,
) -> Result<usize, InputFault>
    requires target { 0 < length target.old }
    requires bytes { sample_width ≡ Words → ⊥ }
    ensures found { ReadCall R.left R.failures R.same input.old input.new result
        (FindsPart sample_width maxval (length target.old) []
        (λ count. samples_of_bytes sample_width (take count target.new)) result) }
    ensures count { IfOk result (λ count. (0 < count) × (count ≤ length target.new)) }
    ensures within { IfOk result (λ count. AreBytesWithin sample_width maxval (take count target.new)) }
{
    let count = input.read(target)?;
    if count == 0 {
        return Err(InputFault::RasterCut);
    }
    if !are_units_within(&target[..count], sample_width, maxval) {
        return Err(InputFault::SampleAboveMaxval);
    }
    Ok(count)
}

/// The samples of two bytes of the next row.
fn read_words<R: BytesIn>(
    input: &mut BufferedReader<R>,
    shape: Shape,
) -> Result<Vec<u16>, InputFault>
    requires width { shape.width ≤ MAX_SIDE }
    requires sample_width { Words ≡ sample_width_of shape.kind shape.maxval }
    ensures found { ReadCall R.left R.failures R.same input.old input.new result
        (FindsUnits (λ row. row.items) shape result) }
    ensures within { IfOk result (λ row. All (λ sample. sample ≤ shape.maxval) row.items) }
{
    let mut left = units_in_row(SampleWidth::Words, shape);
    let Ok(mut row) = Vec::with_capacity(input.allocator(), left) else {
        return Err(InputFault::Memory);
    };
    while left > 0 {
        left -= append_part(input, left, shape.maxval, &mut row)?;
    }
    Ok(row)
}

/// Appends the next samples of two bytes, at most `most` of them, and returns how many. Safe code can't
/// lend words as bytes to be read into, so these are made out of the input's buffer.
fn append_part<R: BytesIn>(
    input: &mut BufferedReader<R>,
    most: usize,
    maxval: u32,
    row: &mut Vec<u16>,
) -> Result<usize, InputFault>
    requires { 0 < most }
    ensures found { ReadCall R.left R.failures R.same input.old input.new result
        (FindsPart Words maxval most row.old.items (λ _. row.new.items) result) }
    ensures count { IfOk result (λ count. (0 < count) × (count ≤ most)) }
    ensures within { All (λ sample. sample ≤ maxval) row.old.items
        → OnOk result (All (λ sample. sample ≤ maxval) row.new.items) }
{
    input.fill(2)?;
    let bytes = input.bytes();
    let count = (bytes.len() / 2).min(most);
    if count == 0 {
        return Err(InputFault::RasterCut);
    }
    append_wide(&bytes[..count * 2], maxval, row)?;
    input.advance(count * 2);
    Ok(count)
}
