//! The rows of a plain raster.

ghost use Rattle.std.specs.Prelude.{◌≡◌, ◌<◌, ◌≤◌, ◌*◌, All, IfOk, IfErr, length, true};
ghost use Rattle.pnm_samples.specs.Cuts.{cut_rows};
ghost use Rattle.pnm_image.specs.declared.limits.TheConstants.{MAX_MAXVAL};
ghost use Rattle.pnm_image.specs.Formats.{is_plain_form};
ghost use Rattle.pnm_image.specs.Heads.{row_length};
ghost use Rattle.pnm_read.specs.declared.fault.InputFault.TheVariants.{Memory};
ghost use Rattle.pnm_read.specs.Items.{plain_pixel, plain_decimal, plain_sample, after_last_item};
ghost use Rattle.pnm_read.specs.Said.{plain_row};
ghost use Rattle.pnm_read.specs.BufferedReaders.{held_of};
ghost use Rattle.pnm_read.specs.Internal.BufferedReaders.{ReadCall, Finds, FindsWords, Passes};
ghost use Rattle.pnm_read.specs.Internal.RasterRows.{FindsRows, TakesPlain, greatest_in};

use crate::buffered_reader::BufferedReader;
use crate::comments::is_apart;
use crate::decimal::DecimalScanner;
use crate::fault::InputFault;
use crate::leading::take_samples;
use crate::pixel::PixelScanner;
use crate::raster::Raster;
use crate::scan::scan;
use pnm_image::{BitRows, BytesIn, Kind, RowVec, Rows, SampleWidth, Shape};
use pnm_samples::words_to_bytes;
use std::alloc::Global;

/// The sample of a white pixel, which none is above.
const GREATEST_PIXEL: u32 = 1;

/// How many bytes a sample usually takes, with the white space before it.
const USUAL_BYTES: usize = 4;

/// The next row, and those behind it that the held bytes determine then; or the text's fault there, `ReadFailed` or
/// `Memory`. The last row of an image comes without others, since what follows it is looked at.
pub fn read_rows<R: BytesIn>(
    input: &mut BufferedReader<R>,
    raster: &Raster,
) -> Result<Rows, InputFault>
    requires row { raster.now.y < raster.now.shape.height }
    requires plain { is_plain_form raster.now.format.form ≡ true }
    ensures { ReadCall R.left R.failures R.same input.old input.new result (FindsRows raster.now result) }
{
    let mut samples = read_samples(input, raster.shape)?;
    let more = raster.shape.height - raster.y - 1;
    if more == 0 {
        check_end(input)?;
        return rows_of(input.allocator(), samples, raster, 1);
    }
    let others = take_held(input, raster.shape, more - 1, &mut samples)?;
    rows_of(input.allocator(), samples, raster, others + 1)
}

/// The samples of the next row. The held bytes alone determine some of them; each of the others takes a scanner.
fn read_samples<R: BytesIn>(
    input: &mut BufferedReader<R>,
    shape: Shape,
) -> Result<Vec<u16>, InputFault>
    requires { shape.maxval ≤ MAX_MAXVAL }
    ensures { ReadCall R.left R.failures R.same input.old input.new result
        (FindsWords (plain_row shape) result) }
{
    let length = shape.row_length() as usize;
    let Ok(mut row) = Vec::with_capacity(input.allocator(), length) else {
        return Err(InputFault::Memory);
    };
    loop {
        let Ok(taken) = take_samples(input.bytes(), shape, length, &mut row) else {
            return Err(InputFault::Memory);
        };
        input.advance(taken);
        if row.len() >= length {
            break;
        }
        let sample = read_sample(input, shape.kind, shape.maxval)?;
        if row.push(sample).is_err() {
            return Err(InputFault::Memory);
        }
    }
    Ok(row)
}

/// Takes the next rows that the held bytes determine, `most` at most, and appends their samples. Returns how many
/// rows these are. A row isn't looked at if fewer bytes are held than the one before it took, or the first one
/// usually takes.
///
/// # Errors
///
/// `Memory` if there is none for the samples.
fn take_held<R: BytesIn>(
    input: &mut BufferedReader<R>,
    shape: Shape,
    most: u32,
    samples: &mut Vec<u16>,
) -> Result<u32, InputFault>
    requires { shape.maxval ≤ MAX_MAXVAL }
    ensures most { IfOk result (λ count. count ≤ most) }
    ensures taken { IfOk result (λ count. TakesPlain shape count (held_of input.old) (held_of input.new)
        samples.old.items samples.new.items) }
    ensures reader { input.new.reader ≡ input.old.reader }
    ensures ended { input.new.ended ≡ input.old.ended }
    ensures refused { IfErr result (λ fault. fault ≡ Memory) }
{
    let each = shape.row_length() as usize;
    let mut size = each.saturating_mul(USUAL_BYTES);
    for count in 0..most {
        if input.bytes().len() < size {
            return Ok(count);
        }
        let before = samples.len();
        let wanted = before.saturating_add(each);
        let Ok(row_size) = take_samples(input.bytes(), shape, wanted, samples) else {
            return Err(InputFault::Memory);
        };
        if samples.len() < wanted {
            samples.truncate(before);
            return Ok(count);
        }
        input.advance(row_size);
        size = row_size;
    }
    Ok(most)
}

/// `count` rows of these samples, held as those of a raw raster are.
///
/// # Errors
///
/// `Memory` if there is none for them.
fn rows_of(
    alloc: Global,
    samples: Vec<u16>,
    raster: &Raster,
    count: u32,
) -> Result<Rows, InputFault>
    requires some { 1 ≤ count }
    requires size { length samples.items ≡ count * row_length raster.now.shape }
    requires within { All (λ sample. sample ≤ greatest_in raster.now.shape.kind raster.now.shape.maxval) samples.items }
    ensures rows { IfOk result (λ rows. rows ≡ cut_rows count (row_length raster.now.shape) samples.items) }
    ensures refused { IfErr result (λ fault. fault ≡ Memory) }
{
    let each = raster.shape.row_length() as usize;
    let maxval = raster.shape.maxval;
    match raster.sample_width {
        SampleWidth::Bits => {
            let Ok(rows) = BitRows::from_pixels(alloc, samples.as_slice(), count as usize, each)
            else {
                return Err(InputFault::Memory);
            };
            Ok(Rows::new(RowVec::Bits(rows), GREATEST_PIXEL, count, each))
        }
        SampleWidth::Bytes => {
            let Ok(bytes) = words_to_bytes(alloc, samples.as_slice()) else {
                return Err(InputFault::Memory);
            };
            Ok(Rows::new(RowVec::Bytes(bytes), maxval, count, each))
        }
        SampleWidth::Words => Ok(Rows::new(RowVec::Words(samples), maxval, count, each)),
    }
}

/// The next sample.
fn read_sample<R: BytesIn>(
    input: &mut BufferedReader<R>,
    kind: Kind,
    maxval: u32,
) -> Result<u16, InputFault>
    requires { maxval ≤ MAX_MAXVAL }
    ensures { ReadCall R.left R.failures R.same input.old input.new result (Finds (plain_sample kind maxval) result) }
{
    match kind {
        Kind::Bit => read_pixel(input),
        Kind::Gray | Kind::Color | Kind::Pam => read_decimal(input, maxval),
    }
}

/// The next pixel as a sample.
#[tactic(auto, unfolding(crate::specs::Items::plain_pixel))]
fn read_pixel<R: BytesIn>(input: &mut BufferedReader<R>) -> Result<u16, InputFault>
    ensures { ReadCall R.left R.failures R.same input.old input.new result (Finds plain_pixel result) }
{
    let mut pixel = PixelScanner::new();
    scan(input, &mut pixel)?;
    Ok(pixel.pixel())
}

/// The next number, at most the maxval.
#[tactic(auto, unfolding(crate::specs::Items::plain_decimal))]
fn read_decimal<R: BytesIn>(input: &mut BufferedReader<R>, maxval: u32) -> Result<u16, InputFault>
    requires { maxval ≤ MAX_MAXVAL }
    ensures { ReadCall R.left R.failures R.same input.old input.new result (Finds (plain_decimal maxval) result) }
{
    let mut number = DecimalScanner::new();
    scan(input, &mut number)?;
    let value = number.value();
    if value > maxval {
        return Err(InputFault::SampleAboveMaxval);
    }
    Ok(value as u16)
}

/// Checks that the input ends after the last sample, or goes on with white space or a comment.
#[tactic(auto, unfolding(crate::specs::Items::after_last_item))]
fn check_end<R: BytesIn>(input: &mut BufferedReader<R>) -> Result<(), InputFault>
    ensures { ReadCall R.left R.failures R.same input.old input.new result (Passes after_last_item result) }
{
    input.fill(1)?;
    match input.bytes().first() {
        Some(byte) if !is_apart(*byte) => Err(InputFault::BadSample),
        _ => Ok(()),
    }
}
