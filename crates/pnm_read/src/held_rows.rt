//! The rows of a raw raster that are held whole.

ghost use Rattle.std.specs.Prelude.{◌≡◌, ◌≤◌, ◌*◌, ◌-◌, false, IfOk, IfErr, IfSome, IsTrue, Ok, None, length};
ghost use Rattle.pnm_image.specs.Formats.{is_plain_form};
ghost use Rattle.pnm_image.specs.Rows.{rows_list};
ghost use Rattle.pnm_read.specs.declared.fault.InputFault.TheVariants.{Memory};
ghost use Rattle.pnm_read.specs.BufferedReaders.{held_of};
ghost use Rattle.pnm_read.specs.Internal.RasterRows.{FitsBytes, AreHeld, AreHeldWide, TakesRows, rows_held};
ghost use Rattle.pnm_read.specs.Internal.Units.{AreBytesWithin};

use crate::buffered_reader::BufferedReader;
use crate::fault::InputFault;
use crate::raster::Raster;
use crate::spare_rows::SpareRows;
use crate::units::{append_wide, are_units_within};
use pnm_image::{BitRows, BytesIn, RowVec, Rows, SampleWidth};

/// The most bytes of a row for which a read goes into the buffer first, so that the rows behind it come with it. What
/// is missing of a longer one goes straight into the row.
const MOST_ROW_BYTES: usize = 16_384;

/// The sample of a white pixel, which none is above.
const GREATEST_PIXEL: u32 = 1;

/// Whether the held bytes determine the next row of the raster.
pub fn holds_row<R: BytesIn>(input: &BufferedReader<R>, raster: &Raster) -> bool {
    let wanted = if raster.format.is_plain() {
        usize::MAX
    } else {
        raster.row_bytes()
    };
    input.holds(wanted)
}

/// How many bytes have to be held before rows are taken, where `bytes` are held: those of the next row, if it is short,
/// isn't held whole, and has no sample above the maxval in `bytes`. Otherwise 0.
pub fn wanted_ahead(bytes: &[u8], raster: &Raster) -> usize {
    let wanted = raster.row_bytes();
    if wanted > MOST_ROW_BYTES || bytes.len() >= wanted {
        return 0;
    }
    let maxval = raster.shape.maxval;
    let are_within = match raster.sample_width {
        SampleWidth::Bits | SampleWidth::Bytes => {
            are_units_within(bytes, raster.sample_width, maxval)
        }
        SampleWidth::Words => bytes.chunks_exact(2).all(|pair| u32::from(u16::from_be_bytes([
            pair[0], pair[1],
        ])) <= maxval),
    };
    if are_within { wanted } else { 0 }
}

/// The next rows of a raster together, if it is raw: as many as are held whole, of which those from a sample above the
/// maxval on stay behind, and maybe some before them. `None` if these are none; nothing is taken then.
///
/// # Errors
///
/// `Memory` if there is none for them. Nothing is taken then.
pub fn take<R: BytesIn>(
    input: &mut BufferedReader<R>,
    spares: &mut SpareRows,
    raster: &Raster,
) -> Result<Option<Rows>, InputFault>
    ensures raw { IfOk result (λ r. IfSome r (λ _. is_plain_form raster.now.format.form ≡ false)) }
    ensures some { IfOk result (λ r. IfSome r (λ rows. 1 ≤ length rows)) }
    ensures left { IfOk result (λ r. length (rows_list r) ≤ raster.now.shape.height - raster.now.y) }
    ensures rows { IfOk result (λ r. IfSome r (λ rows. TakesRows raster.now.shape (length rows) rows
        (held_of input.old) (held_of input.new))) }
    ensures none { result ≡ Ok None → input.new ≡ input.old }
    ensures reader { input.new.reader ≡ input.old.reader }
    ensures ended { input.new.ended ≡ input.old.ended }
    ensures refused { IfErr result (λ fault. (fault ≡ Memory) × (input.new ≡ input.old)) }
{
    if raster.format.is_plain() {
        return Ok(None);
    }
    let left = raster.shape.height - raster.y;
    let count = count_whole(input.bytes(), raster.row_bytes(), left);
    match raster.sample_width {
        SampleWidth::Bits | SampleWidth::Bytes => {
            let count = count_within(input.bytes(), raster, count);
            if count == 0 {
                return Ok(None);
            }
            let rows = take_rows(input, spares, raster, count)?;
            Ok(Some(rows))
        }
        SampleWidth::Words => take_wide(input, raster, count),
    }
}

/// How many rows of `row_bytes` bytes lie in `bytes`, at most `most`.
fn count_whole(bytes: &[u8], row_bytes: usize, most: u32) -> u32
    ensures most { result ≤ most }
    ensures held { result * row_bytes ≤ length bytes.now }
{
    if row_bytes == 0 {
        return 0;
    }
    (bytes.len() / row_bytes).min(most as usize) as u32
}

/// `count`, or fewer rows if one of so many has a sample above the maxval. 0 if the samples of a row aren't the first
/// of its bytes.
fn count_within(bytes: &[u8], raster: &Raster, count: u32) -> u32
    requires { count * raster.now.units ≤ length bytes.now }
    ensures most { result ≤ count }
    ensures held { 1 ≤ result → AreHeld raster.now result bytes.now }
{
    if !fits_bytes(raster) {
        return 0;
    }
    let mut count = count;
    while count > 0 {
        let size = count as usize * raster.units;
        if are_units_within(&bytes[..size], raster.sample_width, raster.shape.maxval) {
            return count;
        }
        count /= 2;
    }
    0
}

/// Whether the samples of a row of the raster are the first of its bytes, and there is no byte more. False for samples
/// of two bytes.
fn fits_bytes(raster: &Raster) -> bool
    ensures { IsTrue result → FitsBytes raster.now.sample_width raster.now.shape }
{
    match raster.sample_width {
        SampleWidth::Bits => raster.shape.row_length().div_ceil(8) == raster.units as u64,
        SampleWidth::Bytes => true,
        SampleWidth::Words => false,
    }
}

/// The next `count` rows, which are held: in the memory of a spare row, if they fit in it.
///
/// # Errors
///
/// `Memory` if there is none for them.
fn take_rows<R: BytesIn>(
    input: &mut BufferedReader<R>,
    spares: &mut SpareRows,
    raster: &Raster,
    count: u32,
) -> Result<Rows, InputFault>
    requires some { 1 ≤ count }
    requires held { AreHeld raster.now count (held_of input.old) }
    ensures count { IfOk result (λ rows. length rows ≡ count) }
    ensures rows { IfOk result (λ rows. TakesRows raster.now.shape count rows
        (held_of input.old) (held_of input.new)) }
    ensures reader { input.new.reader ≡ input.old.reader }
    ensures ended { input.new.ended ≡ input.old.ended }
    ensures refused { IfErr result (λ fault. (fault ≡ Memory) × (input.new ≡ input.old)) }
{
    let held = input.bytes();
    let size = count as usize * raster.units;
    let Ok(copy) = spares.copy_of(input.allocator(), &held[..size]) else {
        return Err(InputFault::Memory);
    };
    let rows = rows_of(copy, raster, count);
    input.advance(size);
    Ok(rows)
}

/// The `count` rows that the bytes hold.
fn rows_of(bytes: Vec<u8>, raster: &Raster, count: u32) -> Rows
    requires some { 1 ≤ count }
    requires size { length bytes.items ≡ count * raster.now.units }
    requires fits { FitsBytes raster.now.sample_width raster.now.shape }
    requires within { AreBytesWithin raster.now.sample_width raster.now.shape.maxval bytes.items }
    ensures { result ≡ rows_held raster.now.sample_width raster.now.shape count bytes.items }
{
    let each = raster.shape.row_length() as usize;
    match raster.sample_width {
        SampleWidth::Bits => {
            let bits = BitRows::new(bytes, count as usize, each);
            Rows::new(RowVec::Bits(bits), GREATEST_PIXEL, count, each)
        }
        SampleWidth::Bytes | SampleWidth::Words => {
            Rows::new(RowVec::Bytes(bytes), raster.shape.maxval, count, each)
        }
    }
}

/// The next rows of samples of two bytes, as `take` gives them, of `count` that are held whole.
///
/// # Errors
///
/// `Memory` if there is none for them.
fn take_wide<R: BytesIn>(
    input: &mut BufferedReader<R>,
    raster: &Raster,
    count: u32,
) -> Result<Option<Rows>, InputFault>
    requires held { AreHeldWide raster.now count (held_of input.old) }
    ensures some { IfOk result (λ r. IfSome r (λ rows. 1 ≤ length rows)) }
    ensures most { IfOk result (λ r. length (rows_list r) ≤ count) }
    ensures rows { IfOk result (λ r. IfSome r (λ rows. TakesRows raster.now.shape (length rows) rows
        (held_of input.old) (held_of input.new))) }
    ensures none { result ≡ Ok None → input.new ≡ input.old }
    ensures reader { input.new.reader ≡ input.old.reader }
    ensures ended { input.new.ended ≡ input.old.ended }
    ensures refused { IfErr result (λ fault. (fault ≡ Memory) × (input.new ≡ input.old)) }
{
    let mut count = count;
    while count > 0 {
        match take_words(input, raster, count) {
            Ok(Some(rows)) => return Ok(Some(rows)),
            Ok(None) => {}
            Err(fault) => return Err(fault),
        }
        count /= 2;
    }
    Ok(None)
}

/// The next `count` rows of samples of two bytes, which are held. `None` if one of them has a sample above the maxval;
/// nothing has changed then.
///
/// # Errors
///
/// `Memory` if there is none for them.
fn take_words<R: BytesIn>(
    input: &mut BufferedReader<R>,
    raster: &Raster,
    count: u32,
) -> Result<Option<Rows>, InputFault>
    requires some { 1 ≤ count }
    requires held { AreHeldWide raster.now count (held_of input.old) }
    ensures count { IfOk result (λ r. IfSome r (λ rows. length rows ≡ count)) }
    ensures rows { IfOk result (λ r. IfSome r (λ rows. TakesRows raster.now.shape count rows
        (held_of input.old) (held_of input.new))) }
    ensures none { result ≡ Ok None → input.new ≡ input.old }
    ensures reader { input.new.reader ≡ input.old.reader }
    ensures ended { input.new.ended ≡ input.old.ended }
    ensures refused { IfErr result (λ fault. (fault ≡ Memory) × (input.new ≡ input.old)) }
{
    let held = input.bytes();
    let size = count as usize * raster.units * 2;
    let Ok(mut samples) = Vec::with_capacity(input.allocator(), count as usize * raster.units)
    else {
        return Err(InputFault::Memory);
    };
    match append_wide(&held[..size], raster.shape.maxval, &mut samples) {
        Ok(()) => {}
        Err(InputFault::SampleAboveMaxval) => return Ok(None),
        Err(_) => return Err(InputFault::Memory),
    }
    let maxval = raster.shape.maxval;
    let rows = Rows::new(RowVec::Words(samples), maxval, count, raster.units);
    input.advance(size);
    Ok(Some(rows))
}
