//! The rows of images.

ghost use Rattle.std.specs.Prelude.{◌≡◌, ◌≤◌, ◌+◌, All, length, take, drop};
ghost use Rattle.pnm_write.specs.Encoding.{row_bytes};
ghost use Rattle.pnm_samples.specs.Internal.Pixels.{AreBytes};
ghost use Rattle.pnm_samples.specs.SampleVecs.{HasWhiteSpare, slice_samples};
ghost use Rattle.pnm_write.specs.Internal.WriteCalls.{WriteCall};

use crate::plain::write_lines;
use crate::raw::most_samples;
use crate::write_buffer::WriteBuffer;
use pnm_image::{BytesOut, DeviceFailed, Form, SampleSlice, SampleWidth, Shape, write_all};

/// The most samples that are copied at a time, a number of whole bytes of pixels.
const MOST_SAMPLES: usize = 2048;

/// Writes the samples of a row of an image of this shape.
#[inline(always)]
pub fn write_samples<W: BytesOut>(
    writer: &mut W,
    buffer: &mut WriteBuffer,
    form: Form,
    shape: Shape,
    row: SampleSlice<'_>,
) -> Result<(), DeviceFailed>
    requires range { All (λ sample. sample ≤ shape.maxval) (slice_samples row) }
    requires spare { HasWhiteSpare row }
    ensures { WriteCall W.held W.failures W.same writer.old writer.new result
        (row_bytes form shape (slice_samples row.entry)) }
{
    match form {
        Form::Raw => write_raw(writer, buffer, shape, row),
        Form::Plain => write_lines(writer, buffer, shape, row),
    }
}

/// Writes the samples of a raw row, without a copy if they are held as bits or bytes and the file has the same width.
#[inline(always)]
fn write_raw<W: BytesOut>(
    writer: &mut W,
    buffer: &mut WriteBuffer,
    shape: Shape,
    row: SampleSlice<'_>,
) -> Result<(), DeviceFailed>
    requires range { All (λ sample. sample ≤ shape.maxval) (slice_samples row) }
    requires spare { HasWhiteSpare row }
    ensures { WriteCall W.held W.failures W.same writer.old writer.new result
        (row_bytes Form.Raw shape (slice_samples row.entry)) }
{
    match (SampleWidth::of(shape.kind, shape.maxval), row) {
        (SampleWidth::Bits, SampleSlice::Bits(bytes, _)) => write_all(writer, bytes_of(bytes)),
        (SampleWidth::Bytes, SampleSlice::Bytes(bytes)) => write_all(writer, bytes),
        (_, SampleSlice::Words(words)) => write_words(writer, buffer, shape, words),
        _ => write_others(writer, buffer, shape, row, count_of(row)),
    }
}

/// Returns the same bytes. A proof learns from the call that each one is below 256.
fn bytes_of(bytes: &[u8]) -> &[u8]
    ensures same { result.now ≡ bytes.now }
    ensures fit { AreBytes result.now }
{
    bytes
}

/// Returns the number of samples.
pub fn count_of(row: SampleSlice<'_>) -> usize
    requires { HasWhiteSpare row }
    ensures { length (slice_samples row.entry) ≡ result }
{
    match row {
        SampleSlice::Bits(_, count) => count,
        SampleSlice::Bytes(bytes) => bytes.len(),
        SampleSlice::Words(words) => words.len(),
    }
}

/// Writes `count` samples that aren't held in the width that the file has, some at a time. It isn't inlined, since its
/// callers' stack frames would then need room for its samples, too.
#[inline(never)]
fn write_others<W: BytesOut>(
    writer: &mut W,
    buffer: &mut WriteBuffer,
    shape: Shape,
    row: SampleSlice<'_>,
    count: usize,
) -> Result<(), DeviceFailed>
    requires count { length (slice_samples row) ≡ count }
    requires range { All (λ sample. sample ≤ shape.maxval) (slice_samples row) }
    ensures { WriteCall W.held W.failures W.same writer.old writer.new result
        (row_bytes Form.Raw shape (slice_samples row.entry)) }
{
    let sample_width = SampleWidth::of(shape.kind, shape.maxval);
    let mut words = [0; MOST_SAMPLES];
    let mut done = 0;
    while done < count {
        let size = (count - done).min(MOST_SAMPLES);
        row.copy_to(done, &mut words[..size]);
        buffer.fill(sample_width, &words[..size]);
        write_all(writer, buffer.as_slice())?;
        done += size;
    }
    Ok(())
}

/// Writes the samples of a raw row, as many at a time as there is room for.
fn write_words<W: BytesOut>(
    writer: &mut W,
    buffer: &mut WriteBuffer,
    shape: Shape,
    samples: &[u16],
) -> Result<(), DeviceFailed>
    requires { All (λ sample. sample ≤ shape.maxval) samples.now }
    ensures { WriteCall W.held W.failures W.same writer.old writer.new result (row_bytes Form.Raw shape samples.now) }
{
    let sample_width = SampleWidth::of(shape.kind, shape.maxval);
    let most = most_samples(sample_width);
    let mut rest = samples;
    while !rest.is_empty() {
        let count = rest.len().min(most);
        let (part, after) = rest.split_at(count);
        buffer.fill(sample_width, part);
        write_all(writer, buffer.as_slice())?;
        rest = after;
    }
    Ok(())
}
