//! Rows that are handed over together.

ghost use Rattle.std.specs.Prelude.{◌≡◌, ℕ, IsTrue};
ghost use Rattle.std.specs.List.{AllByRecursion};
ghost use Rattle.pnm_image.specs.Heads.{row_length};
ghost use Rattle.pnm_image.specs.Places.{IsRowOf};
ghost use Rattle.pnm_image.specs.Rows.{rows_list};
ghost use Rattle.pnm_image.specs.SampleWidths.{sample_width_of};
ghost use Rattle.pnm_write.specs.Internal.Encoding.{rows_bytes, AreWholeBytes};
ghost use Rattle.pnm_write.specs.Internal.WriteCalls.{WriteCall};

use crate::row::write_samples;
use crate::write_buffer::WriteBuffer;
use pnm_image::{
    BytesOut, DeviceFailed, Form, RepeatedRows, RowSlice, Rows, SampleSlice, SampleWidth, Shape,
    write_all,
};

/// Writes rows of an image of this shape as often as they come, if some do.
pub fn write_repeated<W: BytesOut>(
    writer: &mut W,
    buffer: &mut WriteBuffer,
    form: Form,
    shape: Shape,
    rows: &Option<RepeatedRows>,
) -> Result<(), DeviceFailed>
    requires { AllByRecursion (IsRowOf shape) (rows_list rows.now) }
    ensures { WriteCall W.held W.failures W.same writer.old writer.new result
        (rows_bytes form shape (rows_list rows.now)) }
{
    let Some(rows) = rows else {
        return Ok(());
    };
    let (held, times) = rows.parts();
    for _time in 0..times {
        write_rows(writer, buffer, form, shape, held)?;
    }
    Ok(())
}

/// Writes rows of an image of this shape: all at once, if their bytes are the same as those of one long row.
#[inline(never)]
pub fn write_rows<W: BytesOut>(
    writer: &mut W,
    buffer: &mut WriteBuffer,
    form: Form,
    shape: Shape,
    rows: &Rows,
) -> Result<(), DeviceFailed>
    requires { AllByRecursion (IsRowOf shape) rows.now }
    ensures { WriteCall W.held W.failures W.same writer.old writer.new result (rows_bytes form shape rows.now) }
{
    let sample_width = SampleWidth::of(shape.kind, shape.maxval);
    if form == Form::Raw && has_whole_samples(sample_width) {
        return write_as_one(writer, buffer, shape, rows);
    }
    match (form, sample_width, rows.as_slice()) {
        (Form::Raw, SampleWidth::Bits, RowSlice::Bits(bits)) => write_all(writer, bits.parts().0),
        _ => write_each(writer, buffer, form, shape, rows),
    }
}

/// Writes rows of samples of whole bytes in raw form, as one row if they are held so.
fn write_as_one<W: BytesOut>(
    writer: &mut W,
    buffer: &mut WriteBuffer,
    shape: Shape,
    rows: &Rows,
) -> Result<(), DeviceFailed>
    requires rows { AllByRecursion (IsRowOf shape) rows.now }
    requires whole { AreWholeBytes (sample_width_of shape.kind shape.maxval) (row_length shape) }
    ensures { WriteCall W.held W.failures W.same writer.old writer.new result (rows_bytes Form.Raw shape rows.now) }
{
    match rows.as_slice() {
        RowSlice::Bytes(bytes) => {
            write_samples(writer, buffer, Form::Raw, shape, SampleSlice::Bytes(bytes))
        }
        RowSlice::Words(words) => {
            write_samples(writer, buffer, Form::Raw, shape, SampleSlice::Words(words))
        }
        RowSlice::Bits(_) => write_each(writer, buffer, Form::Raw, shape, rows),
    }
}

/// Writes one row after another.
fn write_each<W: BytesOut>(
    writer: &mut W,
    buffer: &mut WriteBuffer,
    form: Form,
    shape: Shape,
    rows: &Rows,
) -> Result<(), DeviceFailed>
    requires { AllByRecursion (IsRowOf shape) rows.now }
    ensures { WriteCall W.held W.failures W.same writer.old writer.new result (rows_bytes form shape rows.now) }
{
    for at in 0..rows.count() {
        write_samples(writer, buffer, form, shape, rows.row_slice(at))?;
    }
    Ok(())
}

/// Returns whether a sample has bytes of its own, so that rows of any length are whole bytes.
fn has_whole_samples(sample_width: SampleWidth) -> bool
    ensures { IsTrue result → (each : ℕ) → AreWholeBytes sample_width each }
{
    match sample_width {
        SampleWidth::Bits => false,
        SampleWidth::Bytes | SampleWidth::Words => true,
    }
}
