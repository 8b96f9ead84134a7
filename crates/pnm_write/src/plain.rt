//! The rows of plain images: their samples as words in lines.

ghost use Rattle.std.specs.Prelude.{◌≡◌, ◌+◌, ◌*◌, ◌^◌, ◌<◌, ◌≤◌, All, ◌++◌, length, map, take, drop};
ghost use Rattle.std.specs.Io.KnownBytes.{Appends};
ghost use Rattle.pnm_image.specs.declared.shape.Kind.{Kind};
ghost use Rattle.pnm_samples.specs.Pixels.{all_pixels};
ghost use Rattle.pnm_samples.specs.SampleVecs.{HasWhiteSpare, slice_samples};
ghost use Rattle.pnm_write.specs.PlainRows.{sample_text, plain_row_text};
ghost use Rattle.pnm_write.specs.Internal.PlainParts.{column_after, word_in_line, text_of_part, column_after_part};
ghost use Rattle.pnm_write.specs.Internal.PlainParts.{sample_texts};
ghost use Rattle.pnm_write.specs.Internal.PlainParts.{row_end};
ghost use Rattle.pnm_write.specs.Internal.WriteCalls.{WriteCall};

use crate::numerals::{MAX_LINE_LENGTH, Numeral};
use crate::row::count_of;
use crate::write_buffer::WriteBuffer;
use itoa::Buffer;
use pnm_image::{BytesOut, DeviceFailed, Kind, SampleSlice, Shape, write_all};

/// The most samples that are written at a time. Each has up to five digits, and a byte before it.
const MOST_SAMPLES: usize = 680;

/// The most pixels that are written at a time: 245 whole bytes, and 56 whole lines.
const MOST_PIXELS: usize = 1960;

/// Writes the samples of a row of an image of this shape: in lines as long as they can be.
pub fn write_lines<W: BytesOut>(
    writer: &mut W,
    buffer: &mut WriteBuffer,
    shape: Shape,
    row: SampleSlice<'_>,
) -> Result<(), DeviceFailed>
    requires range { All (λ sample. sample ≤ shape.maxval) (slice_samples row) }
    requires spare { HasWhiteSpare row }
    ensures { WriteCall W.held W.failures W.same writer.old writer.new result
        (plain_row_text shape.kind (slice_samples row.entry)) }
{
    match (shape.kind, row) {
        (Kind::Bit, SampleSlice::Bits(bytes, count)) => write_pixels(writer, buffer, bytes, count),
        (Kind::Gray | Kind::Color | Kind::Pam, SampleSlice::Bytes(bytes)) => write_numbers(
            writer, buffer, bytes,
        ),
        (Kind::Gray | Kind::Color | Kind::Pam, SampleSlice::Words(words)) => write_numbers(
            writer, buffer, words,
        ),
        _ => write_others(writer, buffer, shape, row, count_of(row)),
    }
}

/// Writes the first `count` pixels of the bytes, whole bytes and whole lines at a time.
fn write_pixels<W: BytesOut>(
    writer: &mut W,
    buffer: &mut WriteBuffer,
    bytes: &[u8],
    count: usize,
) -> Result<(), DeviceFailed>
    requires { count ≤ 8 * length bytes.now }
    ensures { WriteCall W.held W.failures W.same writer.old writer.new result
        (plain_row_text Kind.Bit (take count (all_pixels bytes.now))) }
{
    let mut rest = bytes;
    let mut left = count;
    while left > 0 {
        let size = left.min(MOST_PIXELS);
        let (part, after) = rest.split_at((size + 7) / 8);
        buffer.set_pixels(part, size);
        write_all(writer, buffer.as_slice())?;
        rest = after;
        left -= size;
    }
    Ok(())
}

/// Writes numbers.
fn write_numbers<W: BytesOut, N: Numeral>(
    writer: &mut W,
    buffer: &mut WriteBuffer,
    numbers: &[N],
) -> Result<(), DeviceFailed>
    requires { All (λ number. number < 2 ^ 64) (map N.value numbers.now) }
    ensures { WriteCall W.held W.failures W.same writer.old writer.new result
        (plain_row_text Kind.Gray (map N.value numbers.now)) }
{
    let mut column = 0;
    let mut rest = numbers;
    while !rest.is_empty() {
        let count = rest.len().min(MOST_SAMPLES);
        let (part, after) = rest.split_at(count);
        column = set_numbers(buffer, column, part);
        end_row(buffer, after.is_empty());
        write_all(writer, buffer.as_slice())?;
        rest = after;
    }
    Ok(())
}

/// Writes a row of `count` samples that aren't held in the width of their kind. It isn't inlined, since its callers'
/// stack frames would then need room for its samples, too.
#[inline(never)]
fn write_others<W: BytesOut>(
    writer: &mut W,
    buffer: &mut WriteBuffer,
    shape: Shape,
    row: SampleSlice<'_>,
    count: usize,
) -> Result<(), DeviceFailed>
    requires count { length (slice_samples row) ≡ count }
    requires range { All (λ sample. sample ≤ shape.maxval) (slice_samples row) }
    ensures { WriteCall W.held W.failures W.same writer.old writer.new result
        (plain_row_text shape.kind (slice_samples row.entry)) }
{
    // No effect at run time: a proof learns from this that the maxval keeps the rules of shapes.
    let _ = shape.maxval;
    let mut words = [0; MOST_SAMPLES];
    let mut column = 0;
    let mut done = 0;
    while done < count {
        let size = (count - done).min(MOST_SAMPLES);
        row.copy_to(done, &mut words[..size]);
        column = set_part(buffer, shape.kind, column, &words[..size]);
        done += size;
        end_row(buffer, done == count);
        write_all(writer, buffer.as_slice())?;
    }
    Ok(())
}

/// Puts a part of a row of numbers into the buffer, and returns how many bytes its last line has.
fn set_numbers<N: Numeral>(buffer: &mut WriteBuffer, column: usize, numbers: &[N]) -> usize
    requires some { 0 < length numbers.now }
    requires few { length numbers.now ≤ 680 }
    requires line { column ≤ 70 }
    ensures text { buffer.new ≡ text_of_part column (sample_texts Kind.Gray (map N.value numbers.now)) }
    ensures count { length buffer.new ≤ 4080 }
    ensures column { result ≡ column_after_part column (sample_texts Kind.Gray (map N.value numbers.now)) }
    ensures line { result ≤ 70 }
{
    buffer.clear();
    let at = push_sample(buffer, Kind::Gray, column, numbers[0].number());
    buffer.append_numbers(at, &numbers[1..])
}

/// Puts a part of a row into the buffer, and returns how many bytes its last line has.
fn set_part(buffer: &mut WriteBuffer, kind: Kind, column: usize, samples: &[u16]) -> usize
    requires few { length samples.now ≤ 680 }
    requires line { column ≤ 70 }
    ensures text { buffer.new ≡ text_of_part column (sample_texts kind samples.now) }
    ensures count { length buffer.new ≤ 4080 }
    ensures column { result ≡ column_after_part column (sample_texts kind samples.now) }
    ensures line { result ≤ 70 }
{
    buffer.clear();
    let mut at = column;
    for sample in samples {
        at = push_sample(buffer, kind, at, *sample);
    }
    at
}

/// Ends the line if the row ends.
fn end_row(buffer: &mut WriteBuffer, is_end: bool)
    requires { length buffer.old < 4096 }
    ensures { buffer.new ≡ buffer.old ++ row_end is_end }
{
    if is_end {
        buffer.push(&[b'\n']);
    }
}

/// Appends a sample, and returns how many bytes the line has then.
#[tactic(auto, using(std::proofs::lemmas::Fmt::decimal_nonempty))]
fn push_sample(buffer: &mut WriteBuffer, kind: Kind, column: usize, sample: u16) -> usize
    requires room { length buffer.old + 6 ≤ 4096 }
    requires line { column ≤ 70 }
    ensures text { buffer.new ≡ buffer.old ++ word_in_line column (sample_text kind sample) }
    ensures count { length buffer.new ≤ length buffer.old + 6 }
    ensures column { result ≡ column_after column (sample_text kind sample) }
    ensures begun { 0 < result }
    ensures line { result ≤ 70 }
{
    match kind {
        Kind::Bit => {
            let pixel = [49_u16.saturating_sub(sample) as u8];
            push_word(buffer, column, &pixel)
        }
        Kind::Gray | Kind::Color | Kind::Pam => {
            let mut digits = Buffer::new();
            push_word(buffer, column, digits.format(sample).as_bytes())
        }
    }
}

/// Appends a word: in this line if it has room for it, and otherwise in the next.
fn push_word(buffer: &mut WriteBuffer, column: usize, word: &[u8]) -> usize
    requires room { length buffer.old + 1 + length word.now ≤ 4096 }
    requires short { length word.now ≤ 5 }
    requires line { column ≤ 70 }
    ensures text { buffer.new ≡ buffer.old ++ word_in_line column word.now }
    ensures count { length buffer.new ≤ length buffer.old + 1 + length word.now }
    ensures column { result ≡ column_after column word.now }
    ensures begun { 0 < length word.now → 0 < result }
    ensures line { result ≤ 70 }
{
    if column == 0 {
        buffer.push(word);
        word.len()
    } else if column + 1 + word.len() <= MAX_LINE_LENGTH {
        buffer.push(b" ");
        buffer.push(word);
        column + 1 + word.len()
    } else {
        buffer.push(b"\n");
        buffer.push(word);
        word.len()
    }
}
