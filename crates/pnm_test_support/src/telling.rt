//! How an answer is printed: a word for each message, with a blank before it.

use super::digest::Crc32;
use pnm_image::{Head, Message, SampleSlice, Samples};
use std::alloc::AllocError;
use std::fmt;

/// A row of more samples is printed as their number and their CRC-32.
const MOST_SAMPLES: usize = 64;

/// Adds a message.
pub fn write_message(out: &mut String, message: &Message) -> Result<(), AllocError> {
    match message {
        Message::Begin(head) => write_head(out, head),
        Message::Row(row) => write_row(out, row),
        Message::ImageEnd => out.push_str(" ImageEnd"),
        Message::StreamEnd => out.push_str(" StreamEnd"),
        Message::Stop => out.push_str(" Stop"),
    }
}

/// Adds the kind of an image, its width, height, depth and maxval, and its tuple type, unless it is empty.
pub fn write_head(out: &mut String, head: &Head) -> Result<(), AllocError> {
    let shape = head.shape();
    let (kind, width, height) = (shape.kind, shape.width, shape.height);
    let (depth, maxval) = (shape.depth, shape.maxval);
    write!(out, " {kind:?} {width} {height} {depth} {maxval}")?;
    if !head.tuple_type().is_empty() {
        out.push_str(" (")?;
        write_bytes(out, head.tuple_type())?;
        out.push(')')?;
    }
    Ok(())
}

/// Adds bytes in the form of cases: a backslash, a line feed, and what isn't printed, with escapes.
fn write_bytes(out: &mut String, bytes: &[u8]) -> Result<(), AllocError> {
    for byte in bytes {
        write_byte(out, *byte)?;
    }
    Ok(())
}

/// Adds a byte in the form of cases.
fn write_byte(out: &mut String, byte: u8) -> Result<(), AllocError> {
    match byte {
        b'\\' => out.push_str("\\\\"),
        b' '..=b'~' => out.push(char::from(byte)),
        b'\n' => out.push_str("\\n"),
        _ => write!(out, "\\x{byte:02x}"),
    }
}

/// A text of more bytes is printed as their number and their CRC-32.
const MOST_BYTES: usize = 200;

/// Adds a text in the form of cases, or how many bytes it has and their CRC-32.
pub fn write_text(out: &mut String, text: &[u8]) -> Result<(), AllocError> {
    if text.is_empty() {
        return out.push_str(" no bytes");
    }
    if text.len() <= MOST_BYTES {
        out.push(' ')?;
        return write_bytes(out, text);
    }
    let mut crc = Crc32::new();
    crc.add(text);
    let (count, number) = (text.len(), crc.number());
    write!(out, " {count} bytes {number:08x}")
}

/// Adds the samples of a row, or how many there are and their CRC-32.
pub fn write_row(out: &mut String, row: &Samples) -> Result<(), AllocError> {
    if row.len() > MOST_SAMPLES {
        return write_long_row(out, row);
    }
    out.push_str(" [")?;
    for at in 0..row.len() {
        if at > 0 {
            out.push(' ')?;
        }
        let sample = row.sample(at);
        write!(out, "{sample}")?;
    }
    out.push(']')
}

/// Adds how many samples a row has, and the CRC-32 of them, each of two bytes.
fn write_long_row(out: &mut String, row: &Samples) -> Result<(), AllocError> {
    let mut crc = Crc32::new();
    for at in 0..row.len() {
        crc.add(&row.sample(at).to_be_bytes());
    }
    let (count, number) = (row.len(), crc.number());
    write!(out, " [{count} samples {number:08x}]")
}

/// Adds each of these values as it prints itself.
pub fn write_all<T: fmt::Display>(out: &mut String, all: &[T]) -> Result<(), AllocError> {
    for one in all {
        write!(out, " {one}")?;
    }
    Ok(())
}

/// Returns the name of the width of a row's samples.
pub fn width_of(row: SampleSlice<'_>) -> &'static str {
    match row {
        SampleSlice::Bits(_, _) => " bits",
        SampleSlice::Bytes(_) => " bytes",
        SampleSlice::Words(_) => " words",
    }
}

/// Adds a number and the answers, unless the answers are the same as before.
pub fn write_change(
    out: &mut String,
    number: usize,
    before: &mut String,
    answers: String,
) -> Result<(), AllocError> {
    if answers.as_str() != before.as_str() {
        write!(out, " | {number}:")?;
        out.push_str(answers.as_str())?;
        *before = answers;
    }
    Ok(())
}
