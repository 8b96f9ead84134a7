//! Messages that are handed over together. Cases and answers have them one after another between braces.

ghost use Rattle.std.specs.Prelude.{◌≡◌, ◌*◌, All, IfOk, length};
ghost use Rattle.pnm_image.specs.HeldRows.{AreRowsWithin};

use super::messages::{Unmade, held_by, messages_of, number_of};
use super::telling::{write_head, write_message, write_row};
use super::writing::{cut_at, cut_number};
use pnm_image::{
    BitRows, Bits, Message, Packet, Part, RepeatedRows, RowVec, Rows, SampleVec, Samples,
};
use std::alloc::{AllocError, Global};

/// Returns the packets of messages that are written one after another. What stands between braces is one packet. Rows
/// are held in as few bits as hold their samples, or in words.
pub fn packets_of(alloc: Global, text: &[u8], is_narrow: bool) -> Result<Vec<Packet>, Unmade> {
    let mut packets = Vec::new(alloc);
    let mut rest = text;
    for _ in 0..text.len() {
        if rest.is_empty() {
            break;
        }
        let (alone, after) = cut_at(rest, b'{');
        for message in messages_of(alloc, alone, is_narrow)? {
            packets.push(Packet::from(message))?;
        }
        let (together, after) = cut_at(after, b'}');
        if !together.is_empty() {
            packets.push(Packet::Part(part_of(alloc, together, is_narrow)?))?;
        }
        rest = after;
    }
    Ok(packets)
}

/// Returns the part of an image between braces: its head, rows and its end, or some of these, behind the number of
/// times that the rows come.
pub fn part_of(alloc: Global, text: &[u8], is_narrow: bool) -> Result<Part, Unmade> {
    let is_counted = text.first().is_some_and(|byte| byte.is_ascii_digit());
    let (times, text) = if is_counted {
        cut_number(text)
    } else {
        (1, text)
    };
    let messages = messages_of(alloc, text, is_narrow)?;
    let (head, rest) = match messages.as_slice() {
        [Message::Begin(head), rest @ ..] => (Some(head.copy()?), rest),
        rest => (None, rest),
    };
    let (rows, ends_image) = match rest {
        [rows @ .., Message::ImageEnd] => (rows, true),
        rows => (rows, false),
    };
    let rows = match rows {
        [] => None,
        rows => Some(RepeatedRows::new(
            rows_among(alloc, rows, is_narrow)?,
            number_of(times).max(1),
        )),
    };
    Part::of(head, rows, ends_image).ok_or(Unmade)
}

/// Returns the rows that these messages are, at least one, each as long as the others.
fn rows_among(alloc: Global, messages: &[Message], is_narrow: bool) -> Result<Rows, Unmade> {
    let row_length = length_of(messages.first());
    let mut samples = Vec::new(alloc);
    for message in messages.iter() {
        add_samples(message, row_length, &mut samples)?;
    }
    let samples = held_by(alloc, samples.as_slice(), is_narrow)?;
    cut_into(alloc, samples, messages.len(), row_length)
}

/// Returns how long a row is, 0 for another message.
fn length_of(message: Option<&Message>) -> usize {
    match message {
        Some(Message::Row(row)) => row.len(),
        _ => 0,
    }
}

/// Adds the samples of a row of this length.
fn add_samples(message: &Message, row_length: usize, samples: &mut Vec<u16>) -> Result<(), Unmade> {
    let Message::Row(row) = message else {
        return Err(Unmade);
    };
    if row.len() != row_length {
        return Err(Unmade);
    }
    for at in 0..row.len() {
        samples.push(row.sample(at))?;
    }
    Ok(())
}

/// Returns the samples as `count` rows of this length, at least one.
pub fn cut_into(
    alloc: Global,
    samples: Samples,
    count: usize,
    row_length: usize,
) -> Result<Rows, Unmade> {
    let Ok(rows) = u32::try_from(count) else {
        return Err(Unmade);
    };
    let size = (rows as usize).checked_mul(row_length);
    if rows == 0 || size != Some(samples.len()) {
        return Err(Unmade);
    }
    let bound = samples.bound();
    Ok(match samples.into_vec() {
        SampleVec::Bits(bits) => {
            let held = rows_of_bits(alloc, &bits, rows as usize, row_length)?;
            Rows::new(RowVec::Bits(held), 1, rows, row_length)
        }
        SampleVec::Bytes(bytes) => Rows::new(RowVec::Bytes(bytes), bound, rows, row_length),
        SampleVec::Words(words) => Rows::new(RowVec::Words(words), bound, rows, row_length),
    })
}

/// Returns the pixels as `count` rows of this length.
fn rows_of_bits(
    alloc: Global,
    pixels: &Bits,
    count: usize,
    row_length: usize,
) -> Result<BitRows, AllocError>
    requires { length pixels.now ≡ count * row_length }
    ensures many { IfOk result (λ rows. length rows ≡ count) }
    ensures each { IfOk result (λ rows. All (λ row. length row ≡ row_length) rows) }
    ensures within { IfOk result (λ rows. AreRowsWithin 1 rows) }
{
    // No effect at run time: a proof learns from this that the pixels are as many as this machine can count.
    let _ = pixels.len();
    let mut bytes = Vec::new(alloc);
    for row in 0..count {
        let mut one = Bits::empty(alloc);
        one.append(pixels, row * row_length, row_length)?;
        bytes.extend_from_slice(one.as_bytes())?;
    }
    Ok(BitRows::new(bytes, count, row_length))
}

/// Adds the messages of a part of an image one after another, rows that repeat each time that they come.
pub fn write_part(alloc: Global, out: &mut String, part: &Part) -> Result<(), AllocError> {
    write_times(alloc, out, part, times_of(part))
}

/// Returns how many times the rows of the part come.
fn times_of(part: &Part) -> u32 {
    match part.parts().1 {
        Some(rows) => rows.parts().1,
        None => 1,
    }
}

/// Adds the messages of a part of an image one after another, its rows `times` times.
fn write_times(alloc: Global, out: &mut String, part: &Part, times: u32) -> Result<(), AllocError> {
    let (head, rows, ends_image) = part.parts();
    if let Some(head) = head {
        write_head(out, head)?;
    }
    if let Some(rows) = rows {
        for _ in 0..times {
            write_rows(alloc, out, rows.parts().0)?;
        }
    }
    if ends_image {
        out.push_str(" ImageEnd")?;
    }
    Ok(())
}

/// Adds the rows, each as a single row.
fn write_rows(alloc: Global, out: &mut String, rows: &Rows) -> Result<(), AllocError> {
    for at in 0..rows.count() {
        let row = rows.row(alloc, at)?;
        write_row(out, &row)?;
    }
    Ok(())
}

/// Adds what is handed over at once: several messages between braces. If their rows repeat, they are added once, and
/// the number of times that they come stands before the messages.
pub fn write_packet(alloc: Global, out: &mut String, packet: &Packet) -> Result<(), AllocError> {
    match packet {
        Packet::Part(part) if packet.is_several() => write_together(alloc, out, part),
        Packet::Part(part) => write_part(alloc, out, part),
        Packet::StreamEnd => write_message(out, &Message::StreamEnd),
        Packet::Stop => write_message(out, &Message::Stop),
    }
}

/// Adds several messages, between braces.
fn write_together(alloc: Global, out: &mut String, part: &Part) -> Result<(), AllocError> {
    out.push_str(" {")?;
    let times = times_of(part);
    if times > 1 {
        write!(out, "{times}")?;
    }
    write_times(alloc, out, part, 1)?;
    out.push_str(" }")
}
