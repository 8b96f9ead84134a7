//! The parts of messages, for tests that name them one by one.

use super::messages::{Unmade, head_of};
use pnm_image::{Head, Kind, Message, Packet, RepeatedRows, SampleSlice, Samples, Shape};
use std::alloc::Global;

/// The parts of a message.
#[derive(Clone, Copy, Debug)]
pub enum Part<'a> {
    /// A head that isn't PAM: its kind, its width, its height and its maxval.
    Begin(Kind, u32, u32, u32),
    /// A PAM head: its width, its height, its depth, its maxval and its tuple type.
    Pam(u32, u32, u32, u32, &'a str),
    Row(&'a [u16]),
    ImageEnd,
    StreamEnd,
    Stop,
}

/// Returns the shape and the tuple type of a head.
fn head_parts(part: Part<'_>) -> Option<(Shape, &[u8])> {
    let (kind, width, height, depth, maxval, tuple_type) = match part {
        Part::Begin(kind, width, height, maxval) => {
            let depth = if kind == Kind::Color { 3 } else { 1 };
            (kind, width, height, depth, maxval, "")
        }
        Part::Pam(width, height, depth, maxval, tuple_type) => {
            (Kind::Pam, width, height, depth, maxval, tuple_type)
        }
        _ => return None,
    };
    let shape = Shape {
        kind,
        width,
        height,
        depth,
        maxval,
    };
    Some((shape, tuple_type.as_bytes()))
}

/// Makes the message of this part.
pub fn message(alloc: Global, part: Part<'_>) -> Result<Message, Unmade> {
    if let Some((shape, tuple_type)) = head_parts(part) {
        return Ok(Message::Begin(head_of(alloc, shape, tuple_type)?));
    }
    Ok(match part {
        Part::Row(samples) => Message::Row(Samples::new(Vec::from_slice(alloc, samples)?)),
        Part::ImageEnd => Message::ImageEnd,
        Part::StreamEnd => Message::StreamEnd,
        _ => Message::Stop,
    })
}

/// Returns whether the message is made of this part.
pub fn is_made_of(message: &Message, part: Part<'_>) -> bool {
    match message {
        Message::Begin(head) => is_head(head, part),
        Message::Row(row) => is_row(row.as_slice(), row.len(), part),
        Message::ImageEnd => matches!(part, Part::ImageEnd),
        Message::StreamEnd => matches!(part, Part::StreamEnd),
        Message::Stop => matches!(part, Part::Stop),
    }
}

/// Returns whether the head is made of this part.
fn is_head(head: &Head, part: Part<'_>) -> bool {
    head_parts(part) == Some((head.shape(), head.tuple_type()))
}

/// Returns whether these `length` samples are a row that is made of this part.
fn is_row(row: SampleSlice<'_>, length: usize, part: Part<'_>) -> bool {
    match part {
        Part::Row(samples) => length == samples.len() && has_samples(row, samples),
        _ => false,
    }
}

/// Returns whether the row begins with these samples.
fn has_samples(row: SampleSlice<'_>, samples: &[u16]) -> bool {
    for (at, sample) in samples.iter().enumerate() {
        if !is_sample(row, at, *sample) {
            return false;
        }
    }
    true
}

/// Returns whether sample `x` of the row is `sample`. In bits, a black pixel is a set bit, and its sample is 0.
fn is_sample(row: SampleSlice<'_>, x: usize, sample: u16) -> bool {
    match row {
        SampleSlice::Bits(bytes, _) => match bytes.get(x / 8) {
            Some(byte) => (*byte >> (7 - x % 8) & 1 == 1) == (sample == 0),
            None => false,
        },
        SampleSlice::Bytes(bytes) => match bytes.get(x) {
            Some(byte) => u16::from(*byte) == sample,
            None => false,
        },
        SampleSlice::Words(words) => words.get(x) == Some(&sample),
    }
}

/// Returns whether the messages of the packet are made of the parts from the one at `come` on. Adds their number to
/// `come`. Rows that repeat are no such parts.
pub fn are_made_of(packet: &Packet, parts: &[Part<'_>], come: &mut usize) -> bool {
    match packet {
        Packet::Part(part) => is_part_made_of(part, parts, come),
        Packet::StreamEnd => matches!(next_of(parts, come), Some(Part::StreamEnd)),
        Packet::Stop => matches!(next_of(parts, come), Some(Part::Stop)),
    }
}

/// Returns the part at `come`, and adds 1 to `come`.
fn next_of<'a>(parts: &[Part<'a>], come: &mut usize) -> Option<Part<'a>> {
    let part = parts.get(*come).copied();
    *come = come.saturating_add(1);
    part
}

/// Does the same for a part of an image.
fn is_part_made_of(part: &pnm_image::Part, parts: &[Part<'_>], come: &mut usize) -> bool {
    let (head, rows, ends_image) = part.parts();
    if let Some(head) = head
        && !next_of(parts, come).is_some_and(|part| is_head(head, part))
    {
        return false;
    }
    if let Some(rows) = rows
        && !are_rows_made_of(rows, parts, come)
    {
        return false;
    }
    !ends_image || matches!(next_of(parts, come), Some(Part::ImageEnd))
}

/// Does the same for rows.
fn are_rows_made_of(rows: &RepeatedRows, parts: &[Part<'_>], come: &mut usize) -> bool {
    let (rows, times) = rows.parts();
    for at in 0..rows.count() {
        let Some(part) = next_of(parts, come) else {
            return false;
        };
        if !is_row(rows.row_slice(at), rows.row_length(), part) {
            return false;
        }
    }
    times == 1
}
