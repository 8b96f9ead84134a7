//! Messages in the form that cases and answers have, and rows of a given width.

use super::writing::{Numbers, cut_at, cut_number, cut_numbers, cut_word, named};
use pnm_image::{Bits, Head, HeadFault, Kind, Message, SampleVec, SampleWidth, Samples, Shape};
use std::alloc::{AllocError, AllocFailed, Global};
use std::io;

/// A written value can't be made: there is no such head, or memory or a device failed.
#[derive(Clone, Copy, Debug)]
pub struct Unmade;

impl From<AllocError> for Unmade {
    fn from(_error: AllocError) -> Unmade {
        Unmade
    }
}

impl<T: Drop> From<AllocFailed<T>> for Unmade {
    fn from(_error: AllocFailed<T>) -> Unmade {
        Unmade
    }
}

impl From<HeadFault> for Unmade {
    fn from(_fault: HeadFault) -> Unmade {
        Unmade
    }
}

impl From<io::Error> for Unmade {
    fn from(_error: io::Error) -> Unmade {
        Unmade
    }
}

/// Adds the message that a line begins with; a row is held in as few bits as hold its samples, or in words. Returns
/// what follows it. `[#COUNT,FIRST,STEP,MODULUS,LENGTH]` stands for rows of LENGTH samples: COUNT samples in all, each
/// of them FIRST plus k times STEP modulo MODULUS.
pub fn cut_messages<'a>(
    alloc: Global,
    line: &'a [u8],
    is_narrow: bool,
    messages: &mut Vec<Message>,
) -> Result<&'a [u8], Unmade> {
    if let Some((b'[', row)) = line.split_first() {
        let (samples, rest) = cut_at(row, b']');
        add_rows(alloc, samples, is_narrow, messages)?;
        return Ok(rest);
    }
    let (message, rest) = cut_message(alloc, line)?;
    messages.push(message)?;
    Ok(rest)
}

/// Returns the message that a line begins with, which is no row, and what follows it.
fn cut_message(alloc: Global, line: &[u8]) -> Result<(Message, &[u8]), Unmade> {
    let (word, rest) = cut_word(line);
    if let Some(message) = end_of(word) {
        return Ok((message, rest));
    }
    let (head, rest) = cut_head(alloc, line)?;
    Ok((Message::Begin(head), rest))
}

/// Returns the message of this name: an end or Stop.
fn end_of(word: &[u8]) -> Option<Message> {
    if word == b"ImageEnd".as_slice() {
        Some(Message::ImageEnd)
    } else if word == b"StreamEnd".as_slice() {
        Some(Message::StreamEnd)
    } else if word == b"Stop".as_slice() {
        Some(Message::Stop)
    } else {
        None
    }
}

/// Returns the messages that are written one after another, with blanks between.
pub fn messages_of(alloc: Global, text: &[u8], is_narrow: bool) -> Result<Vec<Message>, Unmade> {
    let mut messages = Vec::new(alloc);
    let mut rest = text;
    for _ in 0..text.len() {
        rest = match rest.split_first() {
            None => break,
            Some((b' ', after)) => after,
            Some(_) => cut_messages(alloc, rest, is_narrow, &mut messages)?,
        };
    }
    Ok(messages)
}

/// Adds a row of the written samples, or rows of counted numbers.
fn add_rows(
    alloc: Global,
    written: &[u8],
    is_narrow: bool,
    messages: &mut Vec<Message>,
) -> Result<(), Unmade> {
    let Some((b'#', numbers)) = written.split_first() else {
        let samples = samples_of(alloc, written)?;
        return add_row(alloc, samples.as_slice(), is_narrow, messages);
    };
    let (numbers, _) = cut_numbers(numbers);
    let samples = counted(alloc, numbers)?;
    for row in samples.as_slice().chunks(numbers.size.max(1)) {
        add_row(alloc, row, is_narrow, messages)?;
    }
    Ok(())
}

/// Returns the numbers as samples.
fn counted(alloc: Global, numbers: Numbers) -> Result<Vec<u16>, Unmade> {
    let mut samples = Vec::new(alloc);
    for k in 0..numbers.count {
        samples.push(sample_of(numbers.at(k))?)?;
    }
    Ok(samples)
}

/// Adds a row.
fn add_row(
    alloc: Global,
    samples: &[u16],
    is_narrow: bool,
    messages: &mut Vec<Message>,
) -> Result<(), Unmade> {
    messages.push(Message::Row(held_by(alloc, samples, is_narrow)?))?;
    Ok(())
}

/// Returns the samples that are written one after another.
pub fn samples_of(alloc: Global, written: &[u8]) -> Result<Vec<u16>, Unmade> {
    let mut samples = Vec::new(alloc);
    let mut rest = written;
    for _ in 0..written.len() {
        if rest.is_empty() {
            break;
        }
        let (sample, after) = cut_number(rest);
        samples.push(sample_of(sample)?)?;
        rest = after;
    }
    Ok(samples)
}

/// Returns the head that a line begins with, and what follows it.
pub fn cut_head(alloc: Global, line: &[u8]) -> Result<(Head, &[u8]), Unmade> {
    let (word, rest) = cut_word(line);
    let (width, rest) = cut_number(rest);
    let (height, rest) = cut_number(rest);
    let (depth, rest) = cut_number(rest);
    let (maxval, rest) = cut_number(rest);
    let (tuple_type, rest) = match rest.split_first() {
        Some((b'(', written)) => cut_at(written, b')'),
        _ => ([].as_slice(), rest),
    };
    let shape = Shape {
        kind: named(KINDS, word).ok_or(Unmade)?,
        width: number_of(width),
        height: number_of(height),
        depth: number_of(depth),
        maxval: number_of(maxval),
    };
    Ok((head_of(alloc, shape, tuple_type)?, rest))
}

const KINDS: &[(&[u8], Kind)] = &[
    (b"Bit", Kind::Bit),
    (b"Gray", Kind::Gray),
    (b"Color", Kind::Color),
    (b"Pam", Kind::Pam),
];

/// Returns the number, if it is a sample.
fn sample_of(number: usize) -> Result<u16, Unmade> {
    match u16::try_from(number) {
        Ok(sample) => Ok(sample),
        Err(_) => Err(Unmade),
    }
}

/// Returns the number, or the greatest one.
pub fn number_of(number: usize) -> u32 {
    u32::try_from(number).unwrap_or(u32::MAX)
}

/// Returns the head of this shape, whose height may be 0.
pub fn head_of(alloc: Global, shape: Shape, tuple_type: &[u8]) -> Result<Head, Unmade> {
    if !Head::suits(shape.kind, shape.depth, shape.maxval, tuple_type) {
        return Err(Unmade);
    }
    if shape.height > 0 {
        return Ok(Head::new(alloc, shape, tuple_type)?);
    }
    let head = Head::new(alloc, Shape { height: 1, ..shape }, tuple_type)?;
    Ok(head.with_height(0))
}

/// Returns the width of as few bits as hold the samples.
fn narrowest(samples: &[u16]) -> SampleWidth {
    let mut most = 0;
    for sample in samples {
        if *sample > most {
            most = *sample;
        }
    }
    match most {
        0 | 1 => SampleWidth::Bits,
        2..=255 => SampleWidth::Bytes,
        _ => SampleWidth::Words,
    }
}

/// Returns the samples, in as few bits as hold them, or in words.
pub fn held_by(alloc: Global, samples: &[u16], is_narrow: bool) -> Result<Samples, AllocError> {
    let sample_width = if is_narrow {
        narrowest(samples)
    } else {
        SampleWidth::Words
    };
    held(alloc, samples, sample_width)
}

/// Returns the samples in this width.
pub fn held(
    alloc: Global,
    samples: &[u16],
    sample_width: SampleWidth,
) -> Result<Samples, AllocError> {
    Ok(Samples::from_vec(match sample_width {
        SampleWidth::Bits => SampleVec::Bits(bits_of(alloc, samples)?),
        SampleWidth::Bytes => SampleVec::Bytes(bytes_of(alloc, samples)?),
        SampleWidth::Words => SampleVec::Words(Vec::from_slice(alloc, samples)?),
    }))
}

/// Returns the samples as pixels of one bit, 0 as black.
fn bits_of(alloc: Global, samples: &[u16]) -> Result<Bits, AllocError> {
    let mut bytes = Vec::new(alloc);
    for pixels in samples.chunks(8) {
        let mut byte: u8 = 0;
        let mut bit: u8 = 128;
        for sample in pixels {
            if *sample == 0 {
                byte |= bit;
            }
            bit /= 2;
        }
        bytes.push(byte)?;
    }
    Ok(Bits::new(bytes, samples.len()))
}

/// Returns the samples modulo 256.
fn bytes_of(alloc: Global, samples: &[u16]) -> Result<Vec<u8>, AllocError> {
    let mut bytes = Vec::new(alloc);
    for sample in samples {
        bytes.push((*sample % 256) as u8)?;
    }
    Ok(bytes)
}
