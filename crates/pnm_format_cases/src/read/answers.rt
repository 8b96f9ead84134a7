//! What a source answers to a text, and to each prefix of it.

use super::reads::{Reading, write_recorded};
use pnm_image::{BytesIn, Device, Packet, Part};
use pnm_read::{InputFault, ReadBuffer, Source, SpareRows};
use pnm_test_support::{width_of, write_change, write_packet, write_part};
use std::alloc::{AllocError, Global};

/// More answers than there are to any case.
const MOST_ANSWERS: usize = 100_000;

/// What is told in place of a width if no row comes.
const NO_ROW: &str = " no row";

/// A source over the reader, through a buffer of `size` bytes, 4,096 at least. If `size` is `None`, it makes its own.
pub fn source_by<R: BytesIn + Drop>(
    alloc: Global,
    size: Option<usize>,
    reader: R,
) -> Result<Source<R>, AllocError> {
    let made = match size {
        None => Source::new(alloc, reader),
        Some(size) => match ReadBuffer::with_capacity(alloc, size.max(4096)) {
            Ok(buffer) => Ok(Source::with_buffer(buffer, reader)),
            Err(fault) => Err(fault),
        },
    };
    match made {
        Ok(source) => Ok(source),
        Err(_) => Err(AllocError),
    }
}

/// Adds all that a source answers up to its end, and a word if it doesn't stay there. What comes together stands
/// between braces, unless it is told apart. All rows that were told become spare ones.
pub fn write_answers<R: BytesIn>(
    alloc: Global,
    source: &mut Source<R>,
    is_apart: bool,
    out: &mut String,
) -> Result<(), AllocError> {
    let mut spares = SpareRows::new(alloc)?;
    for _ in 0..MOST_ANSWERS {
        match source.next(&mut spares) {
            Ok(Some(packet)) => {
                let is_end = matches!(&packet, Packet::StreamEnd);
                write_given(alloc, packet, is_apart, out, &mut spares)?;
                if is_end {
                    return write_stays(source, None, out, &mut spares);
                }
            }
            Ok(None) => return out.push_str(" nothing"),
            Err(fault) => {
                write!(out, " {fault}")?;
                return write_stays(source, Some(fault), out, &mut spares);
            }
        }
    }
    out.push_str(" and more")
}

/// Adds what was given at once, and drops it; rows become spare ones.
fn write_given(
    alloc: Global,
    packet: Packet,
    is_apart: bool,
    out: &mut String,
    spares: &mut SpareRows,
) -> Result<(), AllocError> {
    let outcome = match &packet {
        Packet::Part(part) if is_apart => write_part(alloc, out, part),
        _ => write_packet(alloc, out, &packet),
    };
    spare_rows(packet, spares);
    outcome
}

/// Drops what was given at once, but for its rows, which become spare ones.
fn spare_rows(packet: Packet, spares: &mut SpareRows) {
    let Packet::Part(part) = packet else {
        return;
    };
    let (_, rows, _) = part.into_parts();
    if let Some(rows) = rows {
        spares.keep_rows(rows.into_parts().0);
    }
}

/// Adds a word if the source answers anything but the fault, or anything but `None` if there is no fault.
fn write_stays<R: BytesIn>(
    source: &mut Source<R>,
    fault: Option<InputFault>,
    out: &mut String,
    spares: &mut SpareRows,
) -> Result<(), AllocError> {
    for _ in 0..3 {
        if !is_same(source.next(spares), fault) {
            out.push_str(" and another answer")?;
        }
    }
    Ok(())
}

/// Whether the answer is the fault, or `None` if there is no fault.
fn is_same(answer: Result<Option<Packet>, InputFault>, fault: Option<InputFault>) -> bool {
    match answer {
        Ok(packet) => packet.is_none() && fault.is_none(),
        Err(other) => fault == Some(other),
    }
}

/// Adds the answers to a text that comes at once.
pub fn write_whole(alloc: Global, text: &[u8], out: &mut String) -> Result<(), AllocError> {
    let mut source = source_by(alloc, None, Device::new(text))?;
    write_answers(alloc, &mut source, true, out)
}

/// Whether the answers are `whole` if a read gives up to `most` bytes, and no read follows one that gave none.
fn are_told_by(alloc: Global, text: &[u8], most: usize, whole: &str) -> Result<bool, AllocError> {
    let mut out = String::new(alloc);
    let calls = write_recorded(alloc, Reading::of(text, most), &mut out)?;
    Ok(out.as_str() == whole && !is_read_on(calls.as_slice()))
}

/// Whether a read follows one that got no byte.
fn is_read_on(calls: &[(usize, usize)]) -> bool {
    let mut has_ended = false;
    for (_, got) in calls {
        if has_ended {
            return true;
        }
        has_ended = *got == 0;
    }
    false
}

/// Adds the answers to a text. Of the numbers of bytes a read in `few`, adds those at which the answers differ, or at
/// which the source reads on after the end of the text.
pub fn write_text(
    alloc: Global,
    text: &[u8],
    few: &[usize],
    out: &mut String,
) -> Result<(), AllocError> {
    write_whole(alloc, text, out)?;
    for most in few {
        if !are_told_by(alloc, text, *most, out.as_str())? {
            write!(out, " but {most}")?;
        }
    }
    Ok(())
}

/// Adds the answers to each prefix of a text, at a byte a read, too, by the length from which on they stay the same.
pub fn write_cuts(alloc: Global, text: &[u8], out: &mut String) -> Result<(), AllocError> {
    let mut before = String::new(alloc);
    for length in 0..=text.len() {
        let mut answers = String::new(alloc);
        write_text(alloc, &text[..length], &[1], &mut answers)?;
        write_change(out, length, &mut before, answers)?;
    }
    Ok(())
}

/// Adds how the samples of a text's first row are held.
pub fn write_width(alloc: Global, text: &[u8], out: &mut String) -> Result<(), AllocError> {
    let mut source = source_by(alloc, None, Device::new(text))?;
    out.push_str(first_width(alloc, &mut source))
}

/// How the samples of the first row are held, which comes with the head or alone.
fn first_width<R: BytesIn>(alloc: Global, source: &mut Source<R>) -> &'static str {
    let mut spares = SpareRows::none(alloc);
    match next_width(source, &mut spares) {
        Some(width) => width,
        None => next_width(source, &mut spares).unwrap_or(NO_ROW),
    }
}

/// How the samples of the next row are held, if it comes at once.
fn next_width<R: BytesIn>(source: &mut Source<R>, spares: &mut SpareRows) -> Option<&'static str> {
    match source.next(spares) {
        Ok(Some(Packet::Part(part))) => width_in(&part),
        _ => None,
    }
}

/// How the samples of the part's first row are held, if it has rows.
fn width_in(part: &Part) -> Option<&'static str> {
    let (rows, _) = part.parts().1.as_ref()?.parts();
    // No effect at run time: from this, a proof learns that there is a row.
    let _ = rows.count();
    Some(width_of(rows.row_slice(0)))
}
