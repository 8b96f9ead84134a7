//! What a sink answers and writes.

use super::form_of;
use pnm_image::{BytesOut, Device, Packet};
use pnm_test_support::{FailsOnce, Sips, Unmade, cut_number, cut_word, packets_of, write_text};
use pnm_write::{Form, Sink, SinkFault};
use std::alloc::{AllocError, Global};

/// Adds the faults of a sink over the writer that gets packets, and how the stream ends. If `is_flushed`, the
/// sink is flushed after each image. Returns the writer.
pub fn write_stream<W: BytesOut + Drop>(
    alloc: Global,
    writer: W,
    form: Form,
    all: &[Packet],
    is_flushed: bool,
    out: &mut String,
) -> Result<W, Unmade> {
    let mut sink = Sink::new(alloc, writer, form)?;
    for packet in all {
        write_put(&mut sink, packet, is_flushed, out)?;
    }
    let (writer, end) = sink.finish();
    out.push_str(" end")?;
    write_fault(out, "", end)?;
    Ok(writer)
}

/// Adds the fault of a sink that gets a packet, and, if `is_flushed`, that of a flush after an image.
fn write_put<W: BytesOut>(
    sink: &mut Sink<W>,
    packet: &Packet,
    is_flushed: bool,
    out: &mut String,
) -> Result<(), AllocError> {
    write_fault(out, "", sink.put(packet))?;
    if is_flushed && packet.ends_image() {
        return write_fault(out, " flush", sink.flush());
    }
    Ok(())
}

/// Adds a fault after a word.
fn write_fault(
    out: &mut String,
    word: &str,
    answer: Result<(), SinkFault>,
) -> Result<(), AllocError> {
    match answer {
        Ok(()) => Ok(()),
        Err(fault) => write!(out, "{word} {fault}"),
    }
}

/// Adds the faults of messages, how their stream ends, and the bytes; and the same for rows that are held in few bits,
/// if that differs.
pub fn write_written(
    alloc: Global,
    form: Form,
    text: &[u8],
    out: &mut String,
) -> Result<(), Unmade> {
    let mut narrow = String::new(alloc);
    write_held(alloc, form, text, false, out)?;
    write_held(alloc, form, text, true, &mut narrow)?;
    if narrow.as_str() != out.as_str() {
        out.push_str(" but narrow")?;
        out.push_str(narrow.as_str())?;
    }
    Ok(())
}

/// Adds what comes of messages whose rows are held in as few bits as hold their samples, or in words.
fn write_held(
    alloc: Global,
    form: Form,
    text: &[u8],
    is_narrow: bool,
    out: &mut String,
) -> Result<(), Unmade> {
    let all = packets_of(alloc, text, is_narrow)?;
    let writer = Device::new(Vec::new(alloc));
    let writer = write_stream(alloc, writer, form, all.as_slice(), false, out)?;
    Ok(write_text(out, writer.into_inner().as_slice())?)
}

/// The call that fails, after as many as the text begins with, or none for `_`; and what follows in the text.
fn cut_failing(text: &[u8]) -> (FailsOnce, &[u8]) {
    let (word, rest) = cut_word(text);
    match word.first() {
        Some(b'_') => (FailsOnce::never(), rest),
        _ => {
            let (before, _) = cut_number(word);
            (FailsOnce::after(before), rest)
        }
    }
}

/// Adds what is written if writes take few bytes, or fail; then how often the writer was flushed.
pub fn write_sips(alloc: Global, text: &[u8], out: &mut String) -> Result<(), Unmade> {
    let (form, rest) = cut_word(text);
    let (most, rest) = cut_number(rest);
    let (writes, rest) = cut_failing(rest);
    let (flushes, rest) = cut_failing(rest);
    let all = packets_of(alloc, rest, true)?;
    let sips = Device::new(Sips::new(alloc, most, writes, flushes));
    let sips = write_stream(alloc, sips, form_of(form), all.as_slice(), true, out)?;
    Ok(write_sipped(&sips.into_inner(), out)?)
}

/// Adds the bytes that were taken, and how often the writer was flushed.
fn write_sipped(sips: &Sips, out: &mut String) -> Result<(), AllocError> {
    write_text(out, sips.held())?;
    let flushed = sips.flushed();
    write!(out, " flushed {flushed}")
}
