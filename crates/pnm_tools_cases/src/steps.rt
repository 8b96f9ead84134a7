//! Steps of a tool at work. A message is fed, and then all that the tool gives is taken. With a `~` before the message,
//! no message is printed; with a `!`, nothing is taken. `?` takes one answer. A fault is printed, and whether it
//! doesn't stay. Messages between braces, their rows in as few bits as hold their samples, are fed together, or one by
//! one if not all of them may come. What a tool gives together is printed one by one, except by `?`, which prints it
//! between braces, as one answer.

use super::tasks::{Task, write_at_work};
use pnm_filters::{RowState, RowWise};
use pnm_image::{Message, Packet, Part};
use pnm_test_support::{Unmade, cut_at, cut_messages, part_of, width_of, write_packet, write_part};
use pnm_tools::{Filter, Tool, ToolFault};
use std::alloc::{AllocError, Global};

/// More messages than a tool gives for one message.
const MOST_ANSWERS: usize = 100_000;

/// How a message is passed on.
#[derive(Clone, Copy)]
pub enum Step {
    /// All that the tool gives then is printed.
    Passes,
    /// All is taken, and the widths of its rows are printed.
    Widths,
    /// All is taken, but only a fault is printed.
    Drops,
    /// Nothing is taken.
    Takes,
}

/// Adds what a tool gives by these steps, and what it gives if rows are held in few bits, if that differs.
pub fn write_run(alloc: Global, tool: &Tool, text: &[u8], out: &mut String) -> Result<(), Unmade> {
    let mut narrow = String::new(alloc);
    write_at_work(alloc, tool, Task::Steps(text, Step::Passes, false), out)?;
    write_at_work(
        alloc,
        tool,
        Task::Steps(text, Step::Passes, true),
        &mut narrow,
    )?;
    if narrow.as_str() != out.as_str() {
        out.push_str(" but narrow")?;
        out.push_str(narrow.as_str())?;
    }
    Ok(())
}

/// Returns the tool, which must be lawful and row-wise, at work in a lane.
fn start_rows(alloc: Global, tool: &Tool) -> Result<RowState, Unmade> {
    if !tool.is_lawful() || !tool.is_row_wise() {
        return Err(Unmade);
    }
    match pnm_filters::start_rows(alloc, tool) {
        Ok(state) => Ok(state),
        Err(_) => Err(Unmade),
    }
}

/// Adds what a row-wise tool gives in a lane.
pub fn write_lane(alloc: Global, tool: &Tool, text: &[u8], out: &mut String) -> Result<(), Unmade> {
    let mut lane = start_rows(alloc, tool)?;
    go_in_lane(alloc, &mut lane, text, out)
}

/// Adds what any row-wise filter gives in a lane.
fn go_in_lane<F: RowWise>(
    alloc: Global,
    lane: &mut F,
    text: &[u8],
    out: &mut String,
) -> Result<(), Unmade> {
    go(alloc, lane, text, Step::Passes, false, out)
}

/// Adds what a filter gives by these steps. A message without a mark is passed on by `step`.
pub fn go<F: Filter>(
    alloc: Global,
    state: &mut F,
    text: &[u8],
    step: Step,
    is_narrow: bool,
    out: &mut String,
) -> Result<(), Unmade> {
    let mut rest = text;
    for _ in 0..text.len() {
        rest = match rest.split_first() {
            None => break,
            Some((b' ', after)) => after,
            Some((b'?', after)) => {
                write_next(alloc, state, out)?;
                after
            }
            Some((b'{', after)) => {
                let (together, after) = cut_at(after, b'}');
                pass_together(alloc, state, together, out)?;
                after
            }
            Some(_) => {
                let (step, written) = cut_mark(rest, step);
                pass(alloc, state, step, written, is_narrow, out)?
            }
        };
    }
    Ok(())
}

/// Returns how to pass on the message that a text begins with, and the text without the message's mark.
fn cut_mark(text: &[u8], step: Step) -> (Step, &[u8]) {
    match text.split_first() {
        Some((b'~', after)) => (Step::Drops, after),
        Some((b'!', after)) => (Step::Takes, after),
        _ => (step, text),
    }
}

/// Passes on the message that a text begins with, and returns the text after it.
fn pass<'a, F: Filter>(
    alloc: Global,
    state: &mut F,
    step: Step,
    text: &'a [u8],
    is_narrow: bool,
    out: &mut String,
) -> Result<&'a [u8], Unmade> {
    let mut messages = Vec::new(alloc);
    let rest = cut_messages(alloc, text, is_narrow, &mut messages)?;
    for message in messages {
        pass_one(alloc, state, step, message, out)?;
    }
    Ok(rest)
}

/// Passes on a message, and adds all that the filter gives then, or the fault, and whether it doesn't stay.
pub fn pass_one<F: Filter>(
    alloc: Global,
    state: &mut F,
    step: Step,
    message: Message,
    out: &mut String,
) -> Result<(), AllocError> {
    match pass_packet(alloc, state, step, Packet::from(message), out)? {
        Some(_) => out.push_str(" given back"),
        None => Ok(()),
    }
}

/// Passes on a packet, and adds all that the filter gives then, or the fault, and whether it doesn't stay. Returns the
/// packet if the filter gave it back.
fn pass_packet<F: Filter>(
    alloc: Global,
    state: &mut F,
    step: Step,
    packet: Packet,
    out: &mut String,
) -> Result<Option<Packet>, AllocError> {
    match state.feed(packet) {
        Ok(Ok(())) => take_all(alloc, state, step, out)?,
        Ok(Err(fault)) => {
            write!(out, " {fault}")?;
            write_stays(state, fault, out)?;
        }
        Err(packet) => return Ok(Some(packet)),
    }
    Ok(None)
}

/// Passes on messages together, or one by one if not all of them may come, and adds all that the filter gives then, or
/// the fault.
fn pass_together<F: Filter>(
    alloc: Global,
    state: &mut F,
    text: &[u8],
    out: &mut String,
) -> Result<(), Unmade> {
    let packet = Packet::Part(part_of(alloc, text, true)?);
    let mut left = pass_packet(alloc, state, Step::Passes, packet, out)?;
    for _ in 0..text.len() {
        let Some(packet) = left else {
            break;
        };
        let (first, rest) = packet.split_first(alloc)?;
        if pass_packet(alloc, state, Step::Passes, first, out)?.is_some() {
            out.push_str(" given back")?;
        }
        left = rest;
    }
    Ok(())
}

/// Adds the next answer.
fn write_next<F: Filter>(alloc: Global, state: &mut F, out: &mut String) -> Result<(), AllocError> {
    match state.next() {
        Ok(Some(packet)) => write_packet(alloc, out, &packet),
        Ok(None) => out.push_str(" nothing"),
        Err(fault) => write!(out, " {fault}"),
    }
}

/// Takes all that the filter gives, and adds what the step prints of it, and a fault.
fn take_all<F: Filter>(
    alloc: Global,
    state: &mut F,
    step: Step,
    out: &mut String,
) -> Result<(), AllocError> {
    if matches!(step, Step::Takes) {
        return Ok(());
    }
    for _ in 0..MOST_ANSWERS {
        match state.next() {
            Ok(Some(packet)) => write_taken(alloc, step, &packet, out)?,
            Ok(None) => return Ok(()),
            Err(fault) => return write!(out, " {fault}"),
        }
    }
    out.push_str(" and more")
}

/// Adds what a step prints of a packet.
fn write_taken(
    alloc: Global,
    step: Step,
    packet: &Packet,
    out: &mut String,
) -> Result<(), AllocError> {
    match (step, packet) {
        (Step::Passes, Packet::Part(part)) => write_part(alloc, out, part),
        (Step::Passes, ending) => write_packet(alloc, out, ending),
        (Step::Widths, Packet::Part(part)) => write_widths(part, out),
        _ => Ok(()),
    }
}

/// Adds the width of each row of a part, each time that it comes.
fn write_widths(part: &Part, out: &mut String) -> Result<(), AllocError> {
    let (_, Some(rows), _) = part.parts() else {
        return Ok(());
    };
    let (rows, times) = rows.parts();
    for _ in 0..times {
        for at in 0..rows.count() {
            out.push_str(width_of(rows.row_slice(at)))?;
        }
    }
    Ok(())
}

/// Adds words if the filter answers with anything but this fault.
fn write_stays<F: Filter>(
    state: &mut F,
    fault: ToolFault,
    out: &mut String,
) -> Result<(), AllocError> {
    for number in 0..3 {
        let is_given = matches!(state.next(), Err(other) if other == fault);
        let is_fed = matches!(state.feed(end_of(number)), Ok(Err(other)) if other == fault);
        if !is_given || !is_fed {
            out.push_str(" and another answer")?;
        }
    }
    Ok(())
}

/// Returns a packet that ends something, by its number.
fn end_of(number: usize) -> Packet {
    match number {
        0 => Packet::StreamEnd,
        1 => Packet::Stop,
        _ => Packet::from(Message::ImageEnd),
    }
}
