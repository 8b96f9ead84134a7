//! Rings that hold messages, what comes out of them, and what goes to a thread over one and comes from it, by a counted
//! number of tries.

use super::is_so;
use pnm_flow::{Packet, Receiver, Sender, StageEnd, new_ring};
use pnm_image::Kind;
use pnm_test_support::{Part, are_made_of, message, packets_of};
use std::alloc::Global;
use std::process::Abort;
use std::thread;

/// More turns of a wait than any wait of a test takes.
pub const TURNS: u32 = 10_000_000;

/// Sends the packet. Returns whether there was room for it.
fn send(output: &mut Sender, packet: Packet) -> bool {
    if !output.has_room() {
        return false;
    }
    output.send_reserved(packet);
    true
}

/// Sends this, if it can be made and there is room for it. Returns whether it was sent.
fn send_one(alloc: Global, output: &mut Sender, part: Part<'_>) -> bool {
    match message(alloc, part) {
        Ok(message) => send(output, Packet::from(message)),
        Err(_) => false,
    }
}

/// Sends these. Returns whether each could be made, and there was room for it.
pub fn send_all(alloc: Global, output: &mut Sender, parts: &[Part<'_>]) -> bool {
    for part in parts {
        if !send_one(alloc, output, *part) {
            return false;
        }
    }
    true
}

/// Whether the packet is a message that is made of this. Messages that came together are none.
pub fn is_one_of(packet: Packet, part: Part<'_>) -> bool {
    are_made_of(&packet, &[part], &mut 0)
}

/// Receives what comes next, if anything does. Returns whether it is made of the parts from this one on, and passes
/// them.
fn has_next(input: &mut Receiver, parts: &[Part<'_>], come: &mut usize) -> bool {
    input.has_message() && are_made_of(&input.receive_known(), parts, come)
}

/// Receives these from the ring, one by one or together. Returns the index of one before which one isn't there, if any.
pub fn first_missing(input: &mut Receiver, parts: &[Part<'_>]) -> Option<usize> {
    let mut come = 0;
    for _ in 0..parts.len() {
        if come < parts.len() && !has_next(input, parts, &mut come) {
            return Some(come);
        }
    }
    None
}

/// A ring of capacity 8 that holds these, and its sending end, unless no more can come. Returns `None` if there is no
/// memory.
pub fn holding(
    alloc: Global,
    parts: &[Part<'_>],
    is_gone: bool,
) -> Option<(Option<Sender>, Receiver)> {
    let (mut sender, receiver) = new_ring(alloc, 8)?;
    let are_sent = send_all(alloc, &mut sender, parts);
    let sender = if is_gone { None } else { Some(sender) };
    are_sent.then_some((sender, receiver))
}

/// A ring of capacity 8 that holds what is written, with what stands between braces together, and its sending end.
/// Returns `None` if there is no memory.
pub fn holding_written(alloc: Global, text: &[u8]) -> Option<(Sender, Receiver)> {
    let written = packets_of(alloc, text, true).ok()?;
    let mut ends = new_ring(alloc, 8)?;
    let mut are_sent = true;
    for packet in written {
        are_sent = send(&mut ends.0, packet) && are_sent;
    }
    are_sent.then_some(ends)
}

/// An image of one row, and the end of the stream.
pub const IMAGE: &[Part<'static>] = &[
    Part::Begin(Kind::Gray, 2, 1, 122),
    Part::Row(&[65, 66]),
    Part::ImageEnd,
    Part::StreamEnd,
];

/// Receives these from the ring, which has to hold them.
pub fn begins_with(rt: &impl Abort, input: &mut Receiver, parts: &[Part<'_>], what: &str) {
    let missing = first_missing(input, parts);
    is_so(rt, missing.is_none(), &(missing, what));
}

/// The ring holds these, and nothing more.
pub fn holds(rt: &impl Abort, input: &mut Receiver, parts: &[Part<'_>], what: &str) {
    begins_with(rt, input, parts, what);
    let is_empty = !input.has_message();
    is_so(rt, is_empty, &("nothing more", what));
}

/// A thread at a ring has ended as `want` says.
pub fn is_end(rt: &impl Abort, end: StageEnd, want: StageEnd, what: &str) {
    is_so(rt, end == want, &(end, want, what));
}

/// Sends a message to a thread that takes it, by a counted number of tries. Returns whether it could be made, and was
/// sent.
pub fn sends(alloc: Global, output: &mut Sender, part: Part<'_>) -> bool {
    for _ in 0..TURNS {
        if output.has_room() {
            return send_one(alloc, output, part);
        }
        thread::yield_now();
    }
    false
}

/// What comes next, by a counted number of tries.
fn next_packet(input: &mut Receiver) -> Option<Packet> {
    for _ in 0..TURNS {
        if input.has_message() {
            return Some(input.receive_known());
        }
        thread::yield_now();
    }
    None
}

/// Whether the next message that comes, by a counted number of tries, is made of this.
pub fn comes(input: &mut Receiver, part: Part<'_>) -> bool {
    match next_packet(input) {
        Some(packet) => is_one_of(packet, part),
        None => false,
    }
}

/// Whether these come, each by a counted number of tries: one by one or together.
pub fn all_come(input: &mut Receiver, parts: &[Part<'_>]) -> bool {
    let mut come = 0;
    for _ in 0..parts.len() {
        if come < parts.len() {
            let Some(packet) = next_packet(input) else {
                return false;
            };
            if !are_made_of(&packet, parts, &mut come) {
                return false;
            }
        }
    }
    true
}

/// Sends a message to a thread, and takes what comes of it. Returns whether it came as it was sent.
pub fn passes(alloc: Global, output: &mut Sender, input: &mut Receiver, part: Part<'_>) -> bool {
    sends(alloc, output, part) && comes(input, part)
}
