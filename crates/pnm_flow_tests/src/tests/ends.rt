//! The two ends of a ring, without a stage between.

use super::is_so;
use super::rings::{holds, is_one_of, send_all};
use pnm_flow::new_ring;
use pnm_image::{Kind, Message, Packet, RepeatedRows, SampleVec, Samples};
use pnm_stages::{Receiver, Sender};
use pnm_test_support::{Part, cut_into, message};
use std::alloc::Global;
use std::process::Abort;
use std::sync::Wait;

const PARTS: &[Part<'static>] = &[
    Part::Begin(Kind::Gray, 2, 1, 9),
    Part::Row(&[3, 4]),
    Part::ImageEnd,
    Part::StreamEnd,
];

/// What was sent is received in order, one by one and as many at a time as there is room for, and no more.
#[test]
fn passes_messages_in_order(rt: HostRuntime) {
    for most in [&PARTS[..1], &PARTS[..3], &PARTS[..4]] {
        passes_in_order(&rt, rt.alloc(), most);
    }
}

/// Messages pass in order over a ring that has room for as many as `most` has.
fn passes_in_order(rt: &impl Abort, alloc: Global, most: &[Part<'_>]) {
    let (mut sender, mut receiver) = new_ring(alloc, most.len()).expect(rt, "a ring");
    for part in PARTS {
        is_so(rt, send_all(alloc, &mut sender, &[*part]), &"sent");
        holds(rt, &mut receiver, &[*part], "one by one");
    }
    is_so(rt, send_all(alloc, &mut sender, most), &"sent");
    is_so(rt, !sender.has_room(), &most.len());
    holds(rt, &mut receiver, most, "all at once");
}

/// Whether the packet is a message that is made of this, or there is none.
fn is_packet(packet: Option<Packet>, part: Option<Part<'_>>) -> bool {
    match (packet, part) {
        (Some(packet), Some(part)) => is_one_of(packet, part),
        (None, None) => true,
        _ => false,
    }
}

/// Whether the next message is made of this, or there is none.
fn receives(rt: &(impl Wait + Abort), receiver: &mut Receiver, part: Option<Part<'_>>) {
    let is_right = is_packet(receiver.receive(rt), part);
    is_so(rt, is_right, &part);
}

/// A ring for `capacity` messages that holds these.
fn ring_of(
    rt: &impl Abort,
    alloc: Global,
    capacity: usize,
    parts: &[Part<'_>],
) -> (Sender, Receiver) {
    let mut ends = new_ring(alloc, capacity).expect(rt, "a ring");
    is_so(rt, send_all(alloc, &mut ends.0, parts), &"sent");
    ends
}

/// What was sent before the sending end went is still there.
#[test]
fn gives_all_that_was_sent_before_the_end_went(rt: HostRuntime) {
    let (sender, mut receiver) = ring_of(&rt, rt.alloc(), 4, &PARTS[..2]);
    drop(sender);
    for part in [Some(PARTS[0]), Some(PARTS[1]), None] {
        receives(&rt, &mut receiver, part);
    }
}

/// A full ring whose receiving end went takes nothing more.
#[test]
fn sends_nothing_where_nobody_receives(rt: HostRuntime) {
    let (mut sender, receiver) = ring_of(&rt, rt.alloc(), 1, &PARTS[..1]);
    drop(receiver);
    let message = message(rt.alloc(), PARTS[1]).expect(&rt, "a message");
    let is_sent = sender.send(&rt, Packet::from(message));
    assert!(rt; !is_sent);
}

/// Sends a row of `bytes` bytes, or `bytes` rows of one byte together, if there is room.
fn send_bytes(
    rt: &impl Abort,
    alloc: Global,
    sender: &mut Sender,
    bytes: u32,
    is_together: bool,
) -> bool {
    let row = Vec::from_elem(alloc, 0, bytes as usize).expect(rt, "a row");
    let samples = Samples::from_vec(SampleVec::Bytes(row));
    if !sender.has_room() {
        return false;
    }
    if !is_together || bytes == 0 {
        sender.send_reserved(Packet::from(Message::Row(samples)));
        return true;
    }
    let Ok(rows) = cut_into(alloc, samples, bytes as usize, 1) else {
        return false;
    };
    sender.send_reserved(Packet::rows(RepeatedRows::once(rows)));
    true
}

/// How many rows of `bytes` bytes an empty ring has room for, up to nine; or how many times `bytes` rows of one byte
/// together. They are sent and dropped.
fn count_rows(
    rt: &impl Abort,
    alloc: Global,
    sender: &mut Sender,
    receiver: &mut Receiver,
    bytes: u32,
    is_together: bool,
) -> u32 {
    let mut count = 0_u32;
    for _ in 0..9 {
        if send_bytes(rt, alloc, sender, bytes, is_together) {
            count = count.saturating_add(1);
        }
    }
    for _ in 0..count {
        if receiver.has_message() {
            drop(receiver.receive_known());
        }
    }
    count
}

/// Sizes of rows, and how many of them a ring of capacity 8 has room for.
const ROOMS: &[(u32, u32)] = &[
    (1, 8),
    (16_384, 8),
    (16_385, 7),
    (32_768, 4),
    (200_000, 2),
    (64, 8),
];

/// All rows of more than 16,384 bytes in a ring have at most that many bytes a place of it, but there is room for two.
/// So it is with rows together.
#[test]
fn leaves_room_beside_wide_rows(rt: HostRuntime) {
    let (mut sender, mut receiver) = new_ring(rt.alloc(), 8).expect(&rt, "a ring");
    for is_together in [false, true] {
        for (bytes, most) in ROOMS {
            let alloc = rt.alloc();
            let count = count_rows(&rt, alloc, &mut sender, &mut receiver, *bytes, is_together);
            is_so(&rt, count == *most, &(*bytes, count));
        }
    }
}
