//! How a thread sleeps at an end of a ring.

use super::is_so;
use super::lanes::{gathered, rings};
use super::rings::send_all;
use pnm_flow::new_ring;
use pnm_image::{Kind, Message, Packet, SampleVec, Samples};
use pnm_stages::{Receiver, Sender, StageEnd};
use pnm_test_support::{Part, message};
use std::alloc::Global;
use std::process::Abort;
use std::rt::Clock;
use std::sync::Wait;
use std::thread::{self, Threads};
use std::time::{Duration, Instant};

/// A thread that was woken sleeps for fewer milliseconds than this, and one that wasn't sleeps for more, unless the
/// machine is stopped meanwhile.
const SHORT: u64 = 200;

/// Whether the time since then is short.
fn was_short(rt: &(impl Clock + Abort), start: Instant) -> bool {
    start.elapsed(rt).expect(rt, "a clock") < Duration::from_millis(SHORT)
}

/// A message wakes the thread at the receiving end, also before it sleeps; the next sleep lasts.
#[test]
fn sleeps_where_no_message_came(rt: HostRuntime) {
    let (mut sender, receiver) = new_ring(rt.alloc(), 1).expect(&rt, "a ring");
    is_so(
        &rt,
        send_all(rt.alloc(), &mut sender, &[Part::ImageEnd]),
        &"sent",
    );
    for is_woken in [true, false] {
        let start = Instant::now(&rt).expect(&rt, "a clock");
        receiver.wait(&rt);
        is_so(&rt, was_short(&rt, start) == is_woken, &is_woken);
    }
}

/// A thread that sleeps for want of room wakes the sender of the ring that is its receiver's home.
#[test]
fn wakes_its_home_before_it_sleeps(rt: HostRuntime) {
    let (mut home, _receiver) = new_ring(rt.alloc(), 1).expect(&rt, "a ring");
    let (mut sender, _end) = new_ring(rt.alloc(), 1).expect(&rt, "a ring");
    is_so(&rt, sender.set_home(&home), &"shared");
    sender.wait(&rt);
    let start = Instant::now(&rt).expect(&rt, "a clock");
    home.wait(&rt);
    is_so(&rt, was_short(&rt, start), &"woken");
}

/// A thread that ends a stream, and a sending end that goes, wake the sender of the ring that is the receiver's home.
#[test]
fn wakes_its_home_at_the_end(rt: HostRuntime) {
    let (home, _receiver) = new_ring(rt.alloc(), 1).expect(&rt, "a ring");
    let (mut sender, _end) = new_ring(rt.alloc(), 2).expect(&rt, "a ring");
    is_so(&rt, sender.set_home(&home), &"shared");
    for (part, is_woken) in [(Part::ImageEnd, false), (Part::StreamEnd, true)] {
        is_so(&rt, send_all(rt.alloc(), &mut sender, &[part]), &"sent");
        is_so(&rt, sleeps_shortly(&rt, &home) == is_woken, &is_woken);
    }
    drop(sender);
    is_so(&rt, sleeps_shortly(&rt, &home), &"gone");
}

/// Whether a sleep at this end is short.
fn sleeps_shortly(rt: &(impl Clock + Wait + Abort), sender: &Sender) -> bool {
    let start = Instant::now(rt).expect(rt, "a clock");
    sender.sleep(rt);
    was_short(rt, start)
}

/// A thread that has nothing to do for this many milliseconds is asleep by then.
const PAUSE: u64 = 5;

/// Two messages of a lane, and the end of its stream.
const OF_A_LANE: &[Part<'static>] = &[Part::ImageEnd, Part::ImageEnd, Part::StreamEnd];

/// Sends these, each after a pause and once there is room. Returns whether each could be made and was sent.
fn send_slowly(
    rt: &(impl Clock + Wait),
    alloc: Global,
    sender: &mut Sender,
    parts: &[Part<'_>],
) -> bool {
    for part in parts {
        let Ok(message) = message(alloc, *part) else {
            return false;
        };
        thread::sleep(rt, Duration::from_millis(PAUSE));
        if !sender.send(rt, Packet::from(message)) {
            return false;
        }
    }
    true
}

/// Sends Stop on the first lane; then all messages of the last one, and of each before it.
fn send_from_last(rt: &(impl Clock + Wait), alloc: Global, lanes: Vec<Sender>) -> bool {
    let mut lanes = lanes;
    for (lane, sender) in lanes.iter_mut().enumerate() {
        if lane == 0 && !send_slowly(rt, alloc, sender, &[Part::Stop]) {
            return false;
        }
    }
    for _ in 0..lanes.len() {
        let Some(mut sender) = lanes.pop() else {
            return false;
        };
        if !lanes.is_empty() && !send_slowly(rt, alloc, &mut sender, OF_A_LANE) {
            return false;
        }
    }
    true
}

/// Whether no sleep lasts of a gatherer that drains four lanes, of which the last one sends first.
fn drains_shortly<R: Threads + Wait + Clock + Abort + Sync>(rt: &R, alloc: Global) -> bool {
    let (output, _consumer) = new_ring(alloc, 1).expect(rt, "a ring");
    let (mut lanes, inputs) = rings(alloc, 4, 1).expect(rt, "rings");
    for sender in lanes.iter_mut() {
        is_so(rt, sender.set_home(&output), &"shared");
    }
    let start = Instant::now(rt).expect(rt, "a clock");
    let both = thread::join(
        rt,
        move || gathered(rt, alloc, inputs, output).end == StageEnd::Broken,
        move || send_from_last(rt, alloc, lanes),
    );
    is_so(rt, both.0 && both.1, &"gathered");
    was_short(rt, start)
}

/// A gatherer that drains takes what comes from any lane: none of its sleeps lasts, though the lanes before that one
/// are silent. On a busy machine a try may take long by itself, but hardly both of two.
#[test]
fn drains_whichever_lane_has_no_room(rt: HostRuntime) {
    is_so(
        &rt,
        drains_shortly(&rt, rt.alloc()) || drains_shortly(&rt, rt.alloc()),
        &"no sleep lasted",
    );
}

/// Sends a row, if there is room. It is so wide that a ring of four keeps two places free next to it.
fn send_wide(rt: &impl Abort, alloc: Global, sender: &mut Sender) {
    let row = Vec::from_elem(alloc, 0, 40_000).expect(rt, "a row");
    if sender.has_room() {
        let row = Samples::from_vec(SampleVec::Bytes(row));
        sender.send_reserved(Packet::from(Message::Row(row)));
    }
}

/// Receives and drops the next two messages.
fn drop_two(receiver: &mut Receiver) {
    for _ in 0..2 {
        if receiver.has_message() {
            drop(receiver.receive_known());
        }
    }
}

/// A sender of wide rows is woken when half of the messages are left, and finds no room; it is woken again when none is
/// left.
#[test]
fn wakes_where_none_is_left(rt: HostRuntime) {
    let (mut sender, mut receiver) = new_ring(rt.alloc(), 4).expect(&rt, "a ring");
    send_wide(&rt, rt.alloc(), &mut sender);
    let around = [Part::ImageEnd, Part::Begin(Kind::Gray, 2, 1, 9)];
    is_so(&rt, send_all(rt.alloc(), &mut sender, &around), &"sent");
    send_wide(&rt, rt.alloc(), &mut sender);
    for has_room in [false, true] {
        drop_two(&mut receiver);
        let start = Instant::now(&rt).expect(&rt, "a clock");
        sender.wait(&rt);
        is_so(&rt, was_short(&rt, start), &has_room);
        is_so(&rt, sender.has_room() == has_room, &"room");
    }
}
