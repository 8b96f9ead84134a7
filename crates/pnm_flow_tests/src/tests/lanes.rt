//! Lanes: what is dealt to them, what is gathered from them, and a tool over them.

use super::is_so;
use super::rings::{comes, holding, holds, is_end, passes, sends};
use pnm_flow::{
    DealDone, GatherDone, NoStart, OpenGate, Receiver, Sender, StageDone, StageEnd, deal, gather,
    new_ring, run_lanes,
};
use pnm_image::Kind;
use pnm_test_support::Part;
use pnm_tools::Tool;
use std::alloc::Global;
use std::process::Abort;
use std::sync::Wait;
use std::thread;
use std::thread::Threads;

/// Deals to the outputs. There have to be 1 to 8.
pub fn dealt(
    rt: &(impl Wait + Abort),
    alloc: Global,
    input: Receiver,
    outputs: Vec<Sender>,
) -> DealDone {
    assert!(rt; 1 <= outputs.len() && outputs.len() <= 8);
    deal(rt, alloc, input, outputs)
}

/// Gathers from the inputs. There have to be 1 to 8.
pub fn gathered(
    rt: &(impl Wait + Abort),
    alloc: Global,
    inputs: Vec<Receiver>,
    output: Sender,
) -> GatherDone {
    assert!(rt; 1 <= inputs.len() && inputs.len() <= 8);
    gather(rt, alloc, inputs, output)
}

/// Makes `count` rings of this capacity. Returns `None` if there is no memory.
pub fn rings(alloc: Global, count: usize, capacity: usize) -> Option<(Vec<Sender>, Vec<Receiver>)> {
    let mut ends = (Vec::new(alloc), Vec::new(alloc));
    let mut are_made = true;
    for _ in 0..count {
        are_made = add_ring(alloc, capacity, &mut ends.0, &mut ends.1).is_some() && are_made;
    }
    are_made.then_some(ends)
}

/// Adds the ends of a ring of this capacity. Returns `None` if there is no memory.
fn add_ring(
    alloc: Global,
    capacity: usize,
    outputs: &mut Vec<Sender>,
    inputs: &mut Vec<Receiver>,
) -> Option<()> {
    let (output, input) = new_ring(alloc, capacity)?;
    let output = outputs.push(output).ok();
    let input = inputs.push(input).ok();
    output.and(input)
}

/// How many of `height` rows go to the lane.
fn rows_of(height: u32, lane: usize, lanes: usize) -> u32 {
    let mut count: u32 = 0;
    for y in 0..height as usize {
        if lanes != 0 && y % lanes == lane {
            count = count.saturating_add(1);
        }
    }
    count
}

/// Whether each lane gets this next.
fn each_gets(lanes: &mut [Receiver], part: Part<'_>) -> bool {
    for lane in lanes.iter_mut() {
        if !comes(lane, part) {
            return false;
        }
    }
    true
}

/// Sends the head of an image of this height, whose parts come to the lanes.
fn begins(alloc: Global, producer: &mut Sender, lanes: &mut [Receiver], height: u32) -> bool {
    let count = lanes.len();
    if !sends(alloc, producer, Part::Begin(Kind::Gray, 1, height, 9)) {
        return false;
    }
    for (lane, input) in lanes.iter_mut().enumerate() {
        let rows = rows_of(height, lane, count);
        if !comes(input, Part::Begin(Kind::Gray, 1, rows, 9)) {
            return false;
        }
    }
    true
}

/// Sends `height` rows, each only once the one before has come to its lane.
fn deals_rows(alloc: Global, producer: &mut Sender, lanes: &mut [Receiver], height: u16) -> bool {
    let count = lanes.len();
    for y in 0..height {
        if count == 0 {
            return false;
        }
        let lane = &mut lanes[y as usize % count];
        if !passes(alloc, producer, lane, Part::Row(&[y])) {
            return false;
        }
    }
    true
}

/// Sends an image of this height, each message only once its parts have come to the lanes.
fn one_by_one(alloc: Global, producer: &mut Sender, lanes: &mut [Receiver], height: u16) -> bool {
    begins(alloc, producer, lanes, u32::from(height))
        && deals_rows(alloc, producer, lanes, height)
        && sends(alloc, producer, Part::ImageEnd)
        && each_gets(lanes, Part::ImageEnd)
        && sends(alloc, producer, Part::StreamEnd)
        && each_gets(lanes, Part::StreamEnd)
}

/// Whether each message of an image of this height is dealt to the lanes before the next one is there.
fn deals_at_once<R: Threads + Wait + Abort + Sync>(
    rt: &R,
    alloc: Global,
    count: usize,
    height: u16,
) -> bool {
    let (mut producer, input) = new_ring(alloc, 1).expect(rt, "a ring");
    let (outputs, mut lanes) = rings(alloc, count, 1).expect(rt, "rings");
    let both = thread::join(
        rt,
        move || dealt(rt, alloc, input, outputs).end == StageEnd::Well,
        move || one_by_one(alloc, &mut producer, &mut lanes, height),
    );
    both.0 && both.1
}

/// 1 to 8 lanes, and heights 0 to 9: each message is dealt before the next one is there, over rings of capacity 1.
#[test]
fn deals_each_message_at_once(rt: HostRuntime) {
    for count in 1..9 {
        for height in 0..10 {
            let is_right = deals_at_once(&rt, rt.alloc(), count, height);
            is_so(&rt, is_right, &(count, height));
        }
    }
}

/// Sends `height` rows, each only once the one before has come at the other end.
fn passes_rows(alloc: Global, producer: &mut Sender, consumer: &mut Receiver, height: u16) -> bool {
    for y in 0..height {
        if !passes(alloc, producer, consumer, Part::Row(&[y])) {
            return false;
        }
    }
    true
}

/// Sends an image of this height, each message only once the one before it has come at the other end.
fn passes_image(
    alloc: Global,
    producer: &mut Sender,
    consumer: &mut Receiver,
    height: u16,
) -> bool {
    let begin = Part::Begin(Kind::Gray, 1, u32::from(height), 9);
    passes(alloc, producer, consumer, begin)
        && passes_rows(alloc, producer, consumer, height)
        && passes(alloc, producer, consumer, Part::ImageEnd)
        && passes(alloc, producer, consumer, Part::StreamEnd)
}

/// Whether an image of this height that is dealt to the lanes is gathered as it was, message by message.
fn gathers_again<R: Threads + Wait + Abort + Sync>(
    rt: &R,
    alloc: Global,
    count: usize,
    height: u16,
) -> bool {
    let (mut producer, input) = new_ring(alloc, 1).expect(rt, "a ring");
    let (outputs, inputs) = rings(alloc, count, 1).expect(rt, "rings");
    let (output, mut consumer) = new_ring(alloc, 1).expect(rt, "a ring");
    let both = thread::join(
        rt,
        move || dealt(rt, alloc, input, outputs).end == StageEnd::Well,
        move || {
            thread::join(
                rt,
                move || gathered(rt, alloc, inputs, output).end == StageEnd::Well,
                move || passes_image(alloc, &mut producer, &mut consumer, height),
            )
        },
    );
    both.0 && both.1.0 && both.1.1
}

/// 1 to 8 lanes, and heights 0 to 9: what is dealt is gathered as it was, message by message, over rings of capacity 1.
#[test]
fn gathers_what_is_dealt(rt: HostRuntime) {
    for count in 1..9 {
        for height in 0..10 {
            let is_right = gathers_again(&rt, rt.alloc(), count, height);
            is_so(&rt, is_right, &(count, height));
        }
    }
}

/// An image of two rows, and the end of the stream.
const TWO_ROWS: &[Part<'static>] = &[
    Part::Begin(Kind::Gray, 1, 2, 9),
    Part::Row(&[1]),
    Part::Row(&[2]),
    Part::ImageEnd,
    Part::StreamEnd,
];

const INVERTED: &[Part<'static>] = &[
    Part::Begin(Kind::Gray, 1, 2, 9),
    Part::Row(&[8]),
    Part::Row(&[7]),
    Part::ImageEnd,
    Part::StreamEnd,
];

/// The lanes were started and have ended well, have taken all, and have sent the image inverted.
fn has_inverted(rt: &impl Abort, done: &mut Result<StageDone, NoStart>, consumer: &mut Receiver) {
    match done {
        Ok(done) => {
            is_end(rt, done.end, StageEnd::Well, "an image of two rows");
            holds(rt, &mut done.input, &[], "nothing is left");
        }
        Err(_) => is_so(rt, false, &"not started"),
    }
    holds(rt, consumer, INVERTED, "its rows inverted");
}

/// More lanes than rows, and all messages are there before: what comes of them is in their order.
#[test]
fn inverts_over_three_lanes(rt: HostRuntime) {
    let alloc = rt.alloc();
    let (_producer, input) = holding(alloc, TWO_ROWS, false).expect(&rt, "a ring");
    let (output, mut consumer) = new_ring(alloc, 8).expect(&rt, "a ring");
    let mut done = run_lanes(&rt, alloc, &Tool::Invert, 1, 3, 8, &OpenGate, input, output);
    has_inverted(&rt, &mut done, &mut consumer);
}
