//! Chains of stages, each in a thread of its own.

use super::chains::{FROM_SECOND, are_limits, is_chain};
use super::is_so;
use super::rings::{IMAGE, TURNS, all_come, begins_with, holding, holds, is_end, sends};
use pnm_flow::{
    ChainDone, Gate, NoStart, OpenGate, Receiver, Sender, StageEnd, new_ring, run_chain,
};
use pnm_image::Kind;
use pnm_test_support::Part;
use pnm_tools::{Tool, ToolFault};
use std::alloc::Global;
use std::cmp::Ordering;
use std::process::Abort;
use std::sync::Wait;
use std::sync::atomic::AtomicU64;
use std::sync::atomic::Ordering::SeqCst;
use std::thread;
use std::thread::Threads;

/// What `pnminvert` makes of the image.
pub const INVERTED: &[Part<'static>] = &[
    Part::Begin(Kind::Gray, 2, 1, 122),
    Part::Row(&[57, 56]),
    Part::ImageEnd,
    Part::StreamEnd,
];

/// An image of two columns, and one of a single column.
const NARROW: &[Part<'static>] = &[
    Part::Begin(Kind::Gray, 2, 1, 122),
    Part::Row(&[65, 66]),
    Part::ImageEnd,
    Part::Begin(Kind::Gray, 1, 1, 122),
    Part::Row(&[7]),
    Part::ImageEnd,
    Part::StreamEnd,
];

/// Runs the chain of these tools, which have to be lawful.
pub fn chain<R: Threads + Wait + Abort + Sync>(
    rt: &R,
    alloc: Global,
    tools: &[Tool],
    capacity: usize,
    lanes: usize,
    gate: &impl Gate,
    input: Receiver,
    output: Sender,
) -> Result<ChainDone, NoStart> {
    assert!(rt; is_chain(tools));
    assert!(rt; are_limits(capacity, lanes));
    run_chain(rt, alloc, tools, capacity, lanes, gate, input, output)
}

/// `count` tools that invert, except the one at `place`, if there is one, which cuts.
pub fn tools_with_cut(rt: &impl Abort, alloc: Global, count: usize, place: usize) -> Vec<Tool> {
    let mut tools = Vec::new(alloc);
    for index in 0..count {
        let tool = if index == place {
            Tool::Cut(FROM_SECOND)
        } else {
            Tool::Invert
        };
        tools.push(tool).expect(rt, "room for a tool");
    }
    tools
}

/// A number of tools, of which one may cut, the capacity of their rings, and the messages that they take.
#[derive(Clone, Copy)]
struct Run<'a> {
    count: usize,
    cut_at: usize,
    capacity: usize,
    takes: &'a [Part<'a>],
}

/// What came of a chain; the sending end of the ring before it, unless that is gone; and the receiving end of the ring
/// behind it.
#[derive(Drop)]
pub struct Ended {
    pub done: Result<ChainDone, NoStart>,
    pub producer: Option<Sender>,
    pub consumer: Receiver,
}

/// Runs the chain of these tools over rings of this capacity, which takes these messages. If the input's other end is
/// gone, no more can come. Returns `None` if there is no memory for the chain's outer rings.
pub fn ran<R: Threads + Wait + Abort + Sync>(
    rt: &R,
    alloc: Global,
    tools: &[Tool],
    capacity: usize,
    gate: &impl Gate,
    takes: &[Part<'_>],
    is_gone: bool,
) -> Option<Ended> {
    let (producer, input) = holding(alloc, takes, is_gone)?;
    let (output, consumer) = new_ring(alloc, 8)?;
    Some(Ended {
        done: chain(rt, alloc, tools, capacity, 1, gate, input, output),
        producer,
        consumer,
    })
}

/// The chain runs to its end, and has sent these. `ends` says how the stages before the one that cuts have ended, how
/// that one has, and how those after it have.
fn ends_so<R: Threads + Wait + Abort + Sync>(
    rt: &R,
    alloc: Global,
    run: &Run<'_>,
    gate: &impl Gate,
    ends: (StageEnd, StageEnd, StageEnd),
    sends: &[Part<'_>],
) {
    let tools = tools_with_cut(rt, alloc, run.count, run.cut_at);
    let tools = tools.as_slice();
    let ran = ran(rt, alloc, tools, run.capacity, gate, run.takes, false);
    let mut ran = ran.expect(rt, "rings");
    have_ended(rt, &mut ran.done, run, ends);
    holds(rt, &mut ran.consumer, sends, "what the chain sent");
}

/// The chain was started, has taken all, and its stages have ended as `ends` says.
fn have_ended(
    rt: &impl Abort,
    done: &mut Result<ChainDone, NoStart>,
    run: &Run<'_>,
    ends: (StageEnd, StageEnd, StageEnd),
) {
    match done {
        Ok(done) => {
            let links = done.links.len();
            is_so(rt, links == run.count.saturating_sub(1), &"links");
            stages_have_ended(rt, done.ends.as_slice(), run, ends);
            holds(rt, &mut done.input, &[], "what the chain took");
        }
        Err(_) => is_so(rt, false, &"not started"),
    }
}

/// Each stage of the run has ended as `ends` says.
fn stages_have_ended(
    rt: &impl Abort,
    stages: &[StageEnd],
    run: &Run<'_>,
    ends: (StageEnd, StageEnd, StageEnd),
) {
    is_so(rt, stages.len() == run.count, &"stages");
    for (index, end) in stages.iter().enumerate() {
        let want = match index.cmp(&run.cut_at) {
            Ordering::Less => ends.0,
            Ordering::Equal => ends.1,
            Ordering::Greater => ends.2,
        };
        is_end(rt, *end, want, "a stage");
    }
}

/// `count` tools that invert an image, over rings of this capacity.
fn inverting(count: usize, capacity: usize) -> Run<'static> {
    Run {
        count,
        cut_at: count,
        capacity,
        takes: IMAGE,
    }
}

const ALL_WELL: (StageEnd, StageEnd, StageEnd) = (StageEnd::Well, StageEnd::Well, StageEnd::Well);

const COUNTS_AND_CAPACITIES: &[(usize, usize)] = &[(1, 1), (2, 1), (3, 1024), (64, 1), (64, 8)];

#[test]
fn passes_a_stream_through_all_tools(rt: HostRuntime) {
    for (count, capacity) in COUNTS_AND_CAPACITIES {
        let run = inverting(*count, *capacity);
        let sends = if count % 2 == 0 { IMAGE } else { INVERTED };
        ends_so(&rt, rt.alloc(), &run, &OpenGate, ALL_WELL, sends);
    }
}

/// An image of a single column.
const ONE_COLUMN: &[Part<'static>] = &[
    Part::Begin(Kind::Gray, 1, 1, 122),
    Part::Row(&[7]),
    Part::ImageEnd,
    Part::StreamEnd,
];

/// What comes of the second column of an image before Stop, as it was and inverted.
const SECOND_COLUMN: &[Part<'static>] = &[
    Part::Begin(Kind::Gray, 1, 1, 122),
    Part::Row(&[66]),
    Part::ImageEnd,
    Part::Stop,
];

const SECOND_COLUMN_INVERTED: &[Part<'static>] = &[
    Part::Begin(Kind::Gray, 1, 1, 122),
    Part::Row(&[56]),
    Part::ImageEnd,
    Part::Stop,
];

/// The tool at `cut_at` refuses an image of one column, and that breaks off the `count` tools.
fn breaks_off<R: Threads + Wait + Abort + Sync>(
    rt: &R,
    alloc: Global,
    count: usize,
    cut_at: usize,
) {
    let ends = (
        StageEnd::Well,
        StageEnd::Fault(ToolFault::CutOutside),
        StageEnd::Broken,
    );
    let capacity = 1;
    let takes = ONE_COLUMN;
    let run = Run {
        count,
        cut_at,
        capacity,
        takes,
    };
    ends_so(rt, alloc, &run, &OpenGate, ends, &[Part::Stop]);
    let takes = NARROW;
    let run = Run { takes, ..run };
    let sends = if count % 2 == 1 {
        SECOND_COLUMN
    } else {
        SECOND_COLUMN_INVERTED
    };
    ends_so(rt, alloc, &run, &OpenGate, ends, sends);
}

/// How many tools there are, and which of them refuses.
const COUNTS_AND_CUTS: &[(usize, usize)] = &[(1, 0), (2, 0), (2, 1), (64, 0), (64, 31), (64, 63)];

/// The tools before the one that refuses end well, and those after it are broken off: at its first
/// message, and at a later one.
#[test]
fn breaks_off_after_a_refusal(rt: HostRuntime) {
    for (count, cut_at) in COUNTS_AND_CUTS {
        breaks_off(&rt, rt.alloc(), *count, *cut_at);
    }
}

/// The chain was started, and its last tool has ended as `want` says.
fn is_last(rt: &impl Abort, done: &Result<ChainDone, NoStart>, want: StageEnd) {
    let end = match done {
        Ok(done) => done.ends.last(),
        Err(_) => None,
    };
    match end {
        Some(end) => is_end(rt, *end, want, "the last tool"),
        None => panic!(rt; "no end"),
    }
}

/// If no more can come, all stages end, and what came is sent before Stop.
#[test]
fn ends_where_its_input_is_gone(rt: HostRuntime) {
    let tools = tools_with_cut(&rt, rt.alloc(), 64, 64);
    for taken in 0..4 {
        sends_stop_after(&rt, rt.alloc(), tools.as_slice(), &IMAGE[..taken]);
    }
}

/// If no more can come after these messages, the last tool is broken off, and what came is sent before Stop.
fn sends_stop_after<R: Threads + Wait + Abort + Sync>(
    rt: &R,
    alloc: Global,
    tools: &[Tool],
    takes: &[Part<'_>],
) {
    let ran = ran(rt, alloc, tools, 1, &OpenGate, takes, true);
    let mut ran = ran.expect(rt, "rings");
    is_last(rt, &ran.done, StageEnd::Broken);
    begins_with(rt, &mut ran.consumer, takes, "what came");
    holds(rt, &mut ran.consumer, &[Part::Stop], "Stop at last");
}

/// The sending end of a ring for one message whose other end is gone.
fn unheard(rt: &impl Abort, alloc: Global) -> Sender {
    new_ring(alloc, 1).expect(rt, "a ring").0
}

/// The chain has taken all that came.
fn has_taken_all(rt: &impl Abort, done: &mut Result<ChainDone, NoStart>) {
    match done {
        Ok(done) => holds(rt, &mut done.input, &[], "all is taken"),
        Err(_) => is_so(rt, false, &"not started"),
    }
}

/// If nobody takes what is sent, all stages end, and all that came is taken.
#[test]
fn ends_where_its_output_is_gone(rt: HostRuntime) {
    let tools = tools_with_cut(&rt, rt.alloc(), 64, 64);
    goes_unheard(&rt, rt.alloc(), tools.as_slice());
}

/// These tools take all that came, and the last one sees that the other end of its ring is gone.
fn goes_unheard<R: Threads + Wait + Abort + Sync>(rt: &R, alloc: Global, tools: &[Tool]) {
    let (_producer, input) = holding(alloc, IMAGE, false).expect(rt, "a ring");
    let output = unheard(rt, alloc);
    let mut done = chain(rt, alloc, tools, 1, 1, &OpenGate, input, output);
    is_last(rt, &done, StageEnd::PeerGone);
    has_taken_all(rt, &mut done);
}

/// Holds each of two threads back until the other has come.
#[derive(Drop)]
pub struct Both {
    pub first: AtomicU64,
    pub second: AtomicU64,
    /// How many waited in vain.
    pub missed: AtomicU64,
}

impl Both {
    pub fn new() -> Both {
        Both {
            first: AtomicU64::new(0),
            second: AtomicU64::new(0),
            missed: AtomicU64::new(0),
        }
    }

    /// One of the two has come.
    fn meet(&self, is_first: bool) {
        let (own, other) = if is_first {
            (&self.first, &self.second)
        } else {
            (&self.second, &self.first)
        };
        own.fetch_add(1, SeqCst);
        for _ in 0..TURNS {
            if other.load(SeqCst) > 0 {
                return;
            }
            thread::yield_now();
        }
        self.missed.fetch_add(1, SeqCst);
    }
}

/// The two threads are those of two tools.
impl Gate for Both {
    fn arrive(&self, stage: usize, _lane: usize) {
        self.meet(stage == 1);
    }
}

/// The two threads are those of two lanes of one tool.
#[derive(Drop)]
pub struct BothLanes(pub Both);

impl Gate for BothLanes {
    fn arrive(&self, _stage: usize, lane: usize) {
        self.0.meet(lane == 0);
    }
}

/// Both have come, each once, and neither waited in vain.
pub fn has_met(rt: &impl Abort, both: &Both) {
    let counts = [
        both.first.load(SeqCst),
        both.second.load(SeqCst),
        both.missed.load(SeqCst),
    ];
    is_so(rt, counts == [1, 1, 0], &counts);
}

/// Each of two tools waits at the gate for the other, and both pass it once.
#[test]
fn gives_each_tool_a_thread(rt: HostRuntime) {
    let both = Both::new();
    ends_so(&rt, rt.alloc(), &inverting(2, 1), &both, ALL_WELL, IMAGE);
    has_met(&rt, &both);
}

/// A message, and what comes of it.
type Step<'a> = (Part<'a>, &'a [Part<'a>]);

/// What comes of an image of two rows in `pnminvert`. If there are two lanes, each gets one row.
const ROWS_INVERTED: &[Step<'static>] = &[
    (
        Part::Begin(Kind::Gray, 1, 2, 9),
        &[Part::Begin(Kind::Gray, 1, 2, 9)],
    ),
    (Part::Row(&[1]), &[Part::Row(&[8])]),
    (Part::Row(&[2]), &[Part::Row(&[7])]),
    (Part::ImageEnd, &[Part::ImageEnd]),
    (Part::StreamEnd, &[Part::StreamEnd]),
];

/// What comes of one sample in `pamenlarge 2 | pnminvert`.
const SAMPLE_DOUBLED: &[Step<'static>] = &[
    (
        Part::Begin(Kind::Gray, 1, 1, 9),
        &[Part::Begin(Kind::Gray, 2, 2, 9)],
    ),
    (Part::Row(&[7]), &[Part::Row(&[2, 2]), Part::Row(&[2, 2])]),
    (Part::ImageEnd, &[Part::ImageEnd]),
    (Part::StreamEnd, &[Part::StreamEnd]),
];

/// Sends a message, and takes all that comes of it. Returns whether it all came.
fn gives(alloc: Global, producer: &mut Sender, consumer: &mut Receiver, step: &Step<'_>) -> bool {
    sends(alloc, producer, step.0) && all_come(consumer, step.1)
}

/// Sends each message only once all that comes of the one before was taken. Returns whether it all came.
fn one_by_one(
    alloc: Global,
    producer: &mut Sender,
    consumer: &mut Receiver,
    steps: &[Step<'_>],
) -> bool {
    for step in steps {
        if !gives(alloc, producer, consumer, step) {
            return false;
        }
    }
    true
}

const INVERTING: [Tool; 1] = [Tool::Invert];

const DOUBLING: [Tool; 2] = [Tool::Enlarge(2, 2), Tool::Invert];

/// What comes of each message passes through the tools before the next one is there, over rings of capacity 1, and over
/// two lanes too.
#[test]
fn passes_each_message_on_at_once(rt: HostRuntime) {
    let (inverting, doubling) = (INVERTING, DOUBLING);
    for lanes in 1..3 {
        passes_on(&rt, rt.alloc(), &inverting, lanes, ROWS_INVERTED);
        passes_on(&rt, rt.alloc(), &doubling, lanes, SAMPLE_DOUBLED);
    }
}

/// What comes of each of these messages passes through these tools before the next one is there.
fn passes_on<R: Threads + Wait + Abort + Sync>(
    rt: &R,
    alloc: Global,
    tools: &[Tool],
    lanes: usize,
    steps: &[Step<'_>],
) {
    let (mut producer, input) = new_ring(alloc, 1).expect(rt, "a ring");
    let (output, mut consumer) = new_ring(alloc, 1).expect(rt, "a ring");
    let both = thread::join(
        rt,
        move || chain(rt, alloc, tools, 1, lanes, &OpenGate, input, output).is_ok(),
        move || one_by_one(alloc, &mut producer, &mut consumer, steps),
    );
    is_so(rt, both.0 && both.1, &lanes);
}
