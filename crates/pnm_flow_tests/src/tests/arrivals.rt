//! Which threads come to the gate of a run: each stage and lane once, by its number, and before it takes a message.

use super::chains::outcome_of;
use super::rings::TURNS;
use super::{agrees, is_so};
use pnm_flow::{Gate, Summary};
use pnm_image::Device;
use pnm_tools::Tool;
use std::alloc::Global;
use std::io::Read;
use std::process::Abort;
use std::sync::Wait;
use std::sync::atomic::AtomicU64;
use std::sync::atomic::Ordering::SeqCst;
use std::thread::Threads;
use std::{io, thread};

/// An image of nine rows, and the image inverted.
const NINE_ROWS: &[u8] = b"P5\n1 9\n9\n\x01\x02\x03\x04\x05\x06\x07\x08\x09";

const NINE_ROWS_INVERTED: &[u8] = b"P5\n1 9\n9\n\x08\x07\x06\x05\x04\x03\x02\x01\x00";

const INVERT: [Tool; 1] = [Tool::Invert];

const INVERT_THRICE: [Tool; 3] = [Tool::Invert, Tool::Invert, Tool::Invert];

/// How much a run has read so far, who has come to its gate, and whether a wait for reads was in vain, or there were
/// too many reads.
#[derive(Drop)]
struct Seen {
    reads: AtomicU64,
    first: AtomicU64,
    second: AtomicU64,
    third: AtomicU64,
    /// The second lane of the first stage.
    lane: AtomicU64,
    /// Anybody else.
    other: AtomicU64,
    missed: AtomicU64,
    early: AtomicU64,
}

impl Seen {
    fn new() -> Seen {
        Seen {
            reads: AtomicU64::new(0),
            first: AtomicU64::new(0),
            second: AtomicU64::new(0),
            third: AtomicU64::new(0),
            lane: AtomicU64::new(0),
            other: AtomicU64::new(0),
            missed: AtomicU64::new(0),
            early: AtomicU64::new(0),
        }
    }

    /// How often these have come: the first three stages, the second lane of the first one, and anybody else.
    fn came(&self) -> [u64; 5] {
        [
            self.first.load(SeqCst),
            self.second.load(SeqCst),
            self.third.load(SeqCst),
            self.lane.load(SeqCst),
            self.other.load(SeqCst),
        ]
    }
}

/// Gives one byte for each read, and counts the reads.
#[derive(Drop)]
struct ByteByByte<'a>(&'a [u8], &'a Seen);

impl Read for ByteByByte<'_> {
    fn read(&mut self, buffer: &mut [u8]) -> io::Result<usize> {
        self.1.reads.fetch_add(1, SeqCst);
        let count = buffer.len().min(1);
        self.0.read(&mut buffer[..count])
    }
}

/// Holds a stage, or a lane of it, until as many reads were made as can be before it takes anything, and a while
/// longer. Counts who comes.
#[derive(Drop)]
struct HoldsOne<'a> {
    /// The stage and the lane that are held.
    stage: usize,
    lane: usize,
    /// The reads that can be made without them.
    most: u64,
    seen: &'a Seen,
}

impl Gate for HoldsOne<'_> {
    fn arrive(&self, stage: usize, lane: usize) {
        let seen = self.seen;
        match (stage, lane) {
            (1, 0) => seen.first.fetch_add(1, SeqCst),
            (2, 0) => seen.second.fetch_add(1, SeqCst),
            (3, 0) => seen.third.fetch_add(1, SeqCst),
            (1, 1) => seen.lane.fetch_add(1, SeqCst),
            _ => seen.other.fetch_add(1, SeqCst),
        };
        if stage == self.stage && lane == self.lane {
            hold(seen, self.most);
        }
    }
}

/// Waits until `most` reads were made, and a while longer.
fn hold(seen: &Seen, most: u64) {
    for turn in 0..TURNS {
        if seen.reads.load(SeqCst) >= most {
            break;
        }
        if turn + 1 == TURNS {
            seen.missed.fetch_add(1, SeqCst);
        }
        thread::yield_now();
    }
    for _ in 0..100_000 {
        thread::yield_now();
    }
    if seen.reads.load(SeqCst) > most {
        seen.early.fetch_add(1, SeqCst);
    }
}

/// While this stage and lane are held, `most` reads are made and no more; `came` says how often each of the stages and
/// lanes comes.
fn comes_before_it_takes<R: Threads + Wait + Abort + Sync>(
    rt: &R,
    alloc: Global,
    tools: &[Tool],
    lanes: usize,
    (stage, lane): (usize, usize),
    most: u64,
    came: [u64; 5],
) {
    let seen = Seen::new();
    let gate = HoldsOne {
        stage,
        lane,
        most,
        seen: &seen,
    };
    let mut reader = Device::new(ByteByByte(NINE_ROWS, &seen));
    let (answer, written) = outcome_of(rt, alloc, (tools, 1, lanes), &gate, &mut reader);
    let want = (Ok(Summary { images: 1, rows: 9 }), NINE_ROWS_INVERTED);
    agrees(rt, (answer, written.as_slice()), want, &(stage, lane));
    has_come(rt, &seen, came);
}

/// Each has come as often as `came` says, no wait was in vain, and nothing was read too early.
fn has_come(rt: &impl Abort, seen: &Seen, came: [u64; 5]) {
    let late = [seen.missed.load(SeqCst), seen.early.load(SeqCst)];
    is_so(rt, seen.came() == came && late == [0, 0], &late);
}

/// Stages, and how many reads are made while each is held.
const READ_BEFORE_STAGES: &[(usize, u64)] = &[(1, 9), (2, 11), (3, 13)];

/// Over rings of one message, each ring before the stage that is held holds one message, and so does each stage before
/// it: the image's head, of nine bytes, and 2 k - 2 rows if stage k is held. The caller holds none, and doesn't read
/// for one.
#[test]
fn each_stage_comes_before_it_takes(rt: HostRuntime) {
    for (stage, most) in READ_BEFORE_STAGES {
        comes_before_it_takes(
            &rt,
            rt.alloc(),
            &INVERT_THRICE,
            1,
            (*stage, 0),
            *most,
            [1, 1, 1, 0, 0],
        );
    }
}

/// Lanes, and how many reads are made while each is held.
const READ_BEFORE_LANES: &[(usize, u64)] = &[(0, 11), (1, 12)];

/// Each lane has been sent the head. If the first lane is held, the first row waits for room with the dealer; if the
/// second lane is held, the second row does. The ring before the dealer holds a row.
#[test]
fn each_lane_comes_before_it_takes(rt: HostRuntime) {
    for (lane, most) in READ_BEFORE_LANES {
        let came = [1, 0, 0, 1, 0];
        comes_before_it_takes(&rt, rt.alloc(), &INVERT, 2, (1, *lane), *most, came);
    }
}
