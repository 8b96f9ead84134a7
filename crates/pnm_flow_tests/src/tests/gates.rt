//! Runs whose threads are held at their gate, and the order in which they read and write.

use super::chains::{Chain, outcome_of, run_at};
use super::rings::TURNS;
use super::threads::{Both, BothLanes, has_met};
use super::{agrees, is_so};
use pnm_flow::{Gate, OpenGate, RunFault, Summary};
use pnm_image::{BytesOut, Device, Form};
use pnm_tools::Tool;
use std::alloc::Global;
use std::io::{Read, Write};
use std::process::Abort;
use std::sync::Wait;
use std::sync::atomic::AtomicU64;
use std::sync::atomic::Ordering::SeqCst;
use std::thread::Threads;
use std::{io, thread};

/// An image of one sample, and what two tools make of it.
const SAMPLE: &[u8] = b"P5\n1 1\n9\n\x07";

const TOOLS: [Tool; 2] = [Tool::Enlarge(2, 2), Tool::Invert];

const INVERT: [Tool; 1] = [Tool::Invert];

const MADE: &[u8] = b"P5\n2 2\n9\n\x02\x02\x02\x02";

/// An image of two rows, and the image inverted.
const TWO_ROWS: &[u8] = b"P5\n1 2\n9\n\x01\x02";

const TWO_ROWS_INVERTED: &[u8] = b"P5\n1 2\n9\n\x08\x07";

const TWO_ROWS_PASSED: Result<Summary, RunFault> = Ok(Summary { images: 1, rows: 2 });

/// Tools, the number of their lanes, an input, and the image of two rows that they make of it.
type HeldRun<'a> = (&'a [Tool], usize, &'a [u8], &'a [u8]);

/// The run passes the gate, and makes the image.
fn meets<R: Threads + Wait + Abort + Sync>(
    rt: &R,
    alloc: Global,
    held: HeldRun<'_>,
    gate: &impl Gate,
) {
    let (tools, lanes, input, made) = held;
    let mut reader = Device::new(input);
    let (answer, written) = outcome_of(rt, alloc, (tools, 1, lanes), gate, &mut reader);
    agrees(
        rt,
        (answer, written.as_slice()),
        (TWO_ROWS_PASSED, made),
        &lanes,
    );
}

/// Each of two tools waits at the gate for the other, so both have a thread.
#[test]
fn gives_each_tool_of_a_run_a_thread(rt: HostRuntime) {
    let both = Both::new();
    meets(&rt, rt.alloc(), (&TOOLS, 1, SAMPLE, MADE), &both);
    has_met(&rt, &both);
}

/// Each of two lanes of a tool waits at the gate for the other, and both pass it once.
#[test]
fn gives_each_lane_of_a_run_a_thread(rt: HostRuntime) {
    let lanes = BothLanes(Both::new());
    let held: HeldRun<'_> = (&INVERT, 2, TWO_ROWS, TWO_ROWS_INVERTED);
    meets(&rt, rt.alloc(), held, &lanes);
    has_met(&rt, &lanes.0);
}

/// What a run has read and written so far, how often a gate held it, and whether it waited in vain.
#[derive(Drop)]
struct Seen {
    reads: AtomicU64,
    writes: AtomicU64,
    flushes: AtomicU64,
    held: AtomicU64,
    missed: AtomicU64,
    early: AtomicU64,
}

impl Seen {
    fn new() -> Seen {
        Seen {
            reads: AtomicU64::new(0),
            writes: AtomicU64::new(0),
            flushes: AtomicU64::new(0),
            held: AtomicU64::new(0),
            missed: AtomicU64::new(0),
            early: AtomicU64::new(0),
        }
    }
}

/// A reader of these bytes that is seen.
#[derive(Drop)]
struct SeenReader<'a>(&'a [u8], &'a Seen);

impl Read for SeenReader<'_> {
    fn read(&mut self, buffer: &mut [u8]) -> io::Result<usize> {
        self.1.reads.fetch_add(1, SeqCst);
        self.0.read(buffer)
    }
}

/// A writer that is seen.
#[derive(Drop)]
struct SeenWriter<'a>(Vec<u8>, &'a Seen);

impl Write for SeenWriter<'_> {
    fn write(&mut self, bytes: &[u8]) -> io::Result<usize> {
        self.1.writes.fetch_add(1, SeqCst);
        self.0.write(bytes)
    }

    fn flush(&mut self) -> io::Result<()> {
        self.1.flushes.fetch_add(1, SeqCst);
        Ok(())
    }
}

/// Holds back the first tool, or only its first lane, until something was read, and a while longer. Counts what was
/// written by then.
#[derive(Drop)]
struct HoldsFirst<'a>(&'a Seen);

impl Gate for HoldsFirst<'_> {
    fn arrive(&self, stage: usize, lane: usize) {
        if stage != 1 || lane != 0 {
            return;
        }
        let seen = self.0;
        seen.held.fetch_add(1, SeqCst);
        for turn in 0..TURNS {
            if seen.reads.load(SeqCst) > 0 {
                break;
            }
            if turn + 1 == TURNS {
                seen.missed.fetch_add(1, SeqCst);
            }
            thread::yield_now();
        }
        for _ in 0..1_000_000 {
            thread::yield_now();
        }
        seen.early.fetch_add(seen.writes.load(SeqCst), SeqCst);
    }
}

/// The input is read while the gate holds back the first tool, or its first lane, once; nothing is written without that
/// one.
fn reads_and_writes<R: Threads + Wait + Abort + Sync>(rt: &R, alloc: Global, held: HeldRun<'_>) {
    let seen = Seen::new();
    let mut writer = Device::new(SeenWriter(Vec::new(alloc), &seen));
    let answer = run_held(rt, alloc, held, &seen, &mut writer);
    let written = writer.into_inner().0;
    agrees(
        rt,
        (answer, written.as_slice()),
        (TWO_ROWS_PASSED, held.3),
        &held.1,
    );
    has_held(rt, &seen);
}

/// Makes that run, over a reader that is seen.
fn run_held<R: Threads + Wait + Abort + Sync, W: BytesOut>(
    rt: &R,
    alloc: Global,
    held: HeldRun<'_>,
    seen: &Seen,
    writer: &mut W,
) -> Result<Summary, RunFault> {
    let mut reader = Device::new(SeenReader(held.2, seen));
    let gate = HoldsFirst(seen);
    let chain = (held.0, 1, held.1);
    run_at(rt, alloc, chain, Form::Raw, &gate, &mut reader, writer)
}

/// The gate has held once, not in vain, and nothing was written by then.
fn has_held(rt: &impl Abort, seen: &Seen) {
    let counts = [
        seen.held.load(SeqCst),
        seen.missed.load(SeqCst),
        seen.early.load(SeqCst),
    ];
    is_so(rt, counts == [1, 0, 0], &counts);
}

#[test]
fn reads_and_writes_beside_the_tools(rt: HostRuntime) {
    reads_and_writes(&rt, rt.alloc(), (&TOOLS, 1, SAMPLE, MADE));
}

#[test]
fn reads_and_writes_beside_the_lanes(rt: HostRuntime) {
    let held: HeldRun<'_> = (&INVERT, 2, TWO_ROWS, TWO_ROWS_INVERTED);
    reads_and_writes(&rt, rt.alloc(), held);
}

/// Gives the sample's image again and again, one for each read. Counts the reads that came before the results of all
/// images given until then were flushed.
#[derive(Drop)]
struct ImageByImage<'a> {
    more: u64,
    given: u64,
    seen: &'a Seen,
}

impl Read for ImageByImage<'_> {
    fn read(&mut self, buffer: &mut [u8]) -> io::Result<usize> {
        if self.seen.flushes.load(SeqCst) < self.given {
            self.seen.early.fetch_add(1, SeqCst);
        }
        if self.more == 0 {
            return Ok(0);
        }
        self.more -= 1;
        self.given = self.given.saturating_add(1);
        let mut image = SAMPLE;
        image.read(buffer)
    }
}

const CAPACITIES_AND_LANES: &[(usize, usize)] = &[(1, 1), (2, 1), (64, 1), (1, 2)];

/// Each image's result is written before the reader is asked for what follows the image: it may have to wait for it.
#[test]
fn writes_each_image_before_the_next_is_read(rt: HostRuntime) {
    for (capacity, lanes) in CAPACITIES_AND_LANES {
        writes_before_reads(&rt, rt.alloc(), *capacity, *lanes);
    }
}

/// Over rings for `capacity` messages and over `lanes` lanes, each image's result is written before the next read.
fn writes_before_reads<R: Threads + Wait + Abort + Sync>(
    rt: &R,
    alloc: Global,
    capacity: usize,
    lanes: usize,
) {
    let seen = Seen::new();
    let mut writer = Device::new(SeenWriter(Vec::new(alloc), &seen));
    let chain: Chain<'_> = (&TOOLS, capacity, lanes);
    let answer = run_images(rt, alloc, chain, &seen, &mut writer);
    let written = writer.into_inner().0.len();
    let early = seen.early.load(SeqCst);
    let is_right = is_summary(answer, 200, 400) && written == 200 * MADE.len() && early == 0;
    is_so(rt, is_right, &(written, early));
}

/// Runs this chain on 200 images, one after another.
fn run_images<R: Threads + Wait + Abort + Sync, W: BytesOut>(
    rt: &R,
    alloc: Global,
    chain: Chain<'_>,
    seen: &Seen,
    writer: &mut W,
) -> Result<Summary, RunFault> {
    let mut reader = Device::new(ImageByImage {
        more: 200,
        given: 0,
        seen,
    });
    run_at(rt, alloc, chain, Form::Raw, &OpenGate, &mut reader, writer)
}

/// Whether this many images and rows were passed.
fn is_summary(answer: Result<Summary, RunFault>, images: u64, rows: u64) -> bool {
    answer == Ok(Summary { images, rows })
}
