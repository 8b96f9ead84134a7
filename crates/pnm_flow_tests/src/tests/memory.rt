//! Want of memory. `scripts/refused.py tests` refuses each allocation of these tests in turn.

use super::chains::{LAST_COLUMN, channel, is_chain};
use super::is_so;
use super::lanes::{dealt, rings};
use super::rings::{IMAGE, holding_written, holds};
use super::threads::{INVERTED, ran};
use super::ways::{Way, run_by};
use pnm_flow::{
    ChainDone, NoStart, OpenGate, Receiver, RunFault, Sender, StageDone, StageEnd, Summary,
    new_ring, run_stage,
};
use pnm_image::{Device, Form, Kind, Packet};
use pnm_read::InputFault;
use pnm_test_support::{Part, are_made_of};
use pnm_tools::{FlipWay, Tool, ToolFault};
use std::alloc::Global;
use std::process::Abort;
use std::sync::Wait;
use std::thread::Threads;

/// A plain image would be one alone, so these are raw; the second has more samples than its maxval.
const STREAM: &[u8] =
    b"P5\n2 1\n9\n\x01\x02P6\n2 2\n3\n\x00\x01\x02\x03\x02\x01\x00\x00\x00\x01\x02\x03";

const PICKED: &[u8] =
    b"P7\nWIDTH 1\nHEIGHT 1\nDEPTH 2\nMAXVAL 255\nTUPLTYPE T\nENDHDR\n\x39\x39P7\nWIDTH 1\nHEIGHT 2\nDEPTH 2\nMAXVAL 255\nTUPLTYPE T\nENDHDR\n\xff\xff\x55\x55";

/// An image of one sample, and what `pamenlarge 2 | pnminvert` makes of it.
const SAMPLE: &[u8] = b"P5\n1 1\n9\n\x07";

const DOUBLED: &[u8] = b"P5\n2 2\n9\n\x02\x02\x02\x02";

const SAMPLE_DOUBLED: Written<'static> = (Form::Raw, SAMPLE, DOUBLED);

/// What `pamenlarge 2 | pnminvert` makes of it in plain form.
const PLAIN_DOUBLED: Written<'static> = (Form::Plain, SAMPLE, b"P2\n2 2\n9\n2 2\n2 2\n");

/// Rows of bits that pass together, and what `pamcut -right -1 -width 1 | pnminvert` makes of them.
const LAST_BITS: Written<'static> = (
    Form::Raw,
    b"P4\n11 3\n\x12\x60\xff\xe0\x00\x00",
    b"P4\n1 3\n\x00\x00\x80",
);

/// What a run over three tools answers, or `None` if there is no memory for the tools.
fn run_short_of_memory<H: Threads + Wait + Abort + Sync>(
    rt: &H,
    alloc: Global,
    way: Way,
) -> Option<Summary> {
    let Ok(planes) = channel(alloc, &[0, 0], b"T") else {
        return None;
    };
    let tools = [Tool::Depth(255), Tool::Cut(LAST_COLUMN), planes];
    make_short_of_memory(rt, alloc, way, &tools, (Form::Raw, STREAM, PICKED))
}

/// The form in which a run writes, its input, and its whole output.
type Written<'a> = (Form, &'a [u8], &'a [u8]);

/// What a run over these tools answers. Whatever it is, a prefix of the whole output is written, and only want of
/// memory can be at fault, also if a run over threads doesn't start.
fn make_short_of_memory<H: Threads + Wait + Abort + Sync>(
    rt: &H,
    alloc: Global,
    way: Way,
    tools: &[Tool],
    run: Written<'_>,
) -> Option<Summary> {
    let mut target = [0; 200];
    let (answer, rest) = run_into(rt, alloc, way, tools, run, target.as_mut_slice());
    assert!(rt; rest <= target.len());
    let written = &target[..target.len() - rest];
    let is_right = is_answer(answer, way, written, run.2);
    is_so(rt, is_right, &answer);
    answer.ok()
}

/// What a run over these tools that writes into the target answers, and how much of the target is left.
fn run_into<H: Threads + Wait + Abort + Sync>(
    rt: &H,
    alloc: Global,
    way: Way,
    tools: &[Tool],
    run: Written<'_>,
    target: &mut [u8],
) -> (Result<Summary, RunFault>, usize) {
    assert!(rt; is_chain(tools));
    let mut writer = Device::new(target);
    let mut reader = Device::new(run.1);
    let answer = run_by(rt, alloc, way, &mut reader, &mut writer, tools, run.0);
    (answer, writer.into_inner().len())
}

/// Whether all is written; or only want of memory is at fault, and a prefix is written, which is empty if the run
/// wasn't started.
fn is_answer(answer: Result<Summary, RunFault>, way: Way, written: &[u8], whole: &[u8]) -> bool {
    match answer {
        Ok(_) => written == whole,
        Err(RunFault::Input(InputFault::Memory)) | Err(RunFault::Tool(1..=3, ToolFault::Memory)) =>
            whole.starts_with(written),
        Err(RunFault::NoStart) => matches!(way, Way::Threads(..)) && written.is_empty(),
        Err(_) => false,
    }
}

/// The run has ended well, and has passed this many images and rows.
fn has_passed(rt: &impl Abort, summary: Option<Summary>, images: u64, rows: u64) {
    let is_so = summary == Some(Summary { images, rows });
    assert!(rt; is_so);
}

/// Each growth may be refused.
#[test]
fn answers_want_of_memory(rt: HostRuntime) {
    let _ = run_short_of_memory(&rt, rt.alloc(), Way::OneThread);
}

/// Each growth of a run over threads may be refused.
#[test]
fn answers_want_of_memory_over_threads(rt: HostRuntime) {
    let _ = run_short_of_memory(&rt, rt.alloc(), Way::Threads(1, 1));
}

/// Each growth of a run over two lanes may be refused.
#[test]
fn answers_want_of_memory_over_lanes(rt: HostRuntime) {
    let _ = run_short_of_memory(&rt, rt.alloc(), Way::Threads(1, 2));
}

/// If no growth is refused, the run ends well.
#[test]
fn ends_well_with_memory(rt: HostRuntime) {
    let summary = run_short_of_memory(&rt, rt.alloc(), Way::OneThread);
    has_passed(&rt, summary, 2, 3);
}

/// If no growth is refused, the run over threads ends well.
#[test]
fn ends_well_over_threads_with_memory(rt: HostRuntime) {
    let summary = run_short_of_memory(&rt, rt.alloc(), Way::Threads(1, 1));
    has_passed(&rt, summary, 2, 3);
}

/// If no growth is refused, the run over two lanes ends well.
#[test]
fn ends_well_over_lanes_with_memory(rt: HostRuntime) {
    let summary = run_short_of_memory(&rt, rt.alloc(), Way::Threads(1, 2));
    has_passed(&rt, summary, 2, 3);
}

/// What a run over two tools answers.
fn double_short_of_memory<H: Threads + Wait + Abort + Sync>(
    rt: &H,
    alloc: Global,
    way: Way,
    run: Written<'_>,
) -> Option<Summary> {
    let tools = [Tool::Enlarge(2, 2), Tool::Invert];
    make_short_of_memory(rt, alloc, way, &tools, run)
}

/// Each growth of a run over two tools in one thread may be refused.
#[test]
fn doubles_in_one_thread_or_runs_out(rt: HostRuntime) {
    let _ = double_short_of_memory(&rt, rt.alloc(), Way::OneThread, SAMPLE_DOUBLED);
}

/// If no growth is refused, the run in one thread ends well.
#[test]
fn doubles_in_one_thread_with_memory(rt: HostRuntime) {
    let summary = double_short_of_memory(&rt, rt.alloc(), Way::OneThread, SAMPLE_DOUBLED);
    has_passed(&rt, summary, 1, 2);
}

const WAYS: &[Way] = &[Way::OneThread, Way::Threads(1, 1), Way::Threads(1, 2)];

/// Each growth of a run that writes in plain form may be refused.
#[test]
fn writes_plain_or_runs_out(rt: HostRuntime) {
    for way in WAYS {
        let _ = double_short_of_memory(&rt, rt.alloc(), *way, PLAIN_DOUBLED);
    }
}

/// If no growth is refused, the plain image is written.
#[test]
fn writes_plain_with_memory(rt: HostRuntime) {
    for way in WAYS {
        let summary = double_short_of_memory(&rt, rt.alloc(), *way, PLAIN_DOUBLED);
        has_passed(&rt, summary, 1, 2);
    }
}

/// What a run whose rows come together answers.
fn pass_rows_short_of_memory<H: Threads + Wait + Abort + Sync>(
    rt: &H,
    alloc: Global,
    way: Way,
) -> Option<Summary> {
    let tools = [Tool::Cut(LAST_COLUMN), Tool::Invert];
    make_short_of_memory(rt, alloc, way, &tools, LAST_BITS)
}

/// Each growth of a run whose rows come together may be refused.
#[test]
fn passes_rows_or_runs_out(rt: HostRuntime) {
    for way in WAYS {
        let _ = pass_rows_short_of_memory(&rt, rt.alloc(), *way);
    }
}

/// If no growth is refused, the rows are passed.
#[test]
fn passes_rows_with_memory(rt: HostRuntime) {
    for way in WAYS {
        let summary = pass_rows_short_of_memory(&rt, rt.alloc(), *way);
        has_passed(&rt, summary, 1, 3);
    }
}

/// Whether the ring holds Stop. If it does, there is a prefix of these before it, and nothing after it; otherwise the
/// ring holds all of these, and nothing more.
fn ends_by_stop(rt: &impl Abort, input: &mut Receiver, whole: &[Part<'_>]) -> bool {
    let mut come = 0;
    for _ in 0..whole.len() {
        if come < whole.len() {
            if !input.has_message() {
                return false;
            }
            let packet = input.receive_known();
            if matches!(packet, Packet::Stop) {
                holds(rt, input, &[], "nothing after Stop");
                return true;
            }
            is_so(
                rt,
                are_made_of(&packet, whole, &mut come),
                &"a prefix of the answer",
            );
        }
    }
    holds(rt, input, &[], "nothing after the answer");
    false
}

/// Whether each stage has ended well.
fn are_well(ends: &[StageEnd]) -> bool {
    ends.iter().all(|end| *end == StageEnd::Well)
}

/// Whether the stages of a chain have ended well. If they have, all of the answer was sent; otherwise a prefix of it
/// and Stop.
fn has_run_well(
    rt: &impl Abort,
    done: &ChainDone,
    consumer: &mut Receiver,
    whole: &[Part<'_>],
) -> bool {
    let is_well = are_well(done.ends.as_slice());
    let is_stopped = ends_by_stop(rt, consumer, whole);
    assert!(rt; is_stopped != is_well);
    is_well
}

/// If a chain that wasn't started gives back the ends of its rings, these are as they were.
fn is_left(rt: &impl Abort, refused: &mut NoStart, consumer: &mut Receiver, whole: &[Part<'_>]) {
    match &mut refused.ends {
        Some((input, _output)) => {
            holds(rt, input, IMAGE, "nothing was taken");
            holds(rt, consumer, &[], "nothing was sent");
        }
        None => {
            let _ = ends_by_stop(rt, consumer, whole);
        }
    }
}

/// Whether all of these tools, in threads, end well with an image; they don't if memory ran out. Whatever they do, a
/// prefix of the whole answer is sent, and the chain ends: with Stop at last, unless all of the answer was sent. A
/// chain that wasn't started and gives back the ends of its rings leaves these as they were.
fn end_in_threads<R: Threads + Wait + Abort + Sync>(
    rt: &R,
    alloc: Global,
    tools: &[Tool],
    whole: &[Part<'_>],
) -> Option<bool> {
    let mut ran = ran(rt, alloc, tools, 1, &OpenGate, IMAGE, false)?;
    Some(match &mut ran.done {
        Ok(done) => has_run_well(rt, done, &mut ran.consumer, whole),
        Err(refused) => {
            is_left(rt, refused, &mut ran.consumer, whole);
            false
        }
    })
}

/// Three tools, which make the image anew.
const THREE: [Tool; 3] = [Tool::Invert, Tool::Flip(FlipWay::TopBottom), Tool::Invert];

const INVERT: [Tool; 1] = [Tool::Invert];

/// Each growth of three tools, and of one, may be refused.
#[test]
fn ends_in_threads_short_of_memory(rt: HostRuntime) {
    let _ = end_in_threads(&rt, rt.alloc(), &THREE, IMAGE);
    let _ = end_in_threads(&rt, rt.alloc(), &INVERT, INVERTED);
}

/// If no growth is refused, each stage ends well.
#[test]
fn ends_well_in_threads_with_memory(rt: HostRuntime) {
    let is_well = end_in_threads(&rt, rt.alloc(), &THREE, IMAGE).unwrap_or(false);
    assert!(rt; is_well);
    let is_well = end_in_threads(&rt, rt.alloc(), &INVERT, INVERTED).unwrap_or(false);
    assert!(rt; is_well);
}

/// Rows that come together, one more than their image has: each is taken by itself, up to the one too many.
const ONE_TOO_MANY: &[u8] = b"Gray 2 2 1 9 {[0 1] [1 0] [1 1]} StreamEnd";

/// What `pnminvert` sends for the others.
const OTHERS_INVERTED: &[Part<'static>] = &[
    Part::Begin(Kind::Gray, 2, 2, 9),
    Part::Row(&[9, 8]),
    Part::Row(&[8, 9]),
    Part::Stop,
];

/// How the stage that takes these rows ends, and the ring that it sends to.
fn takes_rows_apart<R: Wait + Abort>(rt: &R, alloc: Global) -> Option<(StageEnd, Receiver)> {
    let (_producer, input) = holding_written(alloc, ONE_TOO_MANY)?;
    let (output, consumer) = new_ring(alloc, 8)?;
    let done = stage(rt, alloc, &Tool::Invert, input, output);
    Some((done.end, consumer))
}

/// Runs the stage of this tool, which has to be lawful.
fn stage<R: Wait + Abort>(
    rt: &R,
    alloc: Global,
    tool: &Tool,
    input: Receiver,
    output: Sender,
) -> StageDone {
    assert!(rt; tool.is_lawful());
    run_stage(rt, alloc, tool, 1, &OpenGate, input, output)
}

/// Whether it has ended well. If it hasn't, it has sent Stop, and memory ran out.
fn is_well_or_short(rt: &impl Abort, end: StageEnd, is_stopped: bool) -> bool {
    let is_well = end == StageEnd::Well;
    let is_short = end == StageEnd::Fault(ToolFault::Memory);
    assert!(rt; is_well != is_stopped && is_short == is_stopped);
    is_well
}

/// Each growth of a stage that copies the rows which came together may be refused: Stop comes last all the same.
#[test]
fn takes_rows_apart_or_runs_out(rt: HostRuntime) {
    if let Some((end, mut consumer)) = takes_rows_apart(&rt, rt.alloc()) {
        let is_stopped = ends_by_stop(&rt, &mut consumer, OTHERS_INVERTED);
        let is_short = end == StageEnd::Fault(ToolFault::Memory);
        assert!(&rt; is_stopped && (is_short || end == StageEnd::Fault(ToolFault::OutOfOrder)));
    }
}

/// If no growth is refused, each of the rows before the one too many is inverted.
#[test]
fn takes_rows_apart_with_memory(rt: HostRuntime) {
    let Some((end, mut consumer)) = takes_rows_apart(&rt, rt.alloc()) else {
        panic!(&rt; "there is no memory");
    };
    assert!(&rt; end == StageEnd::Fault(ToolFault::OutOfOrder));
    holds(
        &rt,
        &mut consumer,
        OTHERS_INVERTED,
        "the other rows, and Stop",
    );
}

/// An image whose rows come together, and what the first of two lanes is dealt of it, and the second.
const TOGETHER: &[u8] = b"Gray 2 3 1 9 {[1 2] [3 4] [5 6]} ImageEnd StreamEnd";

const FIRST_LANE: &[Part<'static>] = &[
    Part::Begin(Kind::Gray, 2, 2, 9),
    Part::Row(&[1, 2]),
    Part::Row(&[5, 6]),
    Part::ImageEnd,
    Part::StreamEnd,
];

const SECOND_LANE: &[Part<'static>] = &[
    Part::Begin(Kind::Gray, 2, 1, 9),
    Part::Row(&[3, 4]),
    Part::ImageEnd,
    Part::StreamEnd,
];

/// Whether the dealing ends well. If it doesn't, memory ran out, and each lane is sent Stop after a prefix of what is
/// dealt to it. All that came is taken.
fn deals_rows_apart<R: Wait + Abort>(rt: &R, alloc: Global) -> Option<bool> {
    let (_producer, input) = holding_written(alloc, TOGETHER)?;
    let (outputs, mut lanes) = rings(alloc, 2, 8)?;
    let mut done = dealt(rt, alloc, input, outputs);
    holds(rt, &mut done.input, &[], "nothing is left");
    are_dealt(rt, lanes.as_mut_slice(), done.end);
    Some(done.end == StageEnd::Well)
}

/// The dealing has ended with `end`, and each of two lanes holds what is dealt to it, or a prefix of that and then Stop
/// if memory ran out.
fn are_dealt(rt: &impl Abort, lanes: &mut [Receiver], end: StageEnd) {
    assert!(rt; lanes.len() == 2);
    for (lane, input) in lanes.iter_mut().enumerate() {
        let whole = if lane == 0 { FIRST_LANE } else { SECOND_LANE };
        let is_stopped = ends_by_stop(rt, input, whole);
        let _ = is_well_or_short(rt, end, is_stopped);
    }
}

/// Each growth of dealing that copies the heads, and the rows which came together, may be refused.
#[test]
fn deals_rows_apart_or_runs_out(rt: HostRuntime) {
    let _ = deals_rows_apart(&rt, rt.alloc());
}

/// If no growth is refused, each lane is dealt its rows.
#[test]
fn deals_rows_apart_with_memory(rt: HostRuntime) {
    let is_well = deals_rows_apart(&rt, rt.alloc()).unwrap_or(false);
    assert!(rt; is_well);
}
