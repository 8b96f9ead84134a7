//! Want of memory for what is handed over together. `scripts/refused.py tests` refuses each allocation of these
//! tests in turn.

use super::memory::{REST, answers, start};
use super::tools::WHOLE;
use super::{holds, same};
use pnm_image::{Kind, Packet};
use pnm_test_support::{Part, are_made_of, part_of};
use pnm_tools::{CutBox, Filter, FlipWay, Tool};
use std::alloc::Global;
use std::process::Abort;

/// An image whose rows come together, between its head and its end. The second row and the third begin within a byte.
const APART: &[&[u8]] = &[
    b"Bit 5 3 1 1",
    b"[0 1 1 1 1] [0 0 1 0 1] [1 1 0 0 0]",
    b"ImageEnd",
];

/// The same, all at once.
const AT_ONCE: &[&[u8]] = &[b"Bit 5 3 1 1 [0 1 1 1 1] [0 0 1 0 1] [1 1 0 0 0] ImageEnd"];

const CUT: &[Part<'static>] = &[
    Part::Begin(Kind::Bit, 4, 3, 1),
    Part::Row(&[1, 1, 1, 1]),
    Part::Row(&[0, 1, 0, 1]),
    Part::Row(&[1, 0, 0, 0]),
    Part::ImageEnd,
    Part::StreamEnd,
];

const LOWER: &[Part<'static>] = &[
    Part::Begin(Kind::Bit, 5, 2, 1),
    Part::Row(&[0, 0, 1, 0, 1]),
    Part::Row(&[1, 1, 0, 0, 0]),
    Part::ImageEnd,
    Part::StreamEnd,
];

const MIRRORED: &[Part<'static>] = &[
    Part::Begin(Kind::Bit, 5, 3, 1),
    Part::Row(&[1, 1, 1, 1, 0]),
    Part::Row(&[1, 0, 1, 0, 0]),
    Part::Row(&[0, 0, 0, 1, 1]),
    Part::ImageEnd,
    Part::StreamEnd,
];

const TURNED: &[Part<'static>] = &[
    Part::Begin(Kind::Bit, 5, 3, 1),
    Part::Row(&[1, 1, 0, 0, 0]),
    Part::Row(&[0, 0, 1, 0, 1]),
    Part::Row(&[0, 1, 1, 1, 1]),
    Part::ImageEnd,
    Part::StreamEnd,
];

const HALF: &[Part<'static>] = &[
    Part::Begin(Kind::Bit, 5, 3, 1),
    Part::Row(&[0, 0, 0, 1, 1]),
    Part::Row(&[1, 0, 1, 0, 0]),
    Part::Row(&[1, 1, 1, 1, 0]),
    Part::ImageEnd,
    Part::StreamEnd,
];

const QUARTER: &[Part<'static>] = &[
    Part::Begin(Kind::Bit, 3, 5, 1),
    Part::Row(&[1, 1, 0]),
    Part::Row(&[1, 0, 0]),
    Part::Row(&[1, 1, 0]),
    Part::Row(&[1, 0, 1]),
    Part::Row(&[0, 0, 1]),
    Part::ImageEnd,
    Part::StreamEnd,
];

const ENLARGED: &[Part<'static>] = &[
    Part::Begin(Kind::Bit, 10, 6, 1),
    Part::Row(&[0, 0, 1, 1, 1, 1, 1, 1, 1, 1]),
    Part::Row(&[0, 0, 1, 1, 1, 1, 1, 1, 1, 1]),
    Part::Row(&[0, 0, 0, 0, 1, 1, 0, 0, 1, 1]),
    Part::Row(&[0, 0, 0, 0, 1, 1, 0, 0, 1, 1]),
    Part::Row(&[1, 1, 1, 1, 0, 0, 0, 0, 0, 0]),
    Part::Row(&[1, 1, 1, 1, 0, 0, 0, 0, 0, 0]),
    Part::ImageEnd,
    Part::StreamEnd,
];

const TILED: &[Part<'static>] = &[
    Part::Begin(Kind::Bit, 6, 4, 1),
    Part::Row(&[0, 1, 1, 1, 1, 0]),
    Part::Row(&[0, 0, 1, 0, 1, 0]),
    Part::Row(&[1, 1, 0, 0, 0, 1]),
    Part::Row(&[0, 1, 1, 1, 1, 0]),
    Part::ImageEnd,
    Part::StreamEnd,
];

/// All but the first row.
const BELOW: CutBox = CutBox {
    top: Some(1),
    ..WHOLE
};

/// How many tools the rows are given to.
const TOOLS: usize = 8;

/// Returns the tool of this number, and what it gives for the image.
fn tool_at_work(number: usize) -> (Tool, &'static [Part<'static>]) {
    match number {
        0 => (Tool::Cut(REST), CUT),
        1 => (Tool::Cut(BELOW), LOWER),
        2 => (Tool::Flip(FlipWay::LeftRight), MIRRORED),
        3 => (Tool::Flip(FlipWay::TopBottom), TURNED),
        4 => (Tool::Flip(FlipWay::Rotate180), HALF),
        5 => (Tool::Flip(FlipWay::Rotate90), QUARTER),
        6 => (Tool::Enlarge(2, 2), ENLARGED),
        _ => (Tool::Tile(6, 4), TILED),
    }
}

/// Asserts that what the packet stands for is made of the next of the wanted parts. No row of these images is so long
/// that it is given once for all times.
pub(super) fn are_wanted(rt: &impl Abort, packet: &Packet, wants: &[Part<'_>], given: &mut usize) {
    let want = wants.get(*given);
    let are_made = are_made_of(packet, wants, given);
    holds(rt, are_made, packet, &want, given);
}

/// Feeds the tool the image, and asserts that it answers with these parts, or with `Memory` from some packet on.
/// Returns true if it went on to the end.
fn answers_image(
    rt: &impl Abort,
    alloc: Global,
    tool: &Tool,
    image: &[&[u8]],
    wants: &[Part<'_>],
) -> bool {
    answers_at_work(rt, alloc, start(rt, alloc, tool), image, wants)
}

/// Feeds the tool at work, if there is one, the image and the end of the stream.
fn answers_at_work<F: Filter + Drop>(
    rt: &impl Abort,
    alloc: Global,
    state: Option<F>,
    image: &[&[u8]],
    wants: &[Part<'_>],
) -> bool {
    match state {
        Some(mut state) => answers_all(rt, alloc, &mut state, image, wants),
        None => false,
    }
}

/// Feeds the tool at work the image and the end of the stream, and asserts that it answers with all these parts, or
/// with `Memory` from some packet on.
fn answers_all<F: Filter>(
    rt: &impl Abort,
    alloc: Global,
    state: &mut F,
    image: &[&[u8]],
    wants: &[Part<'_>],
) -> bool {
    let mut given = 0;
    for written in image {
        let Ok(part) = part_of(alloc, written, true) else {
            return false;
        };
        if !answers(rt, state, Packet::Part(part), wants, &mut given) {
            return false;
        }
    }
    let goes_on = answers(rt, state, Packet::StreamEnd, wants, &mut given);
    if goes_on {
        same(rt, &given, &wants.len(), &"a tool");
    }
    goes_on
}

#[test]
fn takes_rows_or_runs_out(rt: HostRuntime) {
    for number in 0..TOOLS {
        let (tool, wants) = tool_at_work(number);
        for image in [APART, AT_ONCE] {
            let _ = answers_image(&rt, rt.alloc(), &tool, image, wants);
        }
    }
}

/// If nothing is refused, each tool takes the rows together.
#[test]
fn takes_rows_with_memory(rt: HostRuntime) {
    for number in 0..TOOLS {
        let (tool, wants) = tool_at_work(number);
        for image in [APART, AT_ONCE] {
            let takes = answers_image(&rt, rt.alloc(), &tool, image, wants);
            same(&rt, &takes, &true, &number);
        }
    }
}
