//! Want of memory. With ample memory, each call succeeds. If an allocation is refused, the call returns `Memory`, and a
//! tool at work returns it for good, even once there is memory again. `scripts/refused.py tests` refuses each
//! allocation of these tests in turn.

use super::rows_memory::are_wanted;
use super::tools::{WHOLE, channel, picks, stays};
use super::{holds, same};
use pnm_filters::{ToolState, result_head, start_tool};
use pnm_image::{Head, Kind, Message, Packet, Shape};
use pnm_test_support::{Part, head_of, is_made_of, message};
use pnm_tools::{CutBox, Filter, FlipWay, Tool, ToolFault};
use std::alloc::Global;
use std::fmt;
use std::process::Abort;

/// The shape of the image.
const SHAPE: Shape = Shape {
    kind: Kind::Pam,
    width: 3,
    height: 2,
    depth: 2,
    maxval: 4,
};

/// A PAM image of three columns, two rows and two planes.
const IMAGE: &[Part<'static>] = &[
    Part::Pam(3, 2, 2, 4, "A"),
    Part::Row(&[0, 1, 2, 3, 4, 0]),
    Part::Row(&[4, 3, 2, 1, 0, 4]),
    Part::ImageEnd,
    Part::StreamEnd,
];

const INVERTED: &[Part<'static>] = &[
    Part::Pam(3, 2, 2, 4, "A"),
    Part::Row(&[4, 3, 2, 1, 0, 4]),
    Part::Row(&[0, 1, 2, 3, 4, 0]),
    Part::ImageEnd,
    Part::StreamEnd,
];

const CUT: &[Part<'static>] = &[
    Part::Pam(2, 2, 2, 4, "A"),
    Part::Row(&[2, 3, 4, 0]),
    Part::Row(&[2, 1, 0, 4]),
    Part::ImageEnd,
    Part::StreamEnd,
];

const RESCALED: &[Part<'static>] = &[
    Part::Pam(3, 2, 2, 8, "A"),
    Part::Row(&[0, 2, 4, 6, 8, 0]),
    Part::Row(&[8, 6, 4, 2, 0, 8]),
    Part::ImageEnd,
    Part::StreamEnd,
];

const PICKED: &[Part<'static>] = &[
    Part::Pam(3, 2, 3, 4, "B"),
    Part::Row(&[1, 0, 1, 3, 2, 3, 0, 4, 0]),
    Part::Row(&[3, 4, 3, 1, 2, 1, 4, 0, 4]),
    Part::ImageEnd,
    Part::StreamEnd,
];

const ENLARGED: &[Part<'static>] = &[
    Part::Pam(6, 4, 2, 4, "A"),
    Part::Row(&[0, 1, 0, 1, 2, 3, 2, 3, 4, 0, 4, 0]),
    Part::Row(&[0, 1, 0, 1, 2, 3, 2, 3, 4, 0, 4, 0]),
    Part::Row(&[4, 3, 4, 3, 2, 1, 2, 1, 0, 4, 0, 4]),
    Part::Row(&[4, 3, 4, 3, 2, 1, 2, 1, 0, 4, 0, 4]),
    Part::ImageEnd,
    Part::StreamEnd,
];

const MIRRORED: &[Part<'static>] = &[
    Part::Pam(3, 2, 2, 4, "A"),
    Part::Row(&[4, 0, 2, 3, 0, 1]),
    Part::Row(&[0, 4, 2, 1, 4, 3]),
    Part::ImageEnd,
    Part::StreamEnd,
];

const TURNED: &[Part<'static>] = &[
    Part::Pam(3, 2, 2, 4, "A"),
    Part::Row(&[4, 3, 2, 1, 0, 4]),
    Part::Row(&[0, 1, 2, 3, 4, 0]),
    Part::ImageEnd,
    Part::StreamEnd,
];

const TRANSPOSED: &[Part<'static>] = &[
    Part::Pam(2, 3, 2, 4, "A"),
    Part::Row(&[0, 1, 4, 3]),
    Part::Row(&[2, 3, 2, 1]),
    Part::Row(&[4, 0, 0, 4]),
    Part::ImageEnd,
    Part::StreamEnd,
];

const QUARTER: &[Part<'static>] = &[
    Part::Pam(2, 3, 2, 4, "A"),
    Part::Row(&[4, 0, 0, 4]),
    Part::Row(&[2, 3, 2, 1]),
    Part::Row(&[0, 1, 4, 3]),
    Part::ImageEnd,
    Part::StreamEnd,
];

const HALF: &[Part<'static>] = &[
    Part::Pam(3, 2, 2, 4, "A"),
    Part::Row(&[0, 4, 2, 1, 4, 3]),
    Part::Row(&[4, 0, 2, 3, 0, 1]),
    Part::ImageEnd,
    Part::StreamEnd,
];

const THREE_QUARTERS: &[Part<'static>] = &[
    Part::Pam(2, 3, 2, 4, "A"),
    Part::Row(&[4, 3, 0, 1]),
    Part::Row(&[2, 1, 2, 3]),
    Part::Row(&[0, 4, 4, 0]),
    Part::ImageEnd,
    Part::StreamEnd,
];

const TILED: &[Part<'static>] = &[
    Part::Pam(4, 3, 2, 4, "A"),
    Part::Row(&[0, 1, 2, 3, 4, 0, 0, 1]),
    Part::Row(&[4, 3, 2, 1, 0, 4, 4, 3]),
    Part::Row(&[0, 1, 2, 3, 4, 0, 0, 1]),
    Part::ImageEnd,
    Part::StreamEnd,
];

const CORNER: &[Part<'static>] = &[
    Part::Pam(2, 1, 2, 4, "A"),
    Part::Row(&[0, 1, 2, 3]),
    Part::ImageEnd,
    Part::StreamEnd,
];

const PIXELS: &[Part<'static>] = &[
    Part::Pam(1, 2, 2, 4, "A"),
    Part::Row(&[0, 1]),
    Part::Row(&[4, 3]),
    Part::ImageEnd,
    Part::StreamEnd,
];

const REPEATED: &[Part<'static>] = &[
    Part::Pam(3, 4, 2, 4, "A"),
    Part::Row(&[0, 1, 2, 3, 4, 0]),
    Part::Row(&[0, 1, 2, 3, 4, 0]),
    Part::Row(&[4, 3, 2, 1, 0, 4]),
    Part::Row(&[4, 3, 2, 1, 0, 4]),
    Part::ImageEnd,
    Part::StreamEnd,
];

/// All but the first column.
pub(super) const REST: CutBox = CutBox {
    left: Some(1),
    ..WHOLE
};

/// Asserts that the message is made of this part.
fn is_part<P: fmt::Debug>(rt: &impl Abort, message: &Message, want: Part<'_>, place: &P) {
    holds(rt, is_made_of(message, want), message, &want, place);
}

/// Asserts that memory ran out.
fn is_memory(rt: &impl Abort, fault: ToolFault) {
    same(rt, &fault, &ToolFault::Memory, &"a tool");
}

/// Asserts that memory ran out, and that the tool answers that for good.
fn has_run_out<F: Filter>(rt: &impl Abort, state: &mut F, fault: ToolFault) {
    is_memory(rt, fault);
    stays(rt, state, ToolFault::Memory);
}

/// Feeds the tool at work the packet, and asserts that it answers with the next of the wanted parts, or with `Memory`.
/// Returns true if the tool goes on.
pub(super) fn answers<F: Filter>(
    rt: &impl Abort,
    state: &mut F,
    packet: Packet,
    wants: &[Part<'_>],
    given: &mut usize,
) -> bool {
    match state.feed(packet) {
        Ok(Ok(())) => takes(rt, state, wants, given),
        Ok(Err(fault)) => {
            has_run_out(rt, state, fault);
            false
        }
        Err(_) => panic!(rt; "what may come is given back"),
    }
}

/// Takes what the tool gives, and asserts that it is made of the next of the wanted parts. Returns true if the tool
/// goes on.
fn takes<F: Filter>(rt: &impl Abort, state: &mut F, wants: &[Part<'_>], given: &mut usize) -> bool {
    for _ in 0..wants.len() + 1 {
        match state.next() {
            Ok(Some(packet)) => are_wanted(rt, &packet, wants, given),
            Ok(None) => return true,
            Err(fault) => {
                has_run_out(rt, state, fault);
                return false;
            }
        }
    }
    panic!(rt; "the answers have no end")
}

/// Returns the tool, which has to be lawful, at work, or `None` if memory ran out.
pub(super) fn start(rt: &impl Abort, alloc: Global, tool: &Tool) -> Option<ToolState> {
    assert!(rt; tool.is_lawful());
    match start_tool(alloc, tool) {
        Ok(state) => Some(state),
        Err(fault) => {
            is_memory(rt, fault);
            None
        }
    }
}

/// Asserts that the tool answers the image with these parts, or with `Memory` from some message on. Returns true if
/// nothing was refused.
fn answers_image(rt: &impl Abort, alloc: Global, tool: &Tool, wants: &[Part<'_>]) -> bool {
    answers_at_work(rt, alloc, start(rt, alloc, tool), wants)
}

/// Asserts that the tool at work, if there is one, answers the image with these parts, or with `Memory` from some
/// message on. A function that knows what such a tool is made of takes long to prove, so this one, which doesn't know,
/// keeps the tool.
fn answers_at_work<F: Filter + Drop>(
    rt: &impl Abort,
    alloc: Global,
    state: Option<F>,
    wants: &[Part<'_>],
) -> bool {
    match state {
        Some(mut state) => answers_all(rt, alloc, &mut state, wants),
        None => false,
    }
}

/// Asserts that the tool at work answers the image with all these parts, or with `Memory` from some message on.
fn answers_all<F: Filter>(
    rt: &impl Abort,
    alloc: Global,
    state: &mut F,
    wants: &[Part<'_>],
) -> bool {
    let mut given = 0;
    for part in IMAGE {
        let Ok(message) = message(alloc, *part) else {
            return false;
        };
        if !answers(rt, state, Packet::from(message), wants, &mut given) {
            return false;
        }
    }
    same(rt, &given, &wants.len(), &"a tool");
    true
}

/// Asserts that the head rule answers the image's head with this part, or first with `Memory` and then with this part.
/// Returns true if nothing was refused.
fn answers_head(rt: &impl Abort, alloc: Global, tool: &Tool, want: Part<'_>) -> bool {
    match head_of(alloc, SHAPE, b"A") {
        Ok(head) => makes_head(rt, alloc, tool, &head, want),
        Err(_) => false,
    }
}

/// Asserts that the head rule of the tool answers the head with this part, asked again if its answer is `Memory`.
/// Returns true if it wasn't.
fn makes_head(rt: &impl Abort, alloc: Global, tool: &Tool, head: &Head, want: Part<'_>) -> bool {
    assert!(rt; tool.is_lawful());
    match result_head(alloc, tool, head) {
        Err(ToolFault::Memory) => {
            is_head(rt, tool, result_head(alloc, tool, head), want);
            false
        }
        answer => {
            is_head(rt, tool, answer, want);
            true
        }
    }
}

/// Asserts that the head rule of the tool has answered with this part.
fn is_head(rt: &impl Abort, tool: &Tool, answer: Result<Head, ToolFault>, want: Part<'_>) {
    match answer {
        Ok(head) => is_part(rt, &Message::Begin(head), want, tool),
        Err(fault) => holds(rt, false, &fault, &want, tool),
    }
}

/// How many tools the image is given to, those that hold a list left out.
const TOOLS: usize = 15;

/// Returns the tool of this number, and what it gives for the image.
fn tool_at_work(number: usize) -> (Tool, &'static [Part<'static>]) {
    match number {
        0 => (Tool::Invert, INVERTED),
        1 => (Tool::Cut(REST), CUT),
        // Twelve samples up to 4: the image is worth a table.
        2 => (Tool::Depth(8), RESCALED),
        // A row that is made when it comes, and copied when it is given.
        3 => (Tool::Enlarge(2, 2), ENLARGED),
        // A row that is copied when it is given, and was kept as it came.
        4 => (Tool::Enlarge(1, 2), REPEATED),
        5 => (Tool::Flip(FlipWay::Null), IMAGE),
        6 => (Tool::Flip(FlipWay::LeftRight), MIRRORED),
        // Rows that are kept.
        7 => (Tool::Flip(FlipWay::TopBottom), TURNED),
        // Rows that are kept, and others that are made at the image's end.
        8 => (Tool::Flip(FlipWay::Transpose), TRANSPOSED),
        9 => (Tool::Flip(FlipWay::Rotate90), QUARTER),
        10 => (Tool::Flip(FlipWay::Rotate180), HALF),
        11 => (Tool::Flip(FlipWay::Rotate270), THREE_QUARTERS),
        // More columns and rows than there are, fewer of both, and so few columns that they are copied.
        12 => (Tool::Tile(4, 3), TILED),
        13 => (Tool::Tile(1, 2), PIXELS),
        _ => (Tool::Tile(2, 1), CORNER),
    }
}

/// Returns true if nothing was refused.
fn gives_images(rt: &impl Abort, alloc: Global) -> bool {
    let mut goes_on = true;
    for number in 0..TOOLS {
        let (tool, wants) = tool_at_work(number);
        if !answers_image(rt, alloc, &tool, wants) {
            goes_on = false;
        }
    }
    goes_on
}

#[test]
fn gives_images_or_runs_out(rt: HostRuntime) {
    let _ = gives_images(&rt, rt.alloc());
}

/// If nothing is refused, the images are given.
#[test]
fn gives_images_with_memory(rt: HostRuntime) {
    assert!(rt; gives_images(&rt, rt.alloc()));
}

#[test]
fn picks_or_runs_out(rt: HostRuntime) {
    if let Ok(tool) = channel(rt.alloc(), &[1, 0, 1], "B") {
        let _ = answers_image(&rt, rt.alloc(), &tool, PICKED);
    }
}

/// How many tools and ways hold no list.
const PLAIN_TOOLS: usize = 9;

/// Returns the tool of this number, and the head that it makes of the image's.
fn plain_tool(number: usize) -> (Tool, Part<'static>) {
    let same = Part::Pam(3, 2, 2, 4, "A");
    let wider = Part::Pam(6, 4, 2, 4, "A");
    match number {
        0 => (Tool::Invert, same),
        1 => (Tool::Cut(REST), Part::Pam(2, 2, 2, 4, "A")),
        2 => (Tool::Depth(8), Part::Pam(3, 2, 2, 8, "A")),
        3 => (Tool::Enlarge(2, 2), wider),
        4 => (Tool::Tile(6, 4), wider),
        5 => (Tool::Flip(FlipWay::Null), same),
        6 => (Tool::Flip(FlipWay::LeftRight), same),
        7 => (Tool::Flip(FlipWay::TopBottom), same),
        _ => (Tool::Flip(FlipWay::Transpose), Part::Pam(2, 3, 2, 4, "A")),
    }
}

/// Returns true if nothing was refused.
fn gives_heads(rt: &impl Abort, alloc: Global) -> bool {
    let plain = gives_plain_heads(rt, alloc);
    match channel(alloc, &[1, 0, 1], "B") {
        Ok(tool) => answers_head(rt, alloc, &tool, Part::Pam(3, 2, 3, 4, "B")) && plain,
        Err(_) => false,
    }
}

/// Returns true if nothing was refused to the tools that hold no list.
fn gives_plain_heads(rt: &impl Abort, alloc: Global) -> bool {
    let mut goes_on = true;
    for number in 0..PLAIN_TOOLS {
        let (tool, want) = plain_tool(number);
        if !answers_head(rt, alloc, &tool, want) {
            goes_on = false;
        }
    }
    goes_on
}

#[test]
fn gives_heads_or_runs_out(rt: HostRuntime) {
    let _ = gives_heads(&rt, rt.alloc());
}

/// If nothing is refused, the heads are given.
#[test]
fn gives_heads_with_memory(rt: HostRuntime) {
    assert!(rt; gives_heads(&rt, rt.alloc()));
}

/// A copy that was refused can be asked for again.
#[test]
fn copies_or_runs_out(rt: HostRuntime) {
    if let Ok(tool) = channel(rt.alloc(), &[1, 0, 1], "B") {
        copies(&rt, rt.alloc(), &tool);
    }
}

/// Asserts that the copy of a tool, asked for again if memory ran out, picks the same planes.
fn copies(rt: &impl Abort, alloc: Global, tool: &Tool) {
    match tool.copy(alloc) {
        Err(ToolFault::Memory) => is_copy(rt, tool.copy(alloc)),
        answer => is_copy(rt, answer),
    }
}

/// Asserts that the answer is a tool that picks the same planes.
fn is_copy(rt: &impl Abort, answer: Result<Tool, ToolFault>) {
    match answer {
        Ok(copy) => picks(rt, &copy, &[1, 0, 1], "B"),
        Err(fault) => holds(rt, false, &fault, &"a copy", &"a tool"),
    }
}
