//! `pnm_tools` and `pnm_filters`: tools, their heads, and filters.

use super::{is_so, new_head, same};
use pnm_filters::{RowState, RowWise, StartTool, ToolState};
use pnm_image::{Kind, Packet, Shape};
use pnm_test_support::{Part, are_made_of, message};
use pnm_tools::{CutBox, Filter, FlipWay, Tool, ToolFault};
use std::alloc::Global;
use std::process::Abort;

/// A cut that keeps all.
const WHOLE: CutBox = CutBox {
    left: None,
    right: None,
    top: None,
    bottom: None,
    width: None,
    height: None,
};

/// A cut without the first column.
const REST: CutBox = CutBox {
    left: Some(1),
    ..WHOLE
};

/// An image of grays up to 100.
const GRAY: Shape = Shape {
    kind: Kind::Gray,
    width: 2,
    height: 3,
    depth: 1,
    maxval: 100,
};

/// The head of the tool's result for a gray image of this height, as its method answers it.
fn head_by(rt: &impl Abort, alloc: Global, tool: &Tool, height: u32) -> Result<Shape, ToolFault> {
    let head = new_head(rt, alloc, GRAY, &[]).expect(rt, "a head");
    assert!(rt; tool.is_lawful() && height <= 16_777_216);
    Ok(tool.head(alloc, &head.with_height(height))?.shape())
}

/// The head that the tool makes of the gray image's has this shape.
fn makes_head(rt: &impl Abort, alloc: Global, tool: &Tool, want: Shape) {
    same(rt, &head_by(rt, alloc, tool, 3), &Ok(want), tool);
}

/// The heads of results.
#[test]
fn heads_of_results(rt: HostRuntime) {
    let alloc = rt.alloc();
    makes_head(&rt, alloc, &Tool::Invert, GRAY);
    makes_head(&rt, alloc, &Tool::Cut(REST), Shape { width: 1, ..GRAY });
    makes_head(
        &rt,
        alloc,
        &Tool::Depth(255),
        Shape {
            maxval: 255,
            ..GRAY
        },
    );
    let turned = Shape {
        width: 3,
        height: 2,
        ..GRAY
    };
    makes_head(&rt, alloc, &Tool::Flip(FlipWay::Transpose), turned);
    makes_head(&rt, alloc, &Tool::Tile(3, 2), turned);
}

/// The tool at work, by its method.
fn start(rt: &impl Abort, alloc: Global, tool: &Tool) -> ToolState {
    assert!(rt; tool.is_lawful());
    tool.start(alloc).expect(rt, "a tool at work")
}

/// The row-wise tool at work in a lane, by its method.
fn start_rows(rt: &impl Abort, alloc: Global, tool: &Tool) -> RowState {
    assert!(rt; tool.is_lawful() && tool.is_row_wise());
    tool.start_rows(alloc).expect(rt, "a tool in a lane")
}

/// What the filter answers if it is fed this.
fn feed<F: Filter>(
    rt: &impl Abort,
    alloc: Global,
    filter: &mut F,
    part: Part<'_>,
) -> Result<(), ToolFault> {
    let message = message(alloc, part).expect(rt, "a message");
    match filter.feed(Packet::from(message)) {
        Ok(answer) => answer,
        Err(_) => panic!(rt; "a message is given back"),
    }
}

/// The filter gives this next, or nothing more.
fn gives<F: Filter>(rt: &impl Abort, filter: &mut F, part: Option<Part<'_>>) {
    let is_given = match (filter.next(), part) {
        (Ok(Some(packet)), Some(part)) => are_made_of(&packet, &[part], &mut 0),
        (Ok(None), None) => true,
        _ => false,
    };
    is_so(rt, is_given, &part);
}

/// The filter takes this, and gives that alone.
fn answers<F: Filter>(
    rt: &impl Abort,
    alloc: Global,
    filter: &mut F,
    part: Part<'_>,
    want: Part<'_>,
) {
    same(rt, &feed(rt, alloc, filter, part), &Ok(()), &part);
    gives(rt, filter, Some(want));
    gives(rt, filter, None);
}

/// A row-wise filter begins an image by an equal head.
fn begins<F: RowWise>(rt: &impl Abort, alloc: Global, filter: &mut F) {
    let head = Part::Begin(Kind::Gray, 2, 1, 9);
    answers(rt, alloc, filter, head, head);
}

/// A tool that inverts, in a lane.
#[test]
fn filters_begin_in_lanes(rt: HostRuntime) {
    let mut filter = start_rows(&rt, rt.alloc(), &Tool::Invert);
    begins(&rt, rt.alloc(), &mut filter);
}

/// A tool that inverts passes an image and the end of the stream, and then nothing.
#[test]
fn filters_answer(rt: HostRuntime) {
    let alloc = rt.alloc();
    let mut filter = start(&rt, alloc, &Tool::Invert);
    let head = Part::Begin(Kind::Gray, 2, 1, 9);
    answers(&rt, alloc, &mut filter, head, head);
    let (row, inverted) = (Part::Row(&[1, 9]), Part::Row(&[8, 0]));
    answers(&rt, alloc, &mut filter, row, inverted);
    answers(&rt, alloc, &mut filter, Part::ImageEnd, Part::ImageEnd);
    answers(&rt, alloc, &mut filter, Part::StreamEnd, Part::StreamEnd);
}
