//! Any of the tools at work.

use pnm_image::{Head, RepeatedRows, Rows, Shape};
use pnm_repeat_tools::{Enlarger, Tiler};
use pnm_row_tools::{ByRow, Cutter, Inverter, Rescaler, RowFlipper, RowReverser, Samplewise};
use pnm_tools::{ImageTool, Planes, ToolFault};
use pnm_transpose::Transposer;
use std::alloc::Global;

/// Calls a method of the tool at work, whichever it is.
macro_rules! with_tool {
    ($self:ident, $work:ident => $does:expr) => {
        match $self {
            AnyTool::Inverting($work) => $does,
            AnyTool::Cutting($work) => $does,
            AnyTool::Rescaling($work) => $does,
            AnyTool::Picking($work) => $does,
            AnyTool::Enlarging($work) => $does,
            AnyTool::FlippingRows($work) => $does,
            AnyTool::ReversingRows($work) => $does,
            AnyTool::Transposing($work) => $does,
            AnyTool::Tiling($work) => $does,
        }
    };
}

/// Any of the tools, and what it keeps of an image.
#[derive(Drop)]
pub enum AnyTool {
    /// `pnminvert`.
    Inverting(ByRow<Samplewise<Inverter>>),
    /// `pamcut`.
    Cutting(ByRow<Cutter>),
    /// `pamdepth`.
    Rescaling(ByRow<Samplewise<Rescaler>>),
    /// `pamchannel`.
    Picking(ByRow<Planes>),
    /// `pamenlarge`.
    Enlarging(Enlarger),
    /// `pamflip` if rows stay in their places.
    FlippingRows(ByRow<RowFlipper>),
    /// `pamflip` if the order of rows is reversed.
    ReversingRows(RowReverser),
    /// `pamflip` if columns and rows are exchanged.
    Transposing(Transposer),
    /// `pnmtile`.
    Tiling(Tiler),
}

impl ImageTool for AnyTool {
    ghost use Rattle.pnm_filters.specs.AnyTools.{tool_of, IsReady, due_of, kept_of};

    ghost tool = { tool_of };

    ghost ready = { IsReady };

    ghost due = { due_of };

    ghost kept = { kept_of };

    #[inline(never)]
    fn begin(&mut self, alloc: Global, head: &Head) -> Result<Head, ToolFault> {
        with_tool!(self, work => work.begin(alloc, head))
    }

    fn take(&mut self, alloc: Global, shape: Shape, y: u32, rows: Rows) -> Result<(), ToolFault> {
        with_tool!(self, work => work.take(alloc, shape, y, rows))
    }

    #[inline(never)]
    fn end(&mut self, shape: Shape) {
        with_tool!(self, work => work.end(shape))
    }

    // Which tool it is was known when it took the row, so the choice stands beside the state's own.
    #[inline(always)]
    fn give(&mut self, alloc: Global) -> Result<Option<RepeatedRows>, ToolFault> {
        with_tool!(self, work => work.give(alloc))
    }

    #[inline(never)]
    fn release(&mut self, alloc: Global) {
        with_tool!(self, work => work.release(alloc))
    }
}
