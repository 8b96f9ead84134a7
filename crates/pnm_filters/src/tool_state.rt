//! A tool at work, by its name and options.

ghost use Rattle.std.specs.Prelude.{◌≡◌, [], IfOk, IfErr, Ok, None};
ghost use Rattle.pnm_tools.specs.declared.fault.ToolFault.TheVariants.{Memory};
ghost use Rattle.pnm_tools.specs.declared.tool.Tool.TheVariants.{Flip};
ghost use Rattle.pnm_filters.specs.AnyTools.{IsFreshTool, kept_of, tool_of, ToolAt};
ghost use Rattle.pnm_tools.specs.Tools.{IsLawfulTool};

use crate::any_tool::AnyTool;
use crate::state::State;
use pnm_repeat_tools::{Enlarger, Tiler};
use pnm_row_tools::{
    ByRow, Cutter, Inverter, Rescaler, RowFlipper, RowReverser, RowTool, Samplewise,
};
use pnm_tools::{FlipWay, FusedFilter, Tool, ToolFault};
use pnm_transpose::Transposer;
use std::alloc::Global;

/// A tool of a chain at work on a stream.
pub type ToolState = State<AnyTool>;

/// Returns the tool at work, before the first message. The only fault is `Memory`.
pub fn start_tool(alloc: Global, tool: &Tool) -> Result<ToolState, ToolFault>
    requires { IsLawfulTool tool.now }
    ensures started { IfOk result (λ state. IsFreshTool state tool.now) }
    ensures refused { IfErr result (λ fault. fault ≡ Memory) }
{
    Ok(State::new(alloc, any_tool(alloc, tool)?))
}

/// Returns the tool at work, which has taken no row.
fn any_tool(alloc: Global, tool: &Tool) -> Result<AnyTool, ToolFault>
    ensures tool { IfOk result (λ work. tool_of work ≡ tool.now) }
    ensures kept { IfOk result (λ work. kept_of work ≡ []) }
    ensures refused { IfErr result (λ fault. fault ≡ Memory) }
{
    Ok(match tool.copy(alloc)? {
        Tool::Invert => AnyTool::Inverting(by_row(Samplewise::new(Inverter))),
        Tool::Cut(cut) => AnyTool::Cutting(by_row(Cutter::new(cut))),
        Tool::Depth(maxval) => AnyTool::Rescaling(by_row(Samplewise::new(Rescaler { maxval }))),
        Tool::Channel(planes) => AnyTool::Picking(by_row(planes)),
        Tool::Enlarge(across, down) => AnyTool::Enlarging(Enlarger::new(across, down)),
        Tool::Flip(way) => flip(alloc, way),
        Tool::Tile(width, height) => AnyTool::Tiling(Tiler::new(alloc, width, height)),
    })
}

/// Returns the tool at work that flips images this way.
fn flip(alloc: Global, way: FlipWay) -> AnyTool
    ensures tool { tool_of result ≡ Flip way }
    ensures kept { kept_of result ≡ [] }
{
    let transform = way.transform();
    if transform.exchanged {
        AnyTool::Transposing(Transposer::new(alloc, way))
    } else if transform.rows_reversed {
        AnyTool::ReversingRows(RowReverser::new(alloc, way))
    } else {
        AnyTool::FlippingRows(by_row(RowFlipper::new(way)))
    }
}

/// Returns the row tool at work, which has made no rows.
fn by_row<T: RowTool>(tool: T) -> ByRow<T>
    ensures tool { result.tool ≡ tool }
    ensures none { result.made ≡ None }
{
    ByRow { tool, made: None }
}

/// Returns the tool at work. If there is no memory for the tool, it has refused.
pub fn filter_of(alloc: Global, tool: &Tool) -> FusedFilter<ToolState>
    requires { IsLawfulTool tool.now }
    ensures { ToolAt result tool.now [] [] }
{
    match start_tool(alloc, tool) {
        Ok(state) => FusedFilter::AtWork(state),
        Err(fault) => FusedFilter::Refused(fault),
    }
}
