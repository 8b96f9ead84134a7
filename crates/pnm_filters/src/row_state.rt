//! A row-wise tool at work on a lane's share of the stream.

ghost use Rattle.std.specs.Prelude.{◌≡◌, true, List, IfOk, IfErr, length, []};
ghost use Rattle.pnm_image.specs.declared.message.Message.{Message as MessageValue};
ghost use Rattle.pnm_tools.specs.declared.fault.ToolFault.TheVariants.{Memory};
ghost use Rattle.pnm_tools.specs.declared.tool.Tool.{Tool as ToolValue};
ghost use Rattle.pnm_tools.specs.Dealing.{IsRowWise};
ghost use Rattle.pnm_filters.specs.RowStates.{IsRowWiseAt, IsFreshLane, RowWiseAt};
ghost use Rattle.pnm_filters.specs.AnyTools.{due_of};
ghost use Rattle.pnm_filters.specs.Pendings.{is_all_given, waiting_in};
ghost use Rattle.pnm_tools.specs.Tools.{IsLawfulTool, is_row_wise};

use crate::tool_state::{ToolState, start_tool};
use pnm_image::Packet;
use pnm_tools::{Filter, FusedFilter, Tool, ToolFault};
use std::alloc::Global;

/// A tool at work whose rows may be dealt to several copies of it. Applied to a lane's share of an image it makes that
/// lane's share of the result, and it refuses the share exactly when it refuses the image.
pub trait RowWise: Filter {
    /// The tool is row-wise.
    ghost row_wise: { (s : Self) (t : ToolValue) (l g : List MessageValue) → Self.at s t l g → IsRowWise t };
}

/// A row-wise tool at work on the messages of a lane.
#[derive(Drop)]
pub struct RowState {
    state: ToolState,
}

impl Filter for RowState {
    ghost at = { IsRowWiseAt };

    ghost all_given = { λ s. is_all_given s.state.pending };

    ghost stopped = { λ s. s.state.fault };

    ghost waiting = { λ s. length (waiting_in s.state.pending (due_of s.state.work)) };

    ghost at_answers = { λ s tool accepted given at. at.state.answers };

    #[inline(always)]
    fn feed(&mut self, packet: Packet) -> Result<Result<(), ToolFault>, Packet> {
        self.state.feed(packet)
    }

    #[inline(always)]
    fn next(&mut self) -> Result<Option<Packet>, ToolFault> {
        self.state.next()
    }
}

impl RowWise for RowState {
    ghost row_wise = { λ s tool accepted given at. at.row_wise };
}

/// Returns the tool at work on the messages of a lane, before the first message. The only fault is `Memory`.
pub fn start_rows(alloc: Global, tool: &Tool) -> Result<RowState, ToolFault>
    requires lawful { IsLawfulTool tool.now }
    requires row_wise { is_row_wise tool.now ≡ true }
    ensures started { IfOk result (λ state. IsFreshLane state tool.now) }
    ensures refused { IfErr result (λ fault. fault ≡ Memory) }
{
    Ok(RowState {
        state: start_tool(alloc, tool)?,
    })
}

/// Returns the row-wise tool at work on the messages of a lane. If there is no memory for the tool, it has refused.
pub fn row_filter_of(alloc: Global, tool: &Tool) -> FusedFilter<RowState>
    requires lawful { IsLawfulTool tool.now }
    requires row_wise { is_row_wise tool.now ≡ true }
    ensures { RowWiseAt result tool.now [] [] }
{
    match start_rows(alloc, tool) {
        Ok(state) => FusedFilter::AtWork(state),
        Err(fault) => FusedFilter::Refused(fault),
    }
}
