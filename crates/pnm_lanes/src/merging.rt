//! The threads of a tool over several lanes once all have ended: what is left in their rings, and the end of all.

ghost use Rattle.std.specs.Prelude.{◌≡◌, ◌<◌, ℕ, List, true, length};
ghost use Rattle.pnm_stages.specs.Rings.{sent, received, known_items};
ghost use Rattle.pnm_tools.specs.declared.tool.Tool.{Tool};
ghost use Rattle.pnm_tools.specs.Tools.{IsLawfulTool, is_row_wise};
ghost use Rattle.pnm_lanes.specs.declared.lane_rings.LaneRingEnds.{LaneRingEnds};
ghost use Rattle.pnm_lanes.specs.declared.around.OuterRingEnds.{OuterRingEnds};
ghost use Rattle.pnm_lanes.specs.LaneRings.{AreUnused, ArePairs};
ghost use Rattle.pnm_lanes.specs.LaneRuns.{end_of_both, end_of_threads, HaveRun, HasRunLanes};

use crate::dealing::DealDone;
use crate::gathering::GatherDone;
use pnm_stages::{StageDone, StageEnd};

/// The threads of a tool over several lanes, each of which has ended.
#[derive(Drop)]
pub struct LanesDone {
    /// The thread that dealt.
    pub dealt: DealDone,
    /// The threads of the lanes, in the order of the lanes.
    pub lanes: Vec<StageDone>,
    /// The thread that gathered.
    pub gathered: GatherDone,
}

/// All threads as one stage. It ends by `PeerGone` if one of them did. Otherwise it ends by the first fault, in this
/// order: the thread that dealt, the lanes in their order, the thread that gathered. Without a fault it ends as the
/// thread that gathered did.
pub fn merged(done: LanesDone) -> StageDone
    requires rings { ArePairs done.dealt.outputs.items done.lanes.items done.gathered.inputs.items }
    ensures outer { (result.input ≡ done.dealt.input) × (result.output ≡ done.gathered.output) }
    ensures end { result.end ≡ end_of_threads done }
    ensures ran { (tool : Tool) (lanes : List LaneRingEnds) (outer : OuterRingEnds) (reserved : ℕ)
        → IsLawfulTool tool → is_row_wise tool ≡ true → 0 < length lanes
        → AreUnused outer.outputs.items lanes outer.inputs.items → HaveRun tool lanes outer reserved done
        → HasRunLanes tool result.end (received outer.input) (received result.input) (known_items result.input)
        (sent outer.output) (sent result.output) }
{
    let LanesDone {
        dealt,
        mut lanes,
        gathered,
    } = done;
    let DealDone {
        input,
        mut outputs,
        end: dealer,
    } = dealt;
    let GatherDone {
        mut inputs,
        output,
        end: gatherer,
    } = gathered;
    let mut end = gatherer;
    while let Some(mut lane) = lanes.pop() {
        let Some(mut sender) = outputs.pop() else {
            unreachable!();
        };
        let Some(mut receiver) = inputs.pop() else {
            unreachable!();
        };
        // What is left in the rings is known now.
        lane.input.look_beside(&mut sender);
        receiver.look_beside(&mut lane.output);
        end = end_of_both(lane.end, end);
    }
    StageDone {
        input,
        output,
        end: end_of_both(dealer, end),
    }
}

/// The end of two threads together. A fault of the first comes before one of the other.
fn end_of_both(first: StageEnd, other: StageEnd) -> StageEnd
    ensures { result ≡ end_of_both first other }
{
    match (first, other) {
        (StageEnd::PeerGone, _) | (_, StageEnd::PeerGone) => StageEnd::PeerGone,
        (StageEnd::Fault(fault), _) => StageEnd::Fault(fault),
        (StageEnd::Well | StageEnd::Broken, other) => other,
    }
}
