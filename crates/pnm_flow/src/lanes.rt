//! A row-wise tool over several lanes: a thread that deals the rows, one for each lane, and one that gathers what they
//! make, with a ring to each lane and one from it.

ghost use Rattle.std.specs.Prelude.{◌≡◌, ◌≤◌, [], true, length, vec_capacity, IfOk, IfErr, IfSome};
ghost use Rattle.std.specs.Thread.{IsSync};
ghost use Rattle.pnm_tools.specs.Tools.{IsLawfulTool, is_row_wise};
ghost use Rattle.pnm_stages.specs.RingLimits.{IsRingCapacity};
ghost use Rattle.pnm_stages.specs.Rings.{sent, received, known_items, SameSender, SameReceiver};
ghost use Rattle.pnm_stages.specs.Starts.{IsUntouched};
ghost use Rattle.pnm_lanes.specs.LaneLimits.{IsLaneCount};
ghost use Rattle.pnm_lanes.specs.LaneRuns.{HasRunLanes, HaveRun, IsLaneRun, AreAround};
ghost use Rattle.pnm_lanes.specs.Internal.LaneRings.{AreLaneRings};

use pnm_filters::row_filter_of;
use pnm_lanes::{LaneRingEnds, LaneRings, LanesDone, OuterRingEnds, deal_and_gather, merged};
use pnm_stages::{
    Call, Gate, Idle, NoStart, Receiver, Sender, StageDone, Task, run_both, run_filter,
};
use pnm_tools::Tool;
use std::alloc::Global;
use std::sync::Wait;
use std::thread::Threads;

/// Passes the messages of `input` through a row-wise tool to `output`, over 1 to 8 lanes. One thread deals the rows,
/// row y to lane y mod the number of lanes; each lane applies the tool to its rows, in a thread of its own; and another
/// thread gathers the results. Each ring to or from a lane holds `capacity` packets, 1 to 1,024. Each lane calls the
/// gate with the tool's number and its own, from 0, before it takes its first message; the threads that deal and gather
/// don't.
///
/// It ends as `run_stage` does, with the same messages in the same order; rows that come together are dealt one by one,
/// as copies. Its end is `PeerGone` if one of its threads ended so; otherwise it is the first fault, in this order: the
/// thread that deals, the lanes in their order, the thread that gathers. Returns `NoStart` if there is no memory for a
/// ring or a list, if the output's wakers have too many owners, or if a thread can't be started.
pub fn run_lanes<R: Threads + Wait + Sync, G: Gate>(
    rt: &R,
    alloc: Global,
    tool: &Tool,
    number: usize,
    lanes: usize,
    capacity: usize,
    gate: &G,
    input: Receiver,
    output: Sender,
) -> Result<StageDone, NoStart>
    requires lawful { IsLawfulTool tool.now }
    requires row_wise { is_row_wise tool.now ≡ true }
    requires lanes { IsLaneCount lanes }
    requires capacity { IsRingCapacity capacity }
    ensures input { IfOk result (λ done. SameReceiver input done.input) }
    ensures output { IfOk result (λ done. SameSender output done.output) }
    ensures ran { IfOk result
        (λ done. HasRunLanes tool.now done.end (received input) (received done.input) (known_items done.input)
        (sent output) (sent done.output)) }
    ensures not_started { IfErr result (λ refused. IfSome refused.ends (IsUntouched input output)) }
{
    let Some(rings) = LaneRings::new(alloc, lanes, capacity) else {
        return Err(NoStart {
            ends: Some((input, output)),
        });
    };
    match run_lanes_beside(rt, alloc, tool, number, rings, gate, input, output, Idle) {
        Some((done, ())) => Ok(done),
        None => Err(NoStart { ends: None }),
    }
}

/// Passes the messages of `input` through a row-wise tool to `output`, as `run_lanes` does, over the lanes of these
/// rings. Once each of its threads is started, this thread does the work `beside`. Returns `None` if a thread can't be
/// started, or if the output's wakers have too many owners; then it hasn't done that work, and the threads that were
/// started have ended.
pub fn run_lanes_beside<R: Threads + Wait + Sync, G: Gate, T: Task<Output = B> + Drop, B: Drop>(
    rt: &R,
    alloc: Global,
    tool: &Tool,
    number: usize,
    rings: LaneRings,
    gate: &G,
    input: Receiver,
    output: Sender,
    beside: T,
) -> Option<(StageDone, B)>
    requires shared { IsSync R.row × IsSync G.row }
    requires lawful { IsLawfulTool tool.now }
    requires row_wise { is_row_wise tool.now ≡ true }
    requires rings { AreLaneRings rings }
    requires beside { T.can_run beside }
    ensures input { IfSome result (λ r. SameReceiver input r.0.input) }
    ensures output { IfSome result (λ r. SameSender output r.0.output) }
    ensures ran { IfSome result
        (λ r. HasRunLanes tool.now r.0.end (received input) (received r.0.input) (known_items r.0.input)
        (sent output) (sent r.0.output)) }
    ensures beside { IfSome result (λ r. T.run_gives beside r.1) }
{
    let LaneRings {
        outputs,
        lanes,
        inputs,
        reserved,
    } = rings;
    let outer = OuterRingEnds {
        input,
        outputs,
        inputs,
        output,
    };
    let (done, beside) = run_threads(
        rt, alloc, tool, number, gate, lanes, outer, reserved, beside,
    )?;
    Some((merged(done), beside))
}

/// The work of one lane.
#[derive(Drop)]
struct Lane<'a, R, G> {
    rt: &'a R,
    alloc: Global,
    tool: &'a Tool,
    number: usize,
    lane: usize,
    gate: &'a G,
    ends: LaneRingEnds,
}

impl<'a, R: Wait, G: Gate> Task for Lane<'a, R, G> {
    type Output = StageDone;

    ghost can_run = { λ l. IsLawfulTool l.tool.now × (is_row_wise l.tool.now ≡ true) };

    ghost run_gives = { λ l done. IsLaneRun l.tool.now l.ends.input l.ends.output done };

    fn run(self) -> StageDone {
        let Lane {
            rt,
            alloc,
            tool,
            number,
            lane,
            gate,
            ends,
        } = self;
        gate.arrive(number, lane);
        run_filter(
            rt,
            alloc,
            row_filter_of(alloc, tool),
            ends.input,
            ends.output,
        )
    }
}

/// Starts the threads of these lanes, the last one first, and those that gather and deal, and then does the work
/// `beside` in this thread. Returns `None` if a thread can't be started, or if a lane can't have its home; then all
/// threads that were started have ended.
fn run_threads<R: Threads + Wait + Sync, G: Gate, T: Task<Output = B> + Drop, B: Drop>(
    rt: &R,
    alloc: Global,
    tool: &Tool,
    number: usize,
    gate: &G,
    lanes: Vec<LaneRingEnds>,
    outer: OuterRingEnds,
    reserved: Vec<StageDone>,
    beside: T,
) -> Option<(LanesDone, B)>
    requires shared { IsSync R.row × IsSync G.row }
    requires tool { IsLawfulTool tool.now × (is_row_wise tool.now ≡ true) }
    requires outer { AreAround outer }
    requires reserved { (reserved.items ≡ []) × (length lanes.items ≤ vec_capacity reserved) }
    requires beside { T.can_run beside }
    ensures ran { IfSome result (λ r. HaveRun tool.now lanes.items outer (vec_capacity reserved) r.0) }
    ensures beside { IfSome result (λ r. T.run_gives beside r.1) }
{
    let mut others = lanes;
    let Some(mut ends) = others.pop() else {
        return deal_and_gather(rt, alloc, outer, reserved, beside);
    };
    // The thread that gathers sleeps there while it drains the lanes.
    if !ends.output.set_home(&outer.output) {
        return None;
    }
    let last = Lane {
        rt,
        alloc,
        tool,
        number,
        lane: others.len(),
        gate,
        ends,
    };
    let rest = Call(
        move || -> Option<(LanesDone, B)>
            requires { (IsSync R.row × IsSync G.row)
                × (IsLawfulTool tool.now × (is_row_wise tool.now ≡ true)) × AreAround outer
                × ((reserved.items ≡ []) × (length others.items ≤ vec_capacity reserved)) × T.can_run beside }
            ensures { IfSome result (λ r. HaveRun tool.entry.now others.items outer (vec_capacity reserved) r.0
                × T.run_gives beside r.1) }
        {
            run_threads(
                rt, alloc, tool, number, gate, others, outer, reserved, beside,
            )
        },
    );
    let (done, rest) = run_both(rt, last, rest)?;
    let (mut all, beside) = rest?;
    all.lanes.push_reserved(done);
    Some((all, beside))
}
