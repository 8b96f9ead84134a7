//! A tool of a chain, over one lane or several.

ghost use Rattle.std.specs.Prelude.{◌≡◌, ◌↔◌, true, IsTrue, IfSome};
ghost use Rattle.std.specs.Thread.{IsSync};
ghost use Rattle.pnm_tools.specs.Tools.{IsLawfulTool, is_row_wise};
ghost use Rattle.pnm_stages.specs.RingLimits.{IsRingCapacity};
ghost use Rattle.pnm_lanes.specs.LaneLimits.{IsLaneCount};
ghost use Rattle.pnm_lanes.specs.Internal.LaneRings.{AreLaneRings};
ghost use Rattle.pnm_flow.specs.ChainRuns.{RunsInLanes};
ghost use Rattle.pnm_flow.specs.Internal.ChainRuns.{IsToolRun, IsLanesRun, IsPlan};

use crate::lanes::run_lanes_beside;
use crate::stage::Stage;
use pnm_image::Packet;
use pnm_lanes::LaneRings;
use pnm_stages::{Call, Gate, Receiver, Sender, StageDone, Task, new_ring, run_both};
use pnm_tools::Tool;
use std::alloc::Global;
use std::sync::Wait;
use std::thread::Threads;

/// How a tool of a chain is run.
#[derive(Drop)]
pub enum Plan {
    /// One stage, in one thread.
    Stage,
    /// Several lanes, with these rings to and from them, and one to notify that their threads are started.
    Lanes(LaneRings, Sender, Receiver),
}

impl Plan {
    /// Plans how the tool is run if each tool that can have lanes has `lanes` of them. Its rings hold `capacity`
    /// packets each. Returns `None` if there is no memory.
    pub fn new(alloc: Global, tool: &Tool, lanes: usize, capacity: usize) -> Option<Plan>
        requires lanes { IsLaneCount lanes }
        requires capacity { IsRingCapacity capacity }
        ensures { IfSome result (IsPlan lanes tool.now) }
    {
        if runs_in_lanes(tool, lanes) {
            let rings = LaneRings::new(alloc, lanes, capacity)?;
            let (notify, notified) = new_ring(alloc, 1)?;
            Some(Plan::Lanes(rings, notify, notified))
        } else {
            Some(Plan::Stage)
        }
    }
}

/// Returns whether the tool works over several lanes, if there are `lanes` of them. If it does, one thread receives for
/// it, and another sends.
pub fn runs_in_lanes(tool: &Tool, lanes: usize) -> bool
    ensures { IsTrue result ↔ RunsInLanes lanes tool.now }
{
    lanes > 1 && tool.is_row_wise()
}

/// Sends one message once all threads of a tool have started. If a start fails, its end of the ring is dropped instead.
#[derive(Drop)]
struct Notifier<'a, R> {
    rt: &'a R,
    notify: Sender,
}

impl<'a, R: Wait> Task for Notifier<'a, R> {
    type Output = ();

    ghost can_run = { λ _. Unit {0} };

    ghost run_gives = { λ _ _. Unit {0} };

    fn run(self) {
        let Notifier { rt, mut notify } = self;
        notify.send(rt, Packet::StreamEnd);
    }
}

/// Work that waits for the message that all threads of a tool have started. It isn't done if the sender hangs up
/// before.
#[derive(Drop)]
struct Waiter<'a, R, T> {
    rt: &'a R,
    notified: Receiver,
    beside: T,
}

impl<'a, R: Wait, T: Task<Output = B> + Drop, B: Drop> Task for Waiter<'a, R, T> {
    type Output = Option<B>;

    ghost can_run = { λ h. T.can_run h.beside };

    ghost run_gives = { λ h r. IfSome r (T.run_gives h.beside) };

    fn run(self) -> Option<B> {
        let Waiter {
            rt,
            mut notified,
            beside,
        } = self;
        notified.receive(rt)?;
        Some(beside.run())
    }
}

/// Passes the messages of `input` through the tool to `output`, in threads of its own. Once these are started, this
/// thread does the work `beside`. Returns `None` if a thread can't be started, or if the output's wakers have too many
/// owners; then it hasn't done that work, and the threads that were started have ended.
pub fn run_tool<R: Threads + Wait + Sync, G: Gate, T: Task<Output = B> + Drop, B: Drop>(
    rt: &R,
    alloc: Global,
    tool: &Tool,
    number: usize,
    lanes: usize,
    plan: Plan,
    gate: &G,
    input: Receiver,
    output: Sender,
    beside: T,
) -> Option<(StageDone, B)>
    requires shared { IsSync R.row × IsSync G.row }
    requires lawful { IsLawfulTool tool.now }
    requires plan { IsPlan lanes tool.now plan }
    requires beside { T.can_run beside }
    ensures ran { IfSome result (λ r. IsToolRun lanes tool.now input output r.0) }
    ensures beside { IfSome result (λ r. T.run_gives beside r.1) }
{
    match plan {
        Plan::Stage => {
            let stage = Stage {
                rt,
                alloc,
                tool,
                number,
                gate,
                input,
                output,
            };
            run_both(rt, stage, beside)
        }
        Plan::Lanes(rings, notify, notified) => {
            // This is a closure, since a task that is a struct can't pass on the fact that its gate may be shared.
            let over_lanes = Call(
                move || -> Option<StageDone>
                    requires { (IsSync R.row × IsSync G.row)
                        × IsLawfulTool tool.now × (is_row_wise tool.now ≡ true) × AreLaneRings rings }
                    ensures { IfSome result (IsLanesRun tool.entry.now input output) }
                {
                    let notifier = Notifier { rt, notify };
                    let (done, ()) = run_lanes_beside(
                        rt, alloc, tool, number, rings, gate, input, output, notifier,
                    )?;
                    Some(done)
                },
            );
            let (done, beside) = run_both(
                rt,
                over_lanes,
                Waiter {
                    rt,
                    notified,
                    beside,
                },
            )?;
            Some((done?, beside?))
        }
    }
}
