//! The two threads around the lanes of a tool: the one that deals the rows to them, and the one that gathers what they
//! make.

ghost use Rattle.std.specs.Prelude.{◌≡◌, length, IfSome};
ghost use Rattle.std.specs.Thread.{IsSync};
ghost use Rattle.pnm_lanes.specs.LaneLimits.{IsLaneCount};
ghost use Rattle.pnm_lanes.specs.LaneRuns.{HaveDealtAndGathered, IsDealerRun, IsGathererRun, AreAround};

use crate::dealing::{DealDone, deal};
use crate::gathering::{GatherDone, gather};
use crate::merging::LanesDone;
use pnm_stages::{Receiver, Sender, StageDone, Task, run_both};
use std::alloc::Global;
use std::sync::Wait;
use std::thread::Threads;

/// The ring ends of the thread that deals and of the one that gathers.
#[derive(Drop)]
pub struct OuterRingEnds {
    /// The end that the dealer receives on.
    pub input: Receiver,
    /// The ends that the dealer sends on, one for each lane.
    pub outputs: Vec<Sender>,
    /// The ends that the gatherer receives on, one for each lane.
    pub inputs: Vec<Receiver>,
    /// The end that the gatherer sends on.
    pub output: Sender,
}

/// The work of the thread that deals.
#[derive(Drop)]
struct Dealer<'a, R> {
    rt: &'a R,
    alloc: Global,
    input: Receiver,
    outputs: Vec<Sender>,
}

impl<'a, R: Wait> Task for Dealer<'a, R> {
    type Output = DealDone;

    ghost can_run = { λ d. IsLaneCount (length d.outputs.items) };

    ghost run_gives = { λ d done. IsDealerRun d.input d.outputs.items done };

    fn run(self) -> DealDone {
        deal(self.rt, self.alloc, self.input, self.outputs)
    }
}

/// The work of the thread that gathers.
#[derive(Drop)]
struct Gatherer<'a, R> {
    rt: &'a R,
    alloc: Global,
    inputs: Vec<Receiver>,
    output: Sender,
}

impl<'a, R: Wait> Task for Gatherer<'a, R> {
    type Output = GatherDone;

    ghost can_run = { λ g. IsLaneCount (length g.inputs.items) };

    ghost run_gives = { λ g done. IsGathererRun g.inputs.items g.output done };

    fn run(self) -> GatherDone {
        gather(self.rt, self.alloc, self.inputs, self.output)
    }
}

/// The work of the thread that deals, and the work that is done beside it.
#[derive(Drop)]
struct DealerAndBeside<'a, R, T> {
    rt: &'a R,
    dealer: Dealer<'a, R>,
    beside: T,
}

impl<'a, R: Threads + Wait + Sync, T: Task<Output = B> + Drop, B: Drop> Task
    for DealerAndBeside<'a, R, T> {
    type Output = Option<(DealDone, B)>;

    ghost can_run = { λ d. IsSync R.row × IsLaneCount (length d.dealer.outputs.items) × T.can_run d.beside };

    ghost run_gives = { λ d r.
        IfSome r (λ r. IsDealerRun d.dealer.input d.dealer.outputs.items r.0 × T.run_gives d.beside r.1) };

    fn run(self) -> Option<(DealDone, B)> {
        let DealerAndBeside { rt, dealer, beside } = self;
        run_both(rt, dealer, beside)
    }
}

/// Starts the thread that gathers and the one that deals, then does the work `beside` in this one. Returns `None` if
/// one can't be started; then what was started has ended. It isn't inlined, since its caller may have a stack frame for
/// each lane.
#[inline(never)]
pub fn deal_and_gather<R: Threads + Wait + Sync, T: Task<Output = B> + Drop, B: Drop>(
    rt: &R,
    alloc: Global,
    outer: OuterRingEnds,
    reserved: Vec<StageDone>,
    beside: T,
) -> Option<(LanesDone, B)>
    requires shared { IsSync R.row }
    requires outer { AreAround outer }
    requires beside { T.can_run beside }
    ensures ran { IfSome result (λ r. HaveDealtAndGathered outer reserved r.0) }
    ensures beside { IfSome result (λ r. T.run_gives beside r.1) }
{
    let OuterRingEnds {
        input,
        outputs,
        inputs,
        output,
    } = outer;
    let gatherer = Gatherer {
        rt,
        alloc,
        inputs,
        output,
    };
    let dealing = DealerAndBeside {
        rt,
        dealer: Dealer {
            rt,
            alloc,
            input,
            outputs,
        },
        beside,
    };
    let (gathered, rest) = run_both(rt, gatherer, dealing)?;
    let (dealt, beside) = rest?;
    let done = LanesDone {
        dealt,
        lanes: reserved,
        gathered,
    };
    Some((done, beside))
}
