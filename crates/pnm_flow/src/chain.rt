//! A chain: its tools, each in a thread of its own or over lanes in several, with a ring between a tool and the next.

ghost use Rattle.std.specs.Prelude.{◌≡◌, ◌≤◌, ◌<◌, ◌+◌, [], ◌∷◌, ◌++◌, length, vec_capacity, IfOk, IfErr, IfSome};
ghost use Rattle.std.specs.Thread.{IsSync};
ghost use Rattle.pnm_tools.specs.Chains.{AreLawfulTools, IsChain};
ghost use Rattle.pnm_tools.specs.Tools.{IsLawfulTool};
ghost use Rattle.pnm_stages.specs.RingLimits.{IsRingCapacity};
ghost use Rattle.pnm_stages.specs.Rings.{sent, received, IsPair, SameSender, SameReceiver};
ghost use Rattle.pnm_stages.specs.Starts.{IsUntouched};
ghost use Rattle.pnm_lanes.specs.LaneLimits.{IsLaneCount};
ghost use Rattle.pnm_flow.specs.Links.{IsWhole};
ghost use Rattle.pnm_flow.specs.ChainRuns.{HasRunChain};
ghost use Rattle.pnm_flow.specs.Internal.ChainRuns.{HasRunBetween, IsReserved};

use crate::tool_run::{Plan, run_tool};
use pnm_stages::{
    Call, Gate, Idle, NoStart, Receiver, Sender, StageDone, StageEnd, Task, new_ring,
};
use pnm_tools::Tool;
use std::alloc::Global;
use std::sync::Wait;
use std::thread::Threads;

/// Both ends of the ring between a tool and the next one, once both have ended.
#[derive(Drop)]
pub struct Link {
    /// The end that the tool sent on.
    pub producer: Sender,
    /// The end that the next tool received on.
    pub consumer: Receiver,
}

/// A chain that has ended: the ends of its outer rings, the rings between its tools, and how each tool
/// has ended.
#[derive(Drop)]
pub struct ChainDone {
    /// The end that the first tool received on.
    pub input: Receiver,
    /// The end that the last tool sent on.
    pub output: Sender,
    /// The rings between a tool and the next, in the order of the tools: one less than there are tools.
    pub links: Vec<Link>,
    /// How each tool has ended, in the order of the tools.
    pub ends: Vec<StageEnd>,
}

/// Passes the messages of `input` through the tools to `output`, each tool a stage in a thread of its own. If there are
/// several `lanes`, 8 at most, a row-wise tool works over that many lanes instead: it has a thread for each lane, one
/// that deals the rows to the lanes, and one that gathers what they make. Each ring holds `capacity` packets, 1 to
/// 1,024. Each stage calls the gate with its tool's number, from 1, and lane 0; each lane calls it with its tool's
/// number and its own, from 0.
///
/// It returns once all tools have ended. They end when the end of the stream or Stop has come, or when the sender at
/// the input hangs up. They notice that the receiver at the output hung up only when its ring is full. So either other
/// threads send and take, or the input holds all messages and the output has room for all results. Returns `NoStart` if
/// there is no memory for a ring or a list, if a ring's wakers have too many owners, or if a thread can't be started.
pub fn run_chain<R: Threads + Wait + Sync, G: Gate>(
    rt: &R,
    alloc: Global,
    tools: &[Tool],
    capacity: usize,
    lanes: usize,
    gate: &G,
    input: Receiver,
    output: Sender,
) -> Result<ChainDone, NoStart>
    requires chain { IsChain tools.now }
    requires capacity { IsRingCapacity capacity }
    requires lanes { IsLaneCount lanes }
    ensures input { IfOk result (λ done. SameReceiver input done.input) }
    ensures output { IfOk result (λ done. SameSender output done.output) }
    ensures ran { IfOk result (λ done. HasRunChain lanes tools.now done.ends.items done.links.items
        (received input) (received done.input) (sent output) (sent done.output)) }
    ensures not_started { IfErr result (λ refused. IfSome refused.ends (IsUntouched input output)) }
{
    match run_chain_beside(rt, alloc, tools, capacity, lanes, gate, input, output, Idle) {
        Ok((done, ())) => Ok(done),
        Err(refused) => Err(refused),
    }
}

/// Passes the messages of `input` through the tools to `output`, as `run_chain` does. Once each of its threads is
/// started, this thread does the work `beside`. Doesn't do that work if it returns `NoStart`.
pub fn run_chain_beside<R: Threads + Wait + Sync, G: Gate, T: Task<Output = B> + Drop, B: Drop>(
    rt: &R,
    alloc: Global,
    tools: &[Tool],
    capacity: usize,
    lanes: usize,
    gate: &G,
    input: Receiver,
    output: Sender,
    beside: T,
) -> Result<(ChainDone, B), NoStart>
    requires shared { IsSync R.row × IsSync G.row }
    requires chain { IsChain tools.now }
    requires capacity { IsRingCapacity capacity }
    requires lanes { IsLaneCount lanes }
    requires beside { T.can_run beside }
    ensures input { IfOk result (λ r. SameReceiver input r.0.input) }
    ensures output { IfOk result (λ r. SameSender output r.0.output) }
    ensures ran { IfOk result (λ r. HasRunChain lanes tools.now r.0.ends.items r.0.links.items
        (received input) (received r.0.input) (sent output) (sent r.0.output)) }
    ensures beside { IfOk result (λ r. T.run_gives beside r.1) }
    ensures not_started { IfErr result (λ refused. IfSome refused.ends (IsUntouched input output)) }
{
    let Some(reserved) = Reserved::new(alloc, tools.len()) else {
        return Err(not_started(input, output));
    };
    run_stages(
        rt, alloc, tools, capacity, lanes, gate, input, output, reserved, beside,
    )
}

/// What a chain gives back, reserved before any thread is started.
#[derive(Drop)]
struct Reserved {
    links: Vec<Link>,
    ends: Vec<StageEnd>,
}

impl Reserved {
    /// Reserves the lists for `count` tools. Returns `None` if there is no memory.
    fn new(alloc: Global, count: usize) -> Option<Reserved>
        ensures { IfSome result
            (λ reserved. IsReserved count reserved.links.items (vec_capacity reserved.links) reserved.ends.items
            (vec_capacity reserved.ends)) }
    {
        let links = Vec::with_capacity(alloc, count).ok()?;
        let ends = Vec::with_capacity(alloc, count).ok()?;
        Some(Reserved { links, ends })
    }
}

/// Starts the tools, at least one, each in threads of its own and the last one first, and does the work `beside` once
/// all are started.
fn run_stages<R: Threads + Wait + Sync, G: Gate, T: Task<Output = B> + Drop, B: Drop>(
    rt: &R,
    alloc: Global,
    tools: &[Tool],
    capacity: usize,
    lanes: usize,
    gate: &G,
    input: Receiver,
    output: Sender,
    reserved: Reserved,
    beside: T,
) -> Result<(ChainDone, B), NoStart>
    requires shared { IsSync R.row × IsSync G.row }
    requires tools { AreLawfulTools tools.now × (1 ≤ length tools.now) }
    requires capacity { IsRingCapacity capacity }
    requires lanes { IsLaneCount lanes }
    requires reserved { IsReserved (length tools.now) reserved.links.items (vec_capacity reserved.links)
        reserved.ends.items (vec_capacity reserved.ends) }
    requires beside { T.can_run beside }
    ensures ran { IfOk result
        (λ r. HasRunBetween lanes tools.now (vec_capacity reserved.links) (vec_capacity reserved.ends) input output
        r.0) }
    ensures beside { IfOk result (λ r. T.run_gives beside r.1) }
    ensures not_started { IfErr result (λ refused. IfSome refused.ends (IsUntouched input output)) }
{
    let (last, others) = last_and_others(tools);
    let number = tools.len();
    let Some(plan) = Plan::new(alloc, last, lanes, capacity) else {
        return Err(not_started(input, output));
    };
    if others.is_empty() {
        let all = run_tool(
            rt, alloc, last, number, lanes, plan, gate, input, output, beside,
        );
        return match all {
            Some((done, beside)) => Ok((only(done, reserved), beside)),
            None => Err(NoStart { ends: None }),
        };
    }
    let Some((producer, consumer)) = new_ring(alloc, capacity) else {
        return Err(not_started(input, output));
    };
    let before = Call(
        move || -> Option<(ChainDone, B)>
            requires { (IsSync R.row × IsSync G.row)
                × (AreLawfulTools others.now × (1 ≤ length others.now)) × IsLaneCount lanes
                × IsRingCapacity capacity × T.can_run beside
                × IsReserved (length others.now) reserved.links.items (vec_capacity reserved.links) reserved.ends.items
                (vec_capacity reserved.ends) }
            ensures { IfSome result
                (λ r. HasRunBetween lanes others.entry.now (vec_capacity reserved.links) (vec_capacity reserved.ends)
                input producer r.0
                × T.run_gives beside r.1) }
        {
            run_stages(
                rt, alloc, others, capacity, lanes, gate, input, producer, reserved, beside,
            )
            .ok()
        },
    );
    let Some((done, rest)) = run_tool(
        rt, alloc, last, number, lanes, plan, gate, consumer, output, before,
    ) else {
        return Err(NoStart { ends: None });
    };
    match rest {
        Some((chain, beside)) => Ok((extended(chain, done), beside)),
        None => Err(NoStart { ends: None }),
    }
}

/// Returns the answer of a chain of which nothing was started. It gives the ring ends back.
fn not_started(input: Receiver, output: Sender) -> NoStart
    ensures { IfSome result.ends (IsUntouched input output) }
{
    NoStart {
        ends: Some((input, output)),
    }
}

/// Returns the last tool, and the tools before it.
fn last_and_others(tools: &[Tool]) -> (&Tool, &[Tool])
    requires lawful { AreLawfulTools tools.now }
    requires some { 1 ≤ length tools.now }
    ensures parts { tools.now ≡ result.1.now ++ result.0.now ∷ [] }
    ensures one_less { length result.1.now + 1 ≡ length tools.now }
    ensures lawful { IsLawfulTool result.0.now × AreLawfulTools result.1.now }
{
    match tools.split_last() {
        Some((last, others)) => (last, others),
        None => unreachable!(),
    }
}

/// Creates a chain of one stage.
fn only(done: StageDone, reserved: Reserved) -> ChainDone
    requires { IsReserved 1 reserved.links.items (vec_capacity reserved.links) reserved.ends.items
        (vec_capacity reserved.ends) }
    ensures ends { (result.input ≡ done.input) × (result.output ≡ done.output) }
    ensures lists { (result.links.items ≡ []) × (result.ends.items ≡ done.end ∷ []) }
    ensures reserved { (vec_capacity result.links ≡ vec_capacity reserved.links)
        × (vec_capacity result.ends ≡ vec_capacity reserved.ends) }
{
    let StageDone { input, output, end } = done;
    let Reserved { links, mut ends } = reserved;
    ends.push_reserved(end);
    ChainDone {
        input,
        output,
        links,
        ends,
    }
}

/// Adds the stage after a chain to it.
fn extended(chain: ChainDone, done: StageDone) -> ChainDone
    requires ring { IsPair chain.output done.input }
    requires reserved { (length chain.links.items < vec_capacity chain.links)
        × (length chain.ends.items < vec_capacity chain.ends) }
    ensures input { result.input ≡ chain.input }
    ensures output { result.output ≡ done.output }
    ensures link { (link : _) × (result.links.items ≡ chain.links.items ++ link ∷ []) × IsWhole link
        × (sent link.producer ≡ sent chain.output) × (received link.consumer ≡ received done.input) }
    ensures end { result.ends.items ≡ chain.ends.items ++ done.end ∷ [] }
    ensures reserved { (vec_capacity result.links ≡ vec_capacity chain.links)
        × (vec_capacity result.ends ≡ vec_capacity chain.ends) }
{
    let ChainDone {
        input,
        output: mut producer,
        mut links,
        mut ends,
    } = chain;
    let StageDone {
        input: mut consumer,
        output,
        end,
    } = done;
    // What is left in the ring is known now.
    consumer.look_beside(&mut producer);
    links.push_reserved(Link { producer, consumer });
    ends.push_reserved(end);
    ChainDone {
        input,
        output,
        links,
        ends,
    }
}
