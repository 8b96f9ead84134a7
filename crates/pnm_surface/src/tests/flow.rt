//! `pnm_flow`: a stage, lanes and chains.

use super::rings::{holding, holds, ring};
use super::runs::tools_of;
use super::same;
use pnm_flow::{
    ChainDone, Gate, Link, NoStart, OpenGate, Receiver, Sender, StageDone, StageEnd, Tool,
    ToolFault, run_chain, run_stage,
};
use pnm_image::Kind;
use pnm_test_support::Part;
use std::alloc::Global;
use std::process::Abort;
use std::sync::Wait;
use std::thread::Threads;

/// An image of two rows, and the end of the stream.
const IMAGE: &[Part<'static>] = &[
    Part::Begin(Kind::Gray, 1, 2, 9),
    Part::Row(&[1]),
    Part::Row(&[2]),
    Part::ImageEnd,
    Part::StreamEnd,
];

/// The stage of a tool that inverts, with number 1, over these ring ends.
fn stage<R: Wait, G: Gate>(
    rt: &R,
    alloc: Global,
    gate: &G,
    input: Receiver,
    output: Sender,
) -> StageDone {
    run_stage(rt, alloc, &Tool::Invert, 1, gate, input, output)
}

/// Nothing is left of what came, and these were sent.
fn has_passed(
    rt: &impl Abort,
    input: Receiver,
    output: Sender,
    receiver: &mut Receiver,
    parts: &[Part<'_>],
) {
    let mut input = input;
    holds(rt, &mut input, &[]);
    holds(rt, receiver, parts);
    drop(output);
}

/// The sending end, unless it is to be gone.
fn unless(is_gone: bool, sender: Sender) -> Option<Sender> {
    if is_gone { None } else { Some(sender) }
}

/// How a stage that takes these ends, and what it sends.
fn ends_so<R: Wait + Abort>(
    rt: &R,
    alloc: Global,
    takes: &[Part<'static>],
    want: StageEnd,
    sends: &[Part<'static>],
) {
    let (sender, input) = holding(rt, alloc, takes);
    let (output, mut receiver) = ring(rt, alloc);
    let _sender = unless(want == StageEnd::PeerGone, sender);
    let done = stage(rt, alloc, &OpenGate, input, output);
    same(rt, &done.end, &want, &"an end");
    holds(rt, &mut receiver, sends);
}

/// Stop is passed on. A refusal sends Stop and drains the input. If the other end of the input is gone, Stop is sent,
/// too. An open gate returns at once.
#[test]
fn stages_end(rt: HostRuntime) {
    OpenGate.arrive(1, 0);
    let stop: &[Part<'static>] = &[Part::Stop];
    let disorder: &[Part<'static>] = &[Part::ImageEnd, Part::StreamEnd];
    let refused = StageEnd::Fault(ToolFault::OutOfOrder);
    ends_so(&rt, rt.alloc(), stop, StageEnd::Broken, stop);
    ends_so(&rt, rt.alloc(), disorder, refused, stop);
    ends_so(&rt, rt.alloc(), &[], StageEnd::PeerGone, stop);
}

/// The chain that inverts twice, over rings for a message each.
fn chain<R: Threads + Wait + Abort + Sync>(
    rt: &R,
    alloc: Global,
    input: Receiver,
    output: Sender,
) -> ChainDone {
    let tools = tools_of(rt, alloc, "pnminvert | pnminvert");
    let tools = tools.as_slice();
    match run_chain(rt, alloc, tools, 1, 1, &OpenGate, input, output) {
        Ok(done) => done,
        Err(NoStart { ends: _ }) => panic!(rt; "not started"),
    }
}

/// Each tool of a chain ends well, and nothing is left of what came, or in the link between them.
#[test]
fn chains_end_well(rt: HostRuntime) {
    let (_sender, input) = holding(&rt, rt.alloc(), IMAGE);
    let (output, mut receiver) = ring(&rt, rt.alloc());
    let ChainDone {
        input,
        output,
        links,
        ends,
    } = chain(&rt, rt.alloc(), input, output);
    let want = [StageEnd::Well, StageEnd::Well];
    same(&rt, &ends.as_slice(), &want.as_slice(), &"ends");
    has_passed(&rt, input, output, &mut receiver, IMAGE);
    are_drained(&rt, links);
}

/// There is one link, and nothing is left in it.
fn are_drained(rt: &impl Abort, links: Vec<Link>) {
    let mut links = links;
    let link = links.pop().expect(rt, "a link");
    same(rt, &links.len(), &0, &"links");
    let Link { producer, consumer } = link;
    drop(producer);
    let mut consumer = consumer;
    holds(rt, &mut consumer, &[]);
}
