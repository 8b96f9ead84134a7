//! A stage of a chain: a tool in a thread of its own, between two rings.

ghost use Rattle.std.specs.Prelude.{◌≡◌, ◌<◌, [], length, IsTrue, IsFalse};
ghost use Rattle.pnm_tools.specs.declared.tool.Tool.{Tool as ToolValue};
ghost use Rattle.pnm_image.specs.Messages.{EndsBy};
ghost use Rattle.pnm_image.specs.Packets.{messages_in, ending_of_packet};
ghost use Rattle.pnm_stages.specs.Rings.{sent, received, known_items, known_packets, SameSender, SameReceiver};
ghost use Rattle.pnm_tools.specs.FusedFilters.{FilterAt};
ghost use Rattle.pnm_stages.specs.Stages.{HasRunStage};
ghost use Rattle.pnm_stages.specs.Internal.StageParts.{HasSentAnswers, HasPassed, HasBrokenOffAfter};

use crate::receiver::Receiver;
use crate::sender::Sender;
use pnm_image::{Ending, Packet};
use pnm_tools::{Filter, FusedFilter, ToolFault, Unfed};
use std::alloc::Global;
use std::sync::Wait;

/// What each thread of a tool calls once, before it takes its first message. Tests use it to hold a thread back.
pub trait Gate: Sync {
    /// Tells the gate that the thread of a tool has come. `stage` is the number of the tool, from 1, and `lane` that of
    /// the lane, from 0.
    fn arrive(&self, stage: usize, lane: usize);
}

/// The gate that holds nobody back.
#[derive(Clone, Copy, Debug)]
pub struct OpenGate;

impl Gate for OpenGate {
    fn arrive(&self, _stage: usize, _lane: usize) {}
}

/// How a stage has ended.
#[derive(Clone, Copy, Debug, PartialEq, Eq)]
pub enum StageEnd {
    /// The end of the stream was taken, and the tool's was sent.
    Well,
    /// Stop was taken, and sent.
    Broken,
    /// The tool refused with this fault. Stop was sent, and the input was drained: taken and dropped through the end of
    /// the stream or Stop.
    Fault(ToolFault),
    /// The other end of a ring hung up. If it was the receiver, the input was drained first; if it was the sender, Stop
    /// was sent.
    PeerGone,
}

/// The ring ends of a stage that has ended, and how it did.
#[derive(Drop)]
pub struct StageDone {
    /// The end that it received on.
    pub input: Receiver,
    /// The end that it sent on.
    pub output: Sender,
    /// How it has ended.
    pub end: StageEnd,
}

/// Passes the messages of `input` through a tool at work, or one that has refused, to `output`, as `run_stage` does
/// behind its gate. The messages of a packet are fed together, but rows that repeat are fed some copies at a time. If
/// not all of the messages may come, each is fed by itself, and the ones behind the refused one are dropped. If there
/// is no memory for a copy of rows, the tool refuses by `Memory`. Each packet that the tool gives is sent unchanged.
pub fn run_filter<R: Wait, F: Filter + Drop>(
    rt: &R,
    alloc: Global,
    stage: FusedFilter<F>,
    input: Receiver,
    output: Sender,
) -> StageDone
    ensures input { SameReceiver input result.input }
    ensures output { SameSender output result.output }
    ensures ran { (tool : ToolValue) → FilterAt F.at F.all_given F.stopped stage tool [] []
        → HasRunStage tool result.end (received input) (received result.input) (known_items result.input)
        (sent output) (sent result.output) }
{
    let mut stage = stage;
    let mut input = input;
    let mut output = output;
    output.coalesce_wakes();
    let end = pass_all(rt, alloc, &mut stage, &mut input, &mut output);
    StageDone { input, output, end }
}

/// Passes on all messages through to the end of the stream.
fn pass_all<R: Wait, F: Filter + Drop>(
    rt: &R,
    alloc: Global,
    stage: &mut FusedFilter<F>,
    input: &mut Receiver,
    output: &mut Sender,
) -> StageEnd
    ensures input { SameReceiver input.old input.new }
    ensures output { SameSender output.old output.new }
    ensures ran { (tool : ToolValue) → FilterAt F.at F.all_given F.stopped stage.old tool [] []
        → HasRunStage tool result (received input.old) (received input.new) (known_items input.new)
        (sent output.old) (sent output.new) }
{
    if let Some(fault) = stage.fault() {
        return break_off(rt, fault, Ending::More, input, output);
    }
    for _ in rt.forever() {
        if !has_next(rt, input, output) {
            output.send(rt, Packet::Stop);
            return StageEnd::PeerGone;
        }
        let packet = input.receive_known();
        let ending = packet.ending();
        if !pass(rt, alloc, stage, packet, output) {
            input.drain_after(rt, ending);
            return StageEnd::PeerGone;
        }
        if let Some(fault) = stage.fault() {
            return break_off(rt, fault, ending, input, output);
        }
        match ending {
            Ending::More => {}
            Ending::Whole => return StageEnd::Well,
            Ending::BrokenOff => return StageEnd::Broken,
        }
    }
    unreachable!()
}

/// Waits until a message is there. Returns false if the ring is empty and the sender hung up.
#[inline(always)]
fn has_next<R: Wait>(rt: &R, input: &mut Receiver, output: &mut Sender) -> bool
    ensures ring { SameReceiver input.old input.new }
    ensures received { received input.new ≡ received input.old }
    ensures output { SameSender output.old output.new }
    ensures sent { sent output.new ≡ sent output.old }
    ensures some { IsTrue result → 0 < length (known_packets input.new) }
    ensures none { IsFalse result → known_items input.new ≡ [] }
{
    input.has_seen_message() || wait(rt, input, output)
}

/// Wakes the receiver for all that was sent, since the stage may have to wait, and waits until a message is there.
/// Returns false if the ring is empty and the sender hung up. It is a function of its own, since `has_next` mostly
/// finds a message at once.
#[inline(never)]
fn wait<R: Wait>(rt: &R, input: &mut Receiver, output: &mut Sender) -> bool
    ensures ring { SameReceiver input.old input.new }
    ensures received { received input.new ≡ received input.old }
    ensures output { SameSender output.old output.new }
    ensures sent { sent output.new ≡ sent output.old }
    ensures some { IsTrue result → 0 < length (known_packets input.new) }
    ensures none { IsFalse result → known_items input.new ≡ [] }
{
    output.wake_receiver();
    input.has_message() || input.wait_for_message(rt)
}

/// Passes a packet through the tool, and sends what the tool makes of it. Returns false if the receiver hung up first.
fn pass<R: Wait, F: Filter + Drop>(
    rt: &R,
    alloc: Global,
    stage: &mut FusedFilter<F>,
    packet: Packet,
    output: &mut Sender,
) -> bool
    requires { EndsBy (ending_of_packet packet) (messages_in packet) }
    ensures output { SameSender output.old output.new }
    ensures passed { HasPassed F.at F.all_given F.stopped result stage.old stage.new (messages_in packet)
        (sent output.old) (sent output.new) }
{
    let mut unfed = Unfed::of(packet);
    while stage.feed_next(alloc, &mut unfed) {
        if !send_answers(rt, stage, output) {
            return false;
        }
    }
    true
}

/// Sends what the tool gives, until it has given all, or refused. Returns false if the output's other end was seen
/// dropped before that.
fn send_answers<R: Wait, F: Filter + Drop>(
    rt: &R,
    stage: &mut FusedFilter<F>,
    output: &mut Sender,
) -> bool
    ensures output { SameSender output.old output.new }
    ensures sent { HasSentAnswers F.at F.all_given F.stopped result stage.old stage.new
        (sent output.old) (sent output.new) }
{
    while let Some(answer) = stage.next() {
        if !output.send(rt, answer) {
            return false;
        }
    }
    true
}

/// Ends the stage of a tool that refused a message with this ending: sends Stop, and drains the input.
fn break_off<R: Wait>(
    rt: &R,
    fault: ToolFault,
    ending: Ending,
    input: &mut Receiver,
    output: &mut Sender,
) -> StageEnd
    ensures input { SameReceiver input.old input.new }
    ensures output { SameSender output.old output.new }
    ensures broken { HasBrokenOffAfter fault ending result (received input.old) (received input.new)
        (known_items input.new)
        (sent output.old) (sent output.new) }
{
    let is_sent = output.send(rt, Packet::Stop);
    let drained = input.drain_after(rt, ending);
    if is_sent && drained {
        StageEnd::Fault(fault)
    } else {
        StageEnd::PeerGone
    }
}
