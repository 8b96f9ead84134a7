//! Packets, passed through the tools of a chain in one thread.

ghost use Rattle.std.specs.Prelude.{◌<◌, ◌≤◌, ◌++◌, List, length, IsTrue, IsFalse};
ghost use Rattle.pnm_image.specs.Messages.{EndsBy};
ghost use Rattle.pnm_image.specs.Packets.{messages_in};
ghost use Rattle.pnm_image.specs.declared.message.Ending.TheVariants.{More};
ghost use Rattle.pnm_image.specs.declared.message.Message.{Message as MessageValue};
ghost use Rattle.pnm_serial.specs.FusedSinks.{output_of};
ghost use Rattle.pnm_serial.specs.SerialChains.{FiltersAt};
ghost use Rattle.pnm_tools.specs.declared.tool.Tool.{Tool as ToolValue};
ghost use Rattle.pnm_tools.specs.FusedFilters.{FilterAt};
ghost use Rattle.pnm_tools.specs.Unfed.{unfed_in, HasFedNext};
ghost use Rattle.pnm_serial.specs.Internal.SerialChains.{FeedsThrough, FiltersBusy, GivesThrough};

use crate::fused_sink::FusedSink;
use pnm_image::{BytesOut, Packet};
use pnm_tools::{Filter, FusedFilter, Unfed};
use std::alloc::Global;

/// Passes a packet through the filters, and writes what the last of them gives.
#[cycle(through)]
pub fn feed_through<F: Filter + Drop, W: BytesOut + Drop>(
    alloc: Global,
    stages: &mut [FusedFilter<F>],
    packet: Packet,
    fused_sink: &mut FusedSink<W>,
)
    ensures fed { FeedsThrough F.at F.all_given F.stopped W.held W.failures
        stages.old (messages_in packet) stages.new fused_sink.old fused_sink.new }
    ensures same_device { W.same (output_of fused_sink.old) (output_of fused_sink.new) }
{
    if stages.is_empty() {
        fused_sink.put(&packet);
        return;
    }
    let mut unfed = Unfed::of(packet);
    while feed_next(alloc, &mut stages[0], &mut unfed) {
        pass_answers(alloc, stages, fused_sink);
    }
}

/// Feeds a filter the next part of a packet, as `FusedFilter::feed_next` does. It is a function of its own, so that its
/// stack frame isn't taken once for each tool.
#[inline(never)]
fn feed_next<F: Filter + Drop>(alloc: Global, stage: &mut FusedFilter<F>, unfed: &mut Unfed) -> bool
    ensures fed { IsTrue result → HasFedNext F.at F.all_given F.stopped stage.old stage.new
        (unfed_in unfed.old) (unfed_in unfed.new) }
    ensures fewer { IsTrue result → length (unfed_in unfed.new) < length (unfed_in unfed.old) }
    ensures dropped { IsFalse result → (tool : ToolValue) (l g : List MessageValue)
        → FilterAt F.at F.all_given F.stopped stage.old tool l g
        → (1 ≤ length (unfed_in unfed.old) → EndsBy More l)
        → FilterAt F.at F.all_given F.stopped stage.new tool (l ++ unfed_in unfed.old) g }
{
    stage.feed_next(alloc, unfed)
}

/// Passes what the first filter gives through the others, until it has given all, or refused.
#[inline(always)]
#[cycle(through)]
fn pass_answers<F: Filter + Drop, W: BytesOut + Drop>(
    alloc: Global,
    stages: &mut [FusedFilter<F>],
    fused_sink: &mut FusedSink<W>,
)
    requires some { 0 < length stages.old }
    ensures given { GivesThrough W.held W.failures (FiltersBusy F.at F.all_given F.stopped stages.old)
        (FiltersAt F.at F.all_given F.stopped stages.new) fused_sink.old fused_sink.new }
    ensures same_device { W.same (output_of fused_sink.old) (output_of fused_sink.new) }
{
    while let Some(answer) = stages[0].next() {
        feed_through(alloc, &mut stages[1..], answer, fused_sink);
    }
}
