//! A tool in a thread of its own, between two rings.

ghost use Rattle.pnm_tools.specs.Tools.{IsLawfulTool};
ghost use Rattle.pnm_stages.specs.Rings.{sent, received, known_items, SameSender, SameReceiver};
ghost use Rattle.pnm_stages.specs.Stages.{HasRunStage};
ghost use Rattle.pnm_flow.specs.Internal.ChainRuns.{IsOneStageRun};

use pnm_filters::filter_of;
use pnm_stages::{Gate, Receiver, Sender, StageDone, Task, run_filter};
use pnm_tools::Tool;
use std::alloc::Global;
use std::sync::Wait;

/// Passes the messages of `input` through the tool to `output`, message by message, until the stream has ended. It
/// calls the gate once, with the tool's number and lane 0, before it takes the first message. If the sender or the
/// receiver hangs up early, the stage ends by `PeerGone`. Otherwise it ends only once it has taken the end of the
/// stream or Stop.
pub fn run_stage<R: Wait, G: Gate>(
    rt: &R,
    alloc: Global,
    tool: &Tool,
    number: usize,
    gate: &G,
    input: Receiver,
    output: Sender,
) -> StageDone
    requires { IsLawfulTool tool.now }
    ensures input { SameReceiver input result.input }
    ensures output { SameSender output result.output }
    ensures ran { HasRunStage tool.now result.end (received input) (received result.input) (known_items result.input)
        (sent output) (sent result.output) }
{
    let stage = Stage {
        rt,
        alloc,
        tool,
        number,
        gate,
        input,
        output,
    };
    stage.run()
}

/// The work of a stage.
#[derive(Drop)]
pub struct Stage<'a, R, G> {
    pub rt: &'a R,
    pub alloc: Global,
    pub tool: &'a Tool,
    pub number: usize,
    pub gate: &'a G,
    pub input: Receiver,
    pub output: Sender,
}

impl<'a, R: Wait, G: Gate> Task for Stage<'a, R, G> {
    type Output = StageDone;

    ghost can_run = { λ s. IsLawfulTool s.tool.now };

    ghost run_gives = { λ s done. IsOneStageRun s.tool.now s.input s.output done };

    fn run(self) -> StageDone {
        let Stage {
            rt,
            alloc,
            tool,
            number,
            gate,
            input,
            output,
        } = self;
        gate.arrive(number, 0);
        run_filter(rt, alloc, filter_of(alloc, tool), input, output)
    }
}
