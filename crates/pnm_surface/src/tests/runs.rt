//! `pnm_flow` and `pnm_memory`: runs, over threads, in one, and over a text in memory.

ghost use Rattle.pnm_tools.specs.Chains.{IsChain};

use super::same;
use pnm_chain::parse_chain;
use pnm_flow::{
    BytesOut, Form, InputFault, OpenGate, RunFault, SinkFault, Summary, Tool, ToolFault, run,
    run_serial,
};
use pnm_image::Device;
use pnm_memory::convert;
use std::alloc::Global;
use std::process::Abort;
use std::sync::Wait;
use std::thread::Threads;

/// An image of one row, and the image inverted.
const IMAGE: &[u8] = b"P5\n2 1\n122\nAB";

/// The tools that a text names.
pub fn tools_of(rt: &impl Abort, alloc: Global, text: &str) -> Vec<Tool>
    ensures { IsChain result.items }
{
    parse_chain(alloc, text).expect(rt, "a chain")
}

/// What a run answers, and what it writes.
type Outcome = (Result<Summary, RunFault>, Vec<u8>);

/// Runs these tools over threads on this text, and writes in this form.
fn run_over_threads<H: Threads + Wait + Abort + Sync>(
    rt: &H,
    alloc: Global,
    text: &[u8],
    chain: &str,
    form: Form,
) -> Outcome {
    let tools = tools_of(rt, alloc, chain);
    let tools = tools.as_slice();
    let mut reader = Device::new(text);
    let mut writer = Device::new(Vec::new(alloc));
    let answer = run(
        rt,
        alloc,
        &mut reader,
        &mut writer,
        tools,
        form,
        64,
        1,
        &OpenGate,
    );
    (answer, writer.into_inner())
}

/// The same run in one thread.
fn run_in_one_thread(
    rt: &impl Abort,
    alloc: Global,
    text: &[u8],
    chain: &str,
    form: Form,
) -> Outcome {
    let mut writer = Device::new(Vec::new(alloc));
    let answer = answer_over(rt, alloc, text, chain, form, &mut writer);
    (answer, writer.into_inner())
}

/// The same run over memory alone.
fn run_in_memory(rt: &impl Abort, alloc: Global, text: &[u8], chain: &str, form: Form) -> Outcome {
    let tools = tools_of(rt, alloc, chain);
    let made = convert(alloc, tools.as_slice(), form, text);
    (made.answer, made.written)
}

/// What that run answers over this writer.
fn answer_over<W: BytesOut>(
    rt: &impl Abort,
    alloc: Global,
    text: &[u8],
    chain: &str,
    form: Form,
    writer: &mut W,
) -> Result<Summary, RunFault> {
    let tools = tools_of(rt, alloc, chain);
    let tools = tools.as_slice();
    run_serial(alloc, &mut Device::new(text), writer, tools, form)
}

/// A run has answered this, and has written this.
fn is_outcome(
    rt: &impl Abort,
    outcome: &Outcome,
    want: Result<Summary, RunFault>,
    writes: &[u8],
    way: &str,
) {
    same(rt, &outcome.0, &want, &way);
    same(rt, &outcome.1.as_slice(), &writes, &way);
}

/// The run of this chain over this text answers so and writes this, over threads, in one, and in memory.
fn answers<H: Threads + Wait + Abort + Sync>(
    rt: &H,
    alloc: Global,
    given: (&[u8], &str, Form),
    want: Result<Summary, RunFault>,
    writes: &[u8],
) {
    let (text, chain, form) = given;
    let outcome = run_over_threads(rt, alloc, text, chain, form);
    is_outcome(rt, &outcome, want, writes, "over threads");
    let outcome = run_in_one_thread(rt, alloc, text, chain, form);
    is_outcome(rt, &outcome, want, writes, "in one thread");
    let outcome = run_in_memory(rt, alloc, text, chain, form);
    is_outcome(rt, &outcome, want, writes, "in memory");
}

/// A fault of the input, of a tool and of the form, and what was written before it.
#[test]
fn runs_answer_faults(rt: HostRuntime) {
    let cut = Err(RunFault::Input(InputFault::RasterCut));
    let given = (&IMAGE[..12], "pnminvert", Form::Raw);
    answers(&rt, rt.alloc(), given, cut, b"P5\n2 1\n122\n");
    let refused = Err(RunFault::Tool(2, ToolFault::ChannelOutside));
    let given = (IMAGE, "pnminvert | pamchannel 1", Form::Raw);
    answers(&rt, rt.alloc(), given, refused, b"");
    let second = Err(RunFault::Output(SinkFault::SecondPlain));
    let images = b"P5\n1 1\n9\n\x01P5\n1 1\n9\n\x02".as_slice();
    let given = (images, "pnminvert", Form::Plain);
    answers(&rt, rt.alloc(), given, second, b"P2\n1 1\n9\n8\n");
}
