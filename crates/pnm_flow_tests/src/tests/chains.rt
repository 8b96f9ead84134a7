//! Chains of several tools, and runs over them.

ghost use Rattle.std.specs.Prelude.{◌≤◌, IsTrue};
ghost use Rattle.pnm_tools.specs.Chains.{AreLawfulTools, IsChain};

use pnm_flow::{Gate, RunFault, Summary, run};
use pnm_image::{BytesIn, BytesOut, Device, Form};
use pnm_tools::{CutBox, Planes, Tool};
use std::alloc::{AllocError, Global};
use std::process::Abort;
use std::sync::Wait;
use std::thread::Threads;

/// Tools, the messages that a ring between them holds, and the number of lanes that they work over.
pub type Chain<'a> = (&'a [Tool], usize, usize);

/// Runs this chain at the gate, and writes in this form.
pub fn run_at<H: Threads + Wait + Abort + Sync, R: BytesIn, W: BytesOut>(
    rt: &H,
    alloc: Global,
    chain: Chain<'_>,
    form: Form,
    gate: &impl Gate,
    reader: &mut R,
    writer: &mut W,
) -> Result<Summary, RunFault> {
    let (tools, capacity, lanes) = chain;
    assert!(rt; is_chain(tools));
    assert!(rt; are_limits(capacity, lanes));
    run(
        rt, alloc, reader, writer, tools, form, capacity, lanes, gate,
    )
}

/// What the run of this chain at the gate answers, and what it writes in raw form.
pub fn outcome_of<H: Threads + Wait + Abort + Sync, R: BytesIn>(
    rt: &H,
    alloc: Global,
    chain: Chain<'_>,
    gate: &impl Gate,
    reader: &mut R,
) -> (Result<Summary, RunFault>, Vec<u8>) {
    let mut writer = Device::new(Vec::new(alloc));
    let answer = run_at(rt, alloc, chain, Form::Raw, gate, reader, &mut writer);
    (answer, writer.into_inner())
}

/// Whether these are as many tools as a chain may have, each lawful.
pub fn is_chain(tools: &[Tool]) -> bool
    ensures { IsTrue result → IsChain tools.now }
{
    1 <= tools.len() && tools.len() <= 64 && are_lawful(tools)
}

/// Whether a ring may hold `capacity` messages, and a tool may work over `lanes` lanes.
pub fn are_limits(capacity: usize, lanes: usize) -> bool
    ensures capacity { IsTrue result → (1 ≤ capacity) × (capacity ≤ 1024) }
    ensures lanes { IsTrue result → (1 ≤ lanes) × (lanes ≤ 8) }
{
    1 <= capacity && capacity <= 1_024 && 1 <= lanes && lanes <= 8
}

/// Whether each tool's options are in their ranges.
fn are_lawful(tools: &[Tool]) -> bool
    ensures { IsTrue result → AreLawfulTools tools.now }
{
    match tools {
        [] => true,
        [first, rest @ ..] => first.is_lawful() && are_lawful(rest),
    }
}

/// `pamchannel` of these planes.
pub fn channel(alloc: Global, numbers: &[u16], tuple_type: &[u8]) -> Result<Tool, AllocError> {
    let numbers = Vec::from_slice(alloc, numbers)?;
    let tuple_type = Vec::from_slice(alloc, tuple_type)?;
    Ok(Tool::Channel(Planes::new(numbers, tuple_type)))
}

/// `pamcut` without options.
pub const WHOLE: CutBox = CutBox {
    left: None,
    right: None,
    top: None,
    bottom: None,
    width: None,
    height: None,
};

/// `pamcut -left 1`.
pub const FROM_SECOND: CutBox = CutBox {
    left: Some(1),
    ..WHOLE
};

/// `pamcut -right -1 -width 1`.
pub const LAST_COLUMN: CutBox = CutBox {
    right: Some(-1),
    width: Some(1),
    ..WHOLE
};
