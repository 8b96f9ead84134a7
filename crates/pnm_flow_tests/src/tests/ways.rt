//! The ways to run a chain: in one thread, or with a thread for each tool or for each of its lanes.

ghost use Rattle.pnm_tools.specs.Chains.{IsChain};

use super::chains::run_at;
use pnm_flow::{OpenGate, RunFault, Summary, run_serial};
use pnm_image::{BytesIn, BytesOut, Form};
use pnm_tools::Tool;
use std::alloc::Global;
use std::process::Abort;
use std::sync::Wait;
use std::thread::Threads;

/// In one thread; or over threads, with the messages that a ring holds and the lanes of each row-wise tool.
#[derive(Clone, Copy, Debug)]
pub enum Way {
    OneThread,
    Threads(usize, usize),
}

/// Runs these tools in this way, and writes in this form.
pub fn run_by<H: Threads + Wait + Abort + Sync, R: BytesIn, W: BytesOut>(
    rt: &H,
    alloc: Global,
    way: Way,
    reader: &mut R,
    writer: &mut W,
    tools: &[Tool],
    form: Form,
) -> Result<Summary, RunFault>
    requires { IsChain tools.now }
{
    match way {
        Way::OneThread => run_serial(alloc, reader, writer, tools, form),
        Way::Threads(capacity, lanes) => {
            let chain = (tools, capacity, lanes);
            run_at(rt, alloc, chain, form, &OpenGate, reader, writer)
        }
    }
}
