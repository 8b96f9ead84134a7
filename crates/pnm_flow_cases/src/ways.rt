//! The ways to run a chain: in one thread, or with a thread for each tool or for each of its lanes.

ghost use Rattle.pnm_tools.specs.Chains.{IsChain};

use pnm_flow::{MAX_LANES, MAX_RING_CAPACITY, OpenGate, RunFault, Summary, run, run_serial};
use pnm_image::{BytesIn, BytesOut, Form};
use pnm_test_support::Unmade;
use pnm_tools::Tool;
use std::alloc::Global;
use std::sync::Wait;
use std::thread::Threads;

/// In one thread; or over threads, with the messages that a ring holds and the lanes of each row-wise tool.
#[derive(Clone, Copy, Debug)]
pub enum Way {
    OneThread,
    Threads(usize, usize),
}

/// In one thread, and over rings of the least room, of two messages and of the most room, with one lane and with three;
/// with two lanes and with the most; and over rings of the room that the program gives them, with one lane.
pub const WAYS: [Way; 10] = [
    Way::OneThread,
    Way::Threads(1, 1),
    Way::Threads(2, 1),
    Way::Threads(1_024, 1),
    Way::Threads(1, 3),
    Way::Threads(2, 3),
    Way::Threads(1_024, 3),
    Way::Threads(1, 2),
    Way::Threads(1, 8),
    Way::Threads(64, 1),
];

/// Runs these tools in this way, and writes in this form.
pub fn run_by<H: Threads + Wait + Sync, R: BytesIn, W: BytesOut>(
    rt: &H,
    alloc: Global,
    way: Way,
    reader: &mut R,
    writer: &mut W,
    tools: &[Tool],
    form: Form,
) -> Result<Result<Summary, RunFault>, Unmade>
    requires { IsChain tools.now }
{
    match way {
        Way::OneThread => Ok(run_serial(alloc, reader, writer, tools, form)),
        Way::Threads(capacity, lanes) => {
            if capacity < 1 || capacity > MAX_RING_CAPACITY || lanes < 1 || lanes > MAX_LANES {
                return Err(Unmade);
            }
            Ok(run(
                rt, alloc, reader, writer, tools, form, capacity, lanes, &OpenGate,
            ))
        }
    }
}
