//! A run at the limits: the most tools over the most lanes.

use super::chains::{Chain, outcome_of};
use super::threads::tools_with_cut;
use super::{IMAGE, agrees};
use pnm_flow::{OpenGate, RunFault, Summary};
use pnm_image::Device;
use std::alloc::Global;
use std::process::Abort;
use std::sync::Wait;
use std::thread::Threads;

/// One image of one row.
const ONE_ROW: Summary = Summary { images: 1, rows: 1 };

/// The most tools over the most lanes, each in a thread of its own. If so many threads can't be started, the answer
/// says that.
#[test]
fn inverts_by_the_most_tools_over_lanes(rt: HostRuntime) {
    let tools = tools_with_cut(&rt, rt.alloc(), 64, 64);
    inverts_or_is_not_started(&rt, rt.alloc(), (tools.as_slice(), 1, 8));
}

/// This chain of an even number of tools that invert gives the image back, unless it can't be started.
fn inverts_or_is_not_started<H: Threads + Wait + Abort + Sync>(
    rt: &H,
    alloc: Global,
    chain: Chain<'_>,
) {
    let mut reader = Device::new(IMAGE);
    let (answer, written) = outcome_of(rt, alloc, chain, &OpenGate, &mut reader);
    if answer != Err(RunFault::NoStart) {
        agrees(
            rt,
            (answer, written.as_slice()),
            (Ok(ONE_ROW), IMAGE),
            &chain.2,
        );
    }
}
