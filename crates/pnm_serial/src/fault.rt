//! Why a run ended without its whole output.

use pnm_read::InputFault;
use pnm_tools::ToolFault;
use pnm_write::SinkFault;

/// Why a run ended without its whole output: the input's fault, if it has one; otherwise the fault of the first tool of
/// the chain that has one; otherwise the output's. Over threads there are two more reasons. The first, before all
/// others, is that the run couldn't be started. The second is that the other end of a ring hung up. If a tool saw it,
/// that is the tool's fault. If the caller saw it at the first ring, it comes before the input's fault; if at the last
/// ring, before the output's.
#[derive(Clone, Copy, Debug, PartialEq, Eq)]
pub enum RunFault {
    /// There was no memory for a ring or a list, a ring's wakers had too many owners, or a thread couldn't be started.
    NoStart,
    /// The input is at fault.
    Input(InputFault),
    /// The tool of this number, from 1, is at fault.
    Tool(usize, ToolFault),
    /// The output is at fault.
    Output(SinkFault),
    /// The other end of a ring of the tool of this number, from 1, hung up. 0 and the number after the last tool's
    /// stand for the caller, which sends to the first tool and takes from the last.
    PeerGone(usize),
}
