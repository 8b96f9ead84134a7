//! Wrappers between a process's standard streams and a run. They repeat calls that a signal interrupts, and let long
//! writes bypass a buffer.
#![tactic(auto)]

mod bypass_writer;
mod retry;

pub use bypass_writer::BypassWriter;
pub use retry::Retry;
