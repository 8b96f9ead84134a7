//! Runs: the images of a reader pass through the tools of a chain, in one thread, or each in a thread of its own or in
//! several lanes, and the results are written.
#![tactic(auto)]

mod chain;
mod lanes;
pub mod laws;
mod serial;
mod stage;
mod threaded;
mod tool_run;

pub use chain::{ChainDone, Link, run_chain};
pub use lanes::run_lanes;
pub use pnm_image::{BytesIn, BytesOut, Form, Message, Packet, Rows};
pub use pnm_lanes::{DealDone, GatherDone, MAX_LANES, deal, gather};
pub use pnm_read::InputFault;
pub use pnm_serial::{RunFault, Summary};
pub use pnm_stages::{
    AnyMessage, Gate, MAX_RING_CAPACITY, NoStart, OpenGate, Receiver, Sender, StageDone, StageEnd,
    new_ring,
};
pub use pnm_tools::{MAX_TOOLS, Tool, ToolFault};
pub use pnm_write::SinkFault;
pub use serial::{run_serial, run_serial_over};
pub use stage::run_stage;
pub use threaded::run;
