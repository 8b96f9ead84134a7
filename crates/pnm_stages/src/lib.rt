//! Stages: a tool in a thread of its own, between two rings of messages; the rings, how a thread waits for its
//! neighbours, and what threads side by side are started with.
#![tactic(auto)]

mod branches;
pub mod laws;
mod receiver;
mod ring;
mod sender;
mod stage;
mod wakers;

pub use branches::{Call, Idle, NoStart, Task, run_both};
pub use receiver::Receiver;
pub use ring::{AnyMessage, MAX_RING_CAPACITY, new_ring};
pub use sender::Sender;
pub use stage::{Gate, OpenGate, StageDone, StageEnd, run_filter};
