//! What a run answers and writes; and a run in one thread, over any filters: it reads images, passes them through the
//! filters and writes the results.
#![tactic(auto)]

mod buffers;
mod fault;
mod fused_sink;
pub mod laws;
mod passing;
mod serial;
mod summary;

pub use buffers::Buffers;
pub use fault::RunFault;
pub use fused_sink::FusedSink;
pub use serial::run_filters;
pub use summary::Summary;
