//! The caller's side of a run over threads: what it sends to the first tool, what it takes from the last one, and the
//! loop in which it does both.
#![tactic(auto)]

mod egress;
mod image_count;
mod ingress;
mod io_loop;

pub use egress::Egress;
pub use ingress::Ingress;
pub use io_loop::IoLoop;
