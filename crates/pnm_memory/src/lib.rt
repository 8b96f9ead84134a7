//! Runs over images in memory: the input is a slice, and what is written goes into a vector or into the caller's room.
//! The outcome of a run is given by numbers that never change, so that programs in other languages can read it.
#![tactic(auto)]

mod answer;
mod chain;
mod codes;
mod conversion;
mod devices;
mod ends;
mod run;

pub use answer::Answer;
pub use chain::check;
pub use codes::WELL;
pub use conversion::{Converted, convert};
pub use ends::image_end;
pub use run::{Made, run_into, run_new};
