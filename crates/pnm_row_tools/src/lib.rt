//! Tools at work that make each row of the result from one row of the image: pnminvert(1), pamcut(1), pamdepth(1),
//! pamchannel(1), and pamflip(1) if rows stay rows.
#![tactic(auto)]

mod by_row;
mod change;
mod channel;
mod cut;
mod depth;
mod flip;
mod invert;
mod row_tool;
mod sample_tool;
mod samplewise;
mod widths;

pub use by_row::ByRow;
pub use channel::picked_head;
pub use cut::Cutter;
pub use depth::{Rescaler, rescaled_head};
pub use flip::{RowFlipper, RowReverser};
pub use invert::Inverter;
pub use row_tool::RowTool;
pub use sample_tool::SampleTool;
pub use samplewise::{Samplewise, Table};
