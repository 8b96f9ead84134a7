//! Lanes: the rows of each image are dealt to several threads, and the rows that these make are gathered.
#![tactic(auto)]

mod agreement;
mod around;
mod dealing;
mod drain;
mod gathering;
mod held;
mod lane;
mod lane_rings;
pub mod laws;
mod merging;
mod next;
mod together;

pub use around::{OuterRingEnds, deal_and_gather};
pub use dealing::{DealDone, deal, dealt_height};
pub use gathering::{GatherDone, gather};
pub use lane::MAX_LANES;
pub use lane_rings::{LaneRingEnds, LaneRings};
pub use merging::{LanesDone, merged};
