//! Tools at work that repeat pixels, rows or the image: pamenlarge(1) and pnmtile(1).
#![tactic(auto)]

mod enlarge;
mod kept_rows;
mod larger;
mod repeat;
mod tile;
mod waiting_rows;

pub use enlarge::Enlarger;
pub use tile::Tiler;
