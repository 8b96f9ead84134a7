//! The tools of a chain: what each of them makes of an image, its options, and the traits of a tool at work on rows and
//! of the filter that runs it. They are pnminvert(1), pamcut(1), pamdepth(1), pamchannel(1), pamenlarge(1), pamflip(1)
//! and pnmtile(1).
#![tactic(auto)]

mod buffer;
mod channel;
mod color;
mod cut;
mod fault;
mod filter;
mod flip;
mod fused_filter;
mod head;
mod image_tool;
pub mod laws;
mod limits;
mod together;
mod tool;
mod unfed;

pub use buffer::store;
pub use channel::Planes;
pub use color::color_at;
pub use cut::{CutBox, Span};
pub use fault::ToolFault;
pub use filter::Filter;
pub use flip::{FlipWay, Transform};
pub use fused_filter::FusedFilter;
pub use head::{flipped_head, head_within_limits};
pub use image_tool::ImageTool;
pub use limits::{MAX_EXTENT, MAX_TOOLS};
pub use together::count_together;
pub use tool::Tool;
pub use unfed::Unfed;
