//! The filters of a chain: each is a tool at work, which takes the messages of images and gives the messages of its
//! results.
#![tactic(auto)]

mod any_tool;
mod give;
mod head;
mod pending;
mod row_state;
mod state;
mod take;
mod tool_methods;
mod tool_state;

pub use head::result_head;
pub use row_state::{RowState, RowWise, row_filter_of, start_rows};
pub use tool_methods::StartTool;
pub use tool_state::{ToolState, filter_of, start_tool};
