//! What a tool does with images, as methods of the tool.

ghost use Rattle.std.specs.Prelude.{◌≡◌, ◌⊎◌, true, IfOk, IfErr, Ok, Err};
ghost use Rattle.pnm_tools.specs.declared.fault.ToolFault.TheVariants.{Memory};
ghost use Rattle.pnm_tools.specs.declared.tool.Tool.{Tool as ToolValue};
ghost use Rattle.pnm_filters.specs.RowStates.{IsFreshLane};
ghost use Rattle.pnm_filters.specs.AnyTools.{IsFreshTool};
ghost use Rattle.pnm_tools.specs.Tools.{IsLawfulTool, TakesHead, is_row_wise, result_head};

use crate::head::result_head;
use crate::row_state::{RowState, start_rows};
use crate::tool_state::{ToolState, start_tool};
use pnm_image::Head;
use pnm_tools::{Tool, ToolFault};
use std::alloc::Global;

/// What a tool does with images: the head of its result, and the tool at work.
pub trait StartTool {
    /// The tool and its options.
    ghost tool: { Self → ToolValue };

    /// Returns the head of the result of an image with this head, as `result_head` does.
    fn head(&self, alloc: Global, head: &Head) -> Result<Head, ToolFault>
        requires { IsLawfulTool (tool self.now) }
        ensures made { IfOk result (λ made. result_head (tool self.now) head.now ≡ Ok made) }
        ensures refused { IfErr result (λ fault. (result_head (tool self.now) head.now ≡ Err fault)
            ⊎ ((fault ≡ Memory) × TakesHead (tool self.now) head.now)) };

    /// Returns the tool at work, before the first message. The only fault is `Memory`.
    fn start(&self, alloc: Global) -> Result<ToolState, ToolFault>
        requires { IsLawfulTool (tool self.now) }
        ensures started { IfOk result (λ state. IsFreshTool state (tool self.now)) }
        ensures refused { IfErr result (λ fault. fault ≡ Memory) };

    /// Returns the row-wise tool at work on the messages of a lane, before the first message. The only fault is
    /// `Memory`.
    fn start_rows(&self, alloc: Global) -> Result<RowState, ToolFault>
        requires lawful { IsLawfulTool (tool self.now) }
        requires row_wise { is_row_wise (tool self.now) ≡ true }
        ensures started { IfOk result (λ state. IsFreshLane state (tool self.now)) }
        ensures refused { IfErr result (λ fault. fault ≡ Memory) };
}

impl StartTool for Tool {
    ghost tool = { λ tool. tool };

    fn head(&self, alloc: Global, head: &Head) -> Result<Head, ToolFault> {
        result_head(alloc, self, head)
    }

    fn start(&self, alloc: Global) -> Result<ToolState, ToolFault> {
        start_tool(alloc, self)
    }

    fn start_rows(&self, alloc: Global) -> Result<RowState, ToolFault> {
        start_rows(alloc, self)
    }
}
