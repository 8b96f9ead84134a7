//! The heads of results, as each tool makes them.

ghost use Rattle.std.specs.Prelude.{◌≡◌, ◌⊎◌, IfOk, IfErr, Ok, Err};
ghost use Rattle.pnm_tools.specs.declared.fault.ToolFault.TheVariants.{Memory};
ghost use Rattle.pnm_tools.specs.Tools.{IsLawfulTool, TakesHead, result_head};

use pnm_image::Head;
use pnm_repeat_tools::{Enlarger, Tiler};
use pnm_row_tools::{Cutter, Inverter, RowTool, SampleTool, picked_head, rescaled_head};
use pnm_tools::{ImageTool, Tool, ToolFault, flipped_head};
use std::alloc::Global;

/// Returns the head of the result of an image with this head, or the first of these faults: `OutOfOrder` if the height
/// is 0 and the tool isn't row-wise, `CutOutside` or `ChannelOutside`, `TooLarge`, `Memory`.
pub fn result_head(alloc: Global, tool: &Tool, head: &Head) -> Result<Head, ToolFault>
    requires { IsLawfulTool tool.now }
    ensures made { IfOk result (λ made. result_head tool.now head.now ≡ Ok made) }
    ensures refused { IfErr result (λ fault. (result_head tool.now head.now ≡ Err fault)
        ⊎ ((fault ≡ Memory) × TakesHead tool.now head.now)) }
{
    match tool {
        Tool::Invert => Inverter.head(alloc, head),
        Tool::Cut(cut) => Cutter::new(*cut).begin(alloc, head),
        Tool::Depth(maxval) => rescaled_head(alloc, *maxval, head),
        Tool::Channel(planes) => picked_head(alloc, planes, head),
        Tool::Enlarge(across, down) => Enlarger::new(*across, *down).begin(alloc, head),
        Tool::Flip(way) => flipped_head(alloc, *way, head),
        Tool::Tile(width, height) => Tiler::new(alloc, *width, *height).begin(alloc, head),
    }
}
