//! The tools.

ghost use Rattle.std.specs.Prelude.{◌≡◌, ◌↔◌, IsTrue, true, IfOk, IfErr, Ok};
ghost use Rattle.pnm_tools.specs.declared.fault.ToolFault.TheVariants.{Memory};
ghost use Rattle.pnm_tools.specs.declared.tool.Tool.TheVariants.{Flip};
ghost use Rattle.pnm_tools.specs.Tools.{IsLawfulTool, is_row_wise};

use crate::channel::Planes;
use crate::cut::CutBox;
use crate::fault::ToolFault;
use crate::flip::FlipWay;
use crate::limits::is_extent;
use pnm_image::limits::MAX_MAXVAL;
use std::alloc::Global;

/// A tool and its options.
#[derive(Debug, Drop)]
pub enum Tool {
    /// `pnminvert`: black becomes white and white black.
    Invert,
    /// `pamcut`: a rectangle of the image.
    Cut(CutBox),
    /// `pamdepth`: the image with this maxval.
    Depth(u32),
    /// `pamchannel`: these planes of the image.
    Channel(Planes),
    /// `pamenlarge`: each pixel repeated by the first factor across and by the second down.
    Enlarge(u32, u32),
    /// `pamflip`: the image flipped this way.
    Flip(FlipWay),
    /// `pnmtile`: copies of the image side by side that fill a width in columns and a height in rows.
    Tile(u32, u32),
}

impl Tool {
    /// Returns true if the options are in their ranges: `Cut` has edges from -`MAX_EXTENT` to `MAX_EXTENT` and sizes
    /// from 1 to `MAX_EXTENT`, but not both edges and a size of one axis; `Depth` has 1 to `MAX_MAXVAL`; `Channel` has
    /// 1 to `MAX_DEPTH` numbers, each below `MAX_DEPTH`, and a tuple type that PAM allows; both numbers of `Enlarge`
    /// and of `Tile` are from 1 to `MAX_EXTENT`.
    pub fn is_lawful(&self) -> bool
        ensures { IsTrue result ↔ IsLawfulTool self.now }
    {
        match self {
            Tool::Invert => true,
            Tool::Cut(cut) => cut.is_lawful(),
            Tool::Depth(maxval) => 1 <= *maxval && *maxval <= MAX_MAXVAL,
            Tool::Channel(planes) => planes.is_lawful(),
            Tool::Enlarge(across, down) => is_extent(*across) && is_extent(*down),
            Tool::Flip(_) => true,
            Tool::Tile(width, height) => is_extent(*width) && is_extent(*height),
        }
    }

    /// Copies the tool. The only fault is `Memory`.
    pub fn copy(&self, _alloc: Global) -> Result<Tool, ToolFault>
        ensures equal { IfOk result (λ tool. tool ≡ self.now) }
        ensures refused { IfErr result (λ fault. fault ≡ Memory) }
    {
        Ok(match self {
            Tool::Invert => Tool::Invert,
            Tool::Cut(cut) => Tool::Cut(*cut),
            Tool::Depth(maxval) => Tool::Depth(*maxval),
            Tool::Channel(planes) => Tool::Channel(planes.copy()?),
            Tool::Enlarge(across, down) => Tool::Enlarge(*across, *down),
            Tool::Flip(way) => Tool::Flip(*way),
            Tool::Tile(width, height) => Tool::Tile(*width, *height),
        })
    }

    /// Returns true if the rows of an image may be dealt to several copies of this tool, each of which sees an image of
    /// its own. That is so for `Invert`, `Depth`, `Channel`, `Enlarge` by 1 down, and `Flip` if rows stay in their
    /// places, and for no other tool.
    pub fn is_row_wise(&self) -> bool
        ensures { result ≡ is_row_wise self.now }
    {
        match self {
            Tool::Invert | Tool::Depth(_) | Tool::Channel(_) => true,
            Tool::Enlarge(_, down) => *down == 1,
            Tool::Flip(way) => !way.transform().moves_rows(),
            Tool::Cut(_) | Tool::Tile(_, _) => false,
        }
    }
}
