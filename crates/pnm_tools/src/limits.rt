//! The limits of options, of results and of chains.

ghost use Rattle.std.specs.Prelude.{◌↔◌, IsTrue};
ghost use Rattle.pnm_tools.specs.ToolLimits.{IsExtent};

/// The greatest number of columns or rows that an option of a tool can name.
pub const MAX_EXTENT: u32 = 16_777_216;

/// The maximum number of tools in a chain.
pub const MAX_TOOLS: usize = 64;

/// Returns true if `count`, a factor or a number of columns or rows, is from 1 to `MAX_EXTENT`.
pub(crate) fn is_extent(count: u32) -> bool
    ensures { IsTrue result ↔ IsExtent count }
{
    1 <= count && count <= MAX_EXTENT
}
