//! `pamcut`: a rectangle of the image, from pamcut(1).

ghost use Rattle.std.specs.Prelude.{◌↔◌, IsTrue, IfSome};
ghost use Rattle.pnm_tools.specs.Cut.{IsEdge, IsLawfulAxis};
ghost use Rattle.pnm_tools.specs.ToolLimits.{IsExtent};
ghost use Rattle.pnm_tools.specs.declared.tool.Tool.TheVariants.{Cut};

use crate::limits::{MAX_EXTENT, is_extent};

/// Columns or rows that are kept, from the first to the last.
#[derive(Clone, Copy)]
pub struct Span {
    /// The first one, from 0.
    pub first: u32,
    /// The last one.
    pub last: u32,
}

/// The part of an image to keep: its first and last column and row. Negative numbers count from the end: -1 is the
/// last. A width can replace one of `left` and `right`, and a height one of `top` and `bottom`.
#[derive(Clone, Copy, Debug, PartialEq, Eq)]
pub struct CutBox {
    /// The first column.
    pub left: Option<i32>,
    /// The last column.
    pub right: Option<i32>,
    /// The first row.
    pub top: Option<i32>,
    /// The last row.
    pub bottom: Option<i32>,
    /// The number of columns.
    pub width: Option<u32>,
    /// The number of rows.
    pub height: Option<u32>,
}

impl CutBox {
    ghost use Rattle.pnm_tools.specs.Cut.{IsLawfulBox};

    /// Returns true if each edge is from -`MAX_EXTENT` to `MAX_EXTENT`, each size is from 1 to `MAX_EXTENT`, and no
    /// axis has both edges and a size.
    pub(crate) fn is_lawful(&self) -> bool
        ensures { IsTrue result ↔ IsLawfulBox self.now }
    {
        is_lawful_axis(self.left, self.right, self.width)
            && is_lawful_axis(self.top, self.bottom, self.height)
    }
}

/// Returns whether these are options that may stand together, in their ranges: of columns, or of rows.
fn is_lawful_axis(start: Option<i32>, end: Option<i32>, size: Option<u32>) -> bool
    ensures { IsTrue result ↔ IsLawfulAxis start end size }
{
    let all = start.is_some() && end.is_some() && size.is_some();
    !all && is_edge(start) && is_edge(end) && is_size(size)
}

/// Returns whether the edge, if there is one, is in its range.
fn is_edge(edge: Option<i32>) -> bool
    ensures { IsTrue result ↔ IfSome edge IsEdge }
{
    match edge {
        Some(edge) => edge.unsigned_abs() <= MAX_EXTENT,
        None => true,
    }
}

/// Returns whether the size, if there is one, is in its range.
fn is_size(size: Option<u32>) -> bool
    ensures { IsTrue result ↔ IfSome size IsExtent }
{
    match size {
        Some(size) => is_extent(size),
        None => true,
    }
}
