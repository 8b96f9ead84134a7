//! `pamflip`: an image flipped or turned, from pamflip(1). Each way is a rule: it may reverse the order of the columns
//! and that of the rows, and then it may exchange columns and rows.

ghost use Rattle.std.specs.Prelude.{◌≡◌, true, false};
ghost use Rattle.pnm_tools.specs.Flip.{moves_rows, transform_of};

/// How an image is flipped.
#[derive(Clone, Copy, Debug, PartialEq, Eq)]
pub enum FlipWay {
    /// Not at all.
    Null,
    /// The order of the columns is reversed.
    LeftRight,
    /// The order of the rows is reversed.
    TopBottom,
    /// Columns become rows, and rows columns.
    Transpose,
    /// A quarter turn counterclockwise: the last column becomes the first row.
    Rotate90,
    /// A half turn: the last row becomes the first one, its last pixel first.
    Rotate180,
    /// A quarter turn clockwise: the first column becomes the first row, its last pixel first.
    Rotate270,
}

/// A way to flip, as a rule: its steps, in the order in which they apply.
#[derive(Clone, Copy)]
pub struct Transform {
    /// Whether the order of the columns is reversed.
    pub columns_reversed: bool,
    /// Whether the order of the rows is reversed.
    pub rows_reversed: bool,
    /// Whether columns become rows, and rows columns.
    pub exchanged: bool,
}

impl FlipWay {
    /// Returns the way as a rule.
    pub fn transform(self) -> Transform
        ensures { result ≡ transform_of self }
    {
        let (columns_reversed, rows_reversed, exchanged) = match self {
            FlipWay::Null => (false, false, false),
            FlipWay::LeftRight => (true, false, false),
            FlipWay::TopBottom => (false, true, false),
            FlipWay::Transpose => (false, false, true),
            FlipWay::Rotate90 => (true, false, true),
            FlipWay::Rotate180 => (true, true, false),
            FlipWay::Rotate270 => (false, true, true),
        };
        Transform {
            columns_reversed,
            rows_reversed,
            exchanged,
        }
    }
}

impl Transform {
    /// Returns true if rows don't stay in their places.
    pub(crate) fn moves_rows(self) -> bool
        ensures { result ≡ moves_rows self }
    {
        self.exchanged || self.rows_reversed
    }
}
