//! The kind, the sizes and the maxval of an image.

ghost use Rattle.std.specs.Prelude.{◌≡◌};
ghost use Rattle.pnm_image.specs.Heads.{row_length, shape_fault};

use crate::head::HeadFault;
use crate::limits::{MAX_DEPTH, MAX_MAXVAL, MAX_ROW_LENGTH, MAX_SIDE};

/// The format of an image, from pbm(5), pgm(5), ppm(5) and pam(5).
#[derive(Clone, Copy, Debug, PartialEq, Eq)]
pub enum Kind {
    /// PBM: one plane, of samples 0 (black) and 1 (white).
    Bit,
    /// PGM: one plane.
    Gray,
    /// PPM: the planes red, green and blue.
    Color,
    /// PAM: any planes, with a tuple type.
    Pam,
}

/// What an image's samples are, and how many there are.
#[derive(Clone, Copy, Debug, PartialEq, Eq)]
pub struct Shape {
    /// The format.
    pub kind: Kind,
    /// Columns.
    pub width: u32,
    /// Rows.
    pub height: u32,
    /// Samples in a pixel.
    pub depth: u32,
    /// The greatest sample.
    pub maxval: u32,
}

impl Shape {
    /// Returns the number of samples in a row: the width times the depth.
    pub fn row_length(&self) -> u64
        ensures { result ≡ row_length self.now }
    {
        u64::from(self.width) * u64::from(self.depth)
    }

    /// Returns the first fault of a new head's numbers, in the order of `HeadFault`.
    pub(crate) fn fault(&self) -> Option<HeadFault>
        ensures { result ≡ shape_fault self.now }
    {
        if self.width == 0 || self.height == 0 || self.depth == 0 {
            return Some(HeadFault::ZeroSize);
        }
        if self.width > MAX_SIDE
            || self.height > MAX_SIDE
            || self.depth > MAX_DEPTH
            || self.row_length() > MAX_ROW_LENGTH
        {
            return Some(HeadFault::TooLarge);
        }
        if self.maxval == 0 || self.maxval > MAX_MAXVAL {
            return Some(HeadFault::BadMaxval);
        }
        None
    }
}
