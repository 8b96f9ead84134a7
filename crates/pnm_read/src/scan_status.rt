//! A scanner's judgement of a byte.

use crate::fault::InputFault;

/// A scanner's judgement of a byte of a header or a plain raster.
#[derive(Clone, Copy, PartialEq, Eq)]
pub enum ScanStatus {
    /// The byte belongs to the piece, which goes on.
    GoesOn,
    /// The piece ends with the byte.
    EndsWith,
    /// The piece has ended before the byte.
    EndsBefore,
    /// The byte is at fault.
    Fails(InputFault),
}
