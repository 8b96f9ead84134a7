//! Why a tool refused.

ghost use Rattle.std.specs.Prelude.{◌≡◌};
ghost use Rattle.pnm_tools.specs.declared.fault.ToolFault.TheVariants.{Memory};

use std::alloc::{AllocError, AllocFailed};
use thiserror::Error;

/// Why a tool refused a message or an image. The text of each variant is its name.
#[derive(Clone, Copy, Debug, PartialEq, Eq, Error)]
pub enum ToolFault {
    /// The part to keep doesn't lie wholly inside the image, or its first column or row lies behind its last.
    #[error("CutOutside")]
    CutOutside,
    /// The image lacks one of the planes to pick.
    #[error("ChannelOutside")]
    ChannelOutside,
    /// The result is beyond the limits.
    #[error("TooLarge")]
    TooLarge,
    /// The message can't come at this place in the stream; or `Filter::next` hasn't returned `None` since the message
    /// before it; or an image of height 0 begins, and the tool isn't row-wise.
    #[error("OutOfOrder")]
    OutOfOrder,
    /// Memory ran out.
    #[error("Memory")]
    Memory,
}

impl From<AllocError> for ToolFault {
    ghost from_gives = { λ _ fault. fault ≡ Memory };

    fn from(_error: AllocError) -> ToolFault {
        ToolFault::Memory
    }
}

impl<T: Drop> From<AllocFailed<T>> for ToolFault {
    ghost from_gives = { λ _ fault. fault ≡ Memory };

    fn from(_error: AllocFailed<T>) -> ToolFault {
        ToolFault::Memory
    }
}
