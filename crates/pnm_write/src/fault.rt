//! Why a message wasn't written.

use thiserror::Error;

/// Why a message wasn't written. The text of each variant is its name.
#[derive(Clone, Copy, Debug, PartialEq, Eq, Error)]
pub enum SinkFault {
    /// The writer failed. A prefix of the message's bytes was written.
    #[error("WriteFailed")]
    WriteFailed,
    /// The message can't come at this place of a stream, or it begins an image of height 0.
    /// Nothing was written.
    #[error("OutOfOrder")]
    OutOfOrder,
    /// There was a fault before. Nothing was written.
    #[error("Broken")]
    Broken,
    /// In plain form, the message begins a second image, and a plain file holds one. Nothing was
    /// written.
    #[error("SecondPlain")]
    SecondPlain,
    /// In plain form, the message begins a PAM image, and there is no plain PAM. Nothing was
    /// written.
    #[error("PlainPam")]
    PlainPam,
}
