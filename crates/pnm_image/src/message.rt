//! The messages of a stream of images.

ghost use Rattle.std.specs.Prelude.{◌≡◌};
ghost use Rattle.pnm_image.specs.Messages.{ending_of};

use crate::head::Head;
use pnm_samples::Samples;

/// A part of a stream of images.
#[derive(Debug, Drop)]
pub enum Message {
    /// An image begins.
    Begin(Head),
    /// The next row of the image.
    Row(Samples),
    /// All rows of the image have passed.
    ImageEnd,
    /// No image follows.
    StreamEnd,
    /// The stream was broken off before this point.
    Stop,
}

/// How a message ends a stream: it doesn't, the stream is whole, or it was broken off.
#[derive(Clone, Copy, Debug, PartialEq, Eq)]
pub enum Ending {
    /// It begins an image, or is a row or an image's end.
    More,
    /// It is the end of the stream.
    Whole,
    /// It is Stop.
    BrokenOff,
}

impl Message {
    /// Returns how this message ends its stream.
    pub fn ending(&self) -> Ending
        ensures { result ≡ ending_of self.now }
    {
        match self {
            Message::Begin(_) | Message::Row(_) | Message::ImageEnd => Ending::More,
            Message::StreamEnd => Ending::Whole,
            Message::Stop => Ending::BrokenOff,
        }
    }
}
