//! Laws of lists of messages. Each is about the definitions alone, as the contract of a function that does nothing.

ghost use Rattle.pnm_image.specs.Completion.{LawfulListsAreStreams, StreamsAreLawful, LawfulListsCanBeCompleted};
ghost use Rattle.pnm_image.specs.declared.limits.TheConstants.{MAX_DEPTH, MAX_MAXVAL, MAX_ROW_LENGTH, MAX_SIDE};
ghost use Rattle.pnm_image.specs.declared.limits.TheConstants.{MAX_TUPLE_TYPE_LENGTH};
ghost use Rattle.std.specs.Prelude.{◌≡◌};

/// A lawful list of messages that ends the stream is the messages of exactly one list of images.
pub fn lawful_lists_are_streams()
    ensures { LawfulListsAreStreams }
{}

/// The messages of a list of images are a lawful list that ends the stream.
pub fn streams_are_lawful()
    ensures { StreamsAreLawful }
{}

/// Every lawful list of messages can be completed to the messages of a list of images.
pub fn lawful_lists_can_be_completed()
    ensures { LawfulListsCanBeCompleted }
{}

/// The limits of images in numbers. The definitions take them from the code by their names.
pub fn limits_are()
    ensures side { MAX_SIDE ≡ 16777216 }
    ensures depth { MAX_DEPTH ≡ 256 }
    ensures row_length { MAX_ROW_LENGTH ≡ 16777216 }
    ensures maxval { MAX_MAXVAL ≡ 65535 }
    ensures tuple_type_length { MAX_TUPLE_TYPE_LENGTH ≡ 255 }
{}
