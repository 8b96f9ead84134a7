//! Laws of texts. Each is about the definitions alone, as the contract of a function that does nothing.

ghost use Rattle.pnm_read.specs.Examples.{TextExamplesHold};
ghost use Rattle.pnm_read.specs.TextLaws.{SpelledIsSaid, SaidIsSpelled, SpelledAreSaid, SpelledAreImages};
ghost use Rattle.pnm_read.specs.TextLaws.{OneStreamOrOneFault};
ghost use Rattle.pnm_read.specs.TextLaws.{SaidBeforeFaultIsSpelled, SaidIsLawful, SaidAreMessages};
ghost use Rattle.pnm_read.specs.TextLaws.{EndIsSaidWithoutFault, FaultsAreOfTexts};
ghost use Rattle.pnm_read.specs.ImageSizes.{FirstImageStandsAlone};
ghost use Rattle.pnm_read.specs.declared.decimal.TheConstants.{GAP_LIMIT};
ghost use Rattle.pnm_read.specs.declared.header.TheConstants.{MAX_HEADER_LENGTH};
ghost use Rattle.std.specs.Prelude.{◌≡◌};

/// What is said of a text that spells images is the messages of these images, without a fault.
pub fn spelled_is_said()
    ensures { SpelledIsSaid }
{}

/// A text without a fault spells the images whose messages are said of it.
pub fn said_is_spelled()
    ensures { SaidIsSpelled }
{}

/// A text spells exactly the images that are said of it.
pub fn spelled_are_said()
    ensures { SpelledAreSaid }
{}

/// The images that a text spells are images.
pub fn spelled_are_images()
    ensures { SpelledAreImages }
{}

/// A text spells exactly one list of images and has no fault, or spells none and has a fault.
pub fn one_stream_or_one_fault()
    ensures { OneStreamOrOneFault }
{}

/// What is said of a text before its fault is spelled: the images that ended, by a prefix of the text;
/// and then, by the rest, nothing, or the header of an image and its first rows, as many as there are.
pub fn what_is_said_before_a_fault_is_spelled()
    ensures { SaidBeforeFaultIsSpelled }
{}

/// What is said of a text that begins with a raw image is what is said of the image alone, as many bytes as its header
/// and its raster have; and then, if that has no fault, what is said of what follows it.
pub fn first_image_stands_alone()
    ensures { FirstImageStandsAlone }
{}

/// What is said of any text, also before a fault, may come in turn, and each head in it keeps the
/// rules of heads.
pub fn said_is_lawful()
    ensures lawful { SaidIsLawful }
    ensures messages { SaidAreMessages }
{}

/// The end of the stream is said of a text exactly if the text has no fault.
pub fn end_is_said_without_fault()
    ensures { EndIsSaidWithoutFault }
{}

/// The fault of a text is never one from outside: neither a failed read nor memory that ran out.
pub fn faults_are_of_texts()
    ensures { FaultsAreOfTexts }
{}

/// What the definitions make of small texts.
pub fn examples_hold()
    ensures { TextExamplesHold }
{}

/// The limits of texts in numbers: that of headers, and that of plain rasters, from the end of one sample through that
/// of the next. The definitions take them from the code by their names.
pub fn limits_are()
    ensures header { MAX_HEADER_LENGTH ≡ 65536 }
    ensures gap { GAP_LIMIT ≡ 1048576 }
{}
