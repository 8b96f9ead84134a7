//! What is wrong with an input.

use thiserror::Error;

/// What is wrong with an input. The text of each variant is its name.
#[derive(Clone, Copy, Debug, PartialEq, Eq, Error)]
pub enum InputFault {
    /// There is no byte.
    #[error("EmptyInput")]
    EmptyInput,
    /// An image doesn't begin with one of the magics `P1` to `P7`, or a byte that isn't `P` follows a
    /// raw image.
    #[error("BadMagic")]
    BadMagic,
    /// The input ends in a header.
    #[error("HeaderCut")]
    HeaderCut,
    /// A header, a tuple type, or the bytes of a plain raster without the end of a sample are longer than the limits.
    #[error("TooLong")]
    TooLong,
    /// A byte of a PBM, PGM or PPM header outside comments is neither a digit nor white space, or the
    /// first after the magic is neither white space nor `#`; or a number of a PAM header isn't decimal.
    #[error("BadNumber")]
    BadNumber,
    /// The width, the height or the depth is 0.
    #[error("ZeroSize")]
    ZeroSize,
    /// The width, the height, the depth, or the samples of a row are beyond the limits.
    #[error("TooLarge")]
    TooLarge,
    /// The maxval is 0 or beyond the limits.
    #[error("BadMaxval")]
    BadMaxval,
    /// A line of a PAM header begins with an unknown name or lacks its number, or the byte after `P7` isn't LF.
    #[error("BadPamLine")]
    BadPamLine,
    /// A number of a PAM header is there twice.
    #[error("DuplicateField")]
    DuplicateField,
    /// A number of a PAM header is missing.
    #[error("MissingField")]
    MissingField,
    /// The input ends in a raster.
    #[error("RasterCut")]
    RasterCut,
    /// A sample is above the maxval.
    #[error("SampleAboveMaxval")]
    SampleAboveMaxval,
    /// A byte of a plain raster outside comments is neither a digit (for PBM `0` or `1`) nor white
    /// space, or the one after the last sample is neither white space nor `#`.
    #[error("BadSample")]
    BadSample,
    /// A plain image comes after another image.
    #[error("PlainInStream")]
    PlainInStream,
    /// The reader failed.
    #[error("ReadFailed")]
    ReadFailed,
    /// Memory ran out.
    #[error("Memory")]
    Memory,
}
