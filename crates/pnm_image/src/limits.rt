//! The limits of images. All but that of the maxval are this project's own: no page of a format gives them. Code and
//! proofs name these numbers; only the law `laws::limits_are` repeats them.

/// The greatest width and the greatest height.
pub const MAX_SIDE: u32 = 16_777_216;

/// The greatest depth: samples in a pixel.
pub const MAX_DEPTH: u32 = 256;

/// The most samples in a row.
pub const MAX_ROW_LENGTH: u64 = 16_777_216;

/// The greatest maxval.
pub const MAX_MAXVAL: u32 = 65_535;

/// The longest tuple type, in bytes.
pub const MAX_TUPLE_TYPE_LENGTH: usize = 255;
