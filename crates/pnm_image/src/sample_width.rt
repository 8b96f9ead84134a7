//! How the samples of a raw row lie in its bytes.

ghost use Rattle.std.specs.Prelude.{◌≡◌};
ghost use Rattle.pnm_image.specs.SampleWidths.{sample_width_of};

use crate::shape::Kind;

/// How the samples of a raw row lie in its bytes, from pbm(5), pgm(5), ppm(5) and pam(5).
#[derive(Clone, Copy, Debug, PartialEq, Eq)]
pub enum SampleWidth {
    /// Eight pixels a byte, the most significant bit leftmost; 1 is black, which is sample 0.
    Bits,
    /// A byte a sample.
    Bytes,
    /// Two bytes a sample, the most significant first.
    Words,
}

impl SampleWidth {
    /// Returns the width of the samples of images of this kind and maxval.
    pub fn of(kind: Kind, maxval: u32) -> SampleWidth
        ensures { result ≡ sample_width_of kind maxval }
    {
        match kind {
            Kind::Bit => SampleWidth::Bits,
            Kind::Gray | Kind::Color | Kind::Pam if maxval < 256 => SampleWidth::Bytes,
            Kind::Gray | Kind::Color | Kind::Pam => SampleWidth::Words,
        }
    }
}
