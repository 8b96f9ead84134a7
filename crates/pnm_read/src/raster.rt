//! How far a raster was read.

ghost use Rattle.std.specs.Prelude.{◌≡◌, ◌≤◌, ◌+◌, ◌-◌, ◌*◌, ◌^◌, min};
ghost use Rattle.pnm_image.specs.declared.limits.TheConstants.{MAX_MAXVAL, MAX_SIDE};
ghost use Rattle.pnm_image.specs.declared.sample_width.SampleWidth.TheVariants.{Words};
ghost use Rattle.pnm_image.specs.SampleWidths.{sample_width_of};
ghost use Rattle.pnm_read.specs.Said.{units_in_row};

use crate::units::units_in_row;
use pnm_image::{Format, SampleWidth, Shape};

/// A raster of which `y` rows have passed.
#[derive(Clone, Copy)]
pub struct Raster {
    pub format: Format,
    pub shape: Shape,
    pub y: u32,
    /// How the samples of its rows lie in their bytes, if it is raw, and how many units a row has.
    pub sample_width: SampleWidth,
    pub units: usize,
    ghost within: { y ≤ shape.height },
    ghost width: { shape.width ≤ MAX_SIDE },
    ghost maxval: { shape.maxval ≤ MAX_MAXVAL },
    ghost samples: { sample_width ≡ sample_width_of shape.kind shape.maxval },
    ghost count: { units ≡ units_in_row sample_width shape },
}

impl Raster {
    /// Creates a raster of which no row has passed.
    pub fn new(format: Format, shape: Shape) -> Raster
        requires width { shape.width ≤ MAX_SIDE }
        requires maxval { shape.maxval ≤ MAX_MAXVAL }
        ensures format { result.format ≡ format }
        ensures shape { result.shape ≡ shape }
        ensures y { result.y ≡ 0 }
    {
        let sample_width = SampleWidth::of(shape.kind, shape.maxval);
        Raster {
            format,
            shape,
            y: 0,
            sample_width,
            units: units_in_row(sample_width, shape),
        }
    }

    /// Returns how many bytes a row takes, if the raster is raw.
    pub fn row_bytes(&self) -> usize
        ensures narrow { (self.now.sample_width ≡ Words → ⊥) → result ≡ self.now.units }
        ensures wide { self.now.sample_width ≡ Words → result ≡ min (self.now.units * 2) (2 ^ 64 - 1) }
    {
        match self.sample_width {
            SampleWidth::Bits | SampleWidth::Bytes => self.units,
            SampleWidth::Words => self.units.saturating_mul(2),
        }
    }

    /// Returns the raster after `count` more rows.
    pub fn after_rows(self, count: u32) -> Raster
        requires { count ≤ self.shape.height - self.y }
        ensures format { result.format ≡ self.format }
        ensures shape { result.shape ≡ self.shape }
        ensures y { result.y ≡ self.y + count }
    {
        Raster {
            format: self.format,
            shape: self.shape,
            y: self.y + count,
            sample_width: self.sample_width,
            units: self.units,
        }
    }
}
