//! A sample of a row, of either width.

ghost use Rattle.std.specs.Prelude.{◌≡◌, ◌≤◌, ◌-◌, ℕ};

/// A sample that is held as a byte or as a word, for the loops that calculate with samples. Code that only moves
/// samples needs `Copy` alone.
pub trait Sample: Copy {
    /// The number that it is.
    ghost value: { Self → ℕ };

    /// Returns the maxval minus the sample.
    fn taken_from(self, maxval: Self) -> Self
        requires { value self ≤ value maxval }
        ensures { value result ≡ value maxval - value self };
}

impl Sample for u16 {
    ghost value = { λ sample. sample };

    fn taken_from(self, maxval: u16) -> u16 {
        maxval - self
    }
}

impl Sample for u8 {
    ghost value = { λ sample. sample };

    fn taken_from(self, maxval: u8) -> u8 {
        maxval - self
    }
}
