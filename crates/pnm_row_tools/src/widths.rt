//! The widths of samples that the loops over them know.

ghost use Rattle.std.specs.Prelude.{ℕ, ◌≡◌, ◌≤◌};

/// A sample in the width that holds it: a byte or a word.
pub(crate) trait Width: Copy {
    /// The number that the sample is.
    ghost value: { Self → ℕ };

    /// The greatest number that this width holds.
    ghost greatest: { ℕ };

    /// Returns the number that the sample is.
    fn number(self) -> u16
        ensures { result ≡ value self };

    /// Returns the number as a sample of this width.
    fn of_number(number: u16) -> Self
        requires { number ≤ greatest }
        ensures { value result ≡ number };
}

impl Width for u8 {
    ghost value = { λ sample. sample };

    ghost greatest = { 255 };

    #[inline(always)]
    fn number(self) -> u16 {
        u16::from(self)
    }

    #[inline(always)]
    fn of_number(number: u16) -> u8 {
        number as u8
    }
}

impl Width for u16 {
    ghost value = { λ sample. sample };

    ghost greatest = { 65535 };

    #[inline(always)]
    fn number(self) -> u16 {
        self
    }

    #[inline(always)]
    fn of_number(number: u16) -> u16 {
        number
    }
}
