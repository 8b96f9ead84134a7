//! The seven formats that a magic names.

ghost use Rattle.std.specs.Prelude.{◌≡◌};
ghost use Rattle.pnm_image.specs.Formats.{format_of, is_plain_form, magic_of};

use crate::shape::Kind;

/// How the samples of an image are written.
#[derive(Clone, Copy, Debug, PartialEq, Eq)]
pub enum Form {
    /// As bytes.
    Raw,
    /// As numbers in decimal, and pixels of PBM as the characters `0` and `1`.
    Plain,
}

/// One of the formats `P1` to `P7` of pbm(5), pgm(5), ppm(5) and pam(5), as `Format::of` gives them: PAM is
/// never plain.
#[derive(Clone, Copy, Debug, PartialEq, Eq)]
pub struct Format {
    /// The kind of its images.
    pub kind: Kind,
    /// How their samples are written.
    pub form: Form,
}

impl Format {
    /// Returns the format that the second byte of a magic names, or `None` if it names none.
    pub fn of(byte: u8) -> Option<Format>
        ensures { result ≡ format_of byte }
    {
        let (kind, form) = match byte {
            b'1' => (Kind::Bit, Form::Plain),
            b'2' => (Kind::Gray, Form::Plain),
            b'3' => (Kind::Color, Form::Plain),
            b'4' => (Kind::Bit, Form::Raw),
            b'5' => (Kind::Gray, Form::Raw),
            b'6' => (Kind::Color, Form::Raw),
            b'7' => (Kind::Pam, Form::Raw),
            _ => return None,
        };
        Some(Format { kind, form })
    }

    /// Returns whether samples are written as text.
    pub fn is_plain(self) -> bool
        ensures { result ≡ is_plain_form self.form }
    {
        match self.form {
            Form::Raw => false,
            Form::Plain => true,
        }
    }

    /// Returns the two bytes that an image of this format begins with. As there is no plain PAM, its magic is that of
    /// PAM.
    pub fn magic(self) -> &'static [u8]
        ensures { result.now ≡ magic_of self.kind self.form }
    {
        match (self.kind, self.form) {
            (Kind::Bit, Form::Plain) => b"P1",
            (Kind::Gray, Form::Plain) => b"P2",
            (Kind::Color, Form::Plain) => b"P3",
            (Kind::Bit, Form::Raw) => b"P4",
            (Kind::Gray, Form::Raw) => b"P5",
            (Kind::Color, Form::Raw) => b"P6",
            (Kind::Pam, _) => b"P7",
        }
    }
}
