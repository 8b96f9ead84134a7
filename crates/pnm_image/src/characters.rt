//! The bytes of a text: white space and digits.

ghost use Rattle.std.specs.Prelude.{◌≡◌};
ghost use Rattle.pnm_image.specs.Texts.{is_white, is_blank, is_digit};

/// Returns whether the byte is a blank, a TAB, a CR or an LF.
pub fn is_white(byte: u8) -> bool
    ensures { result ≡ is_white byte }
{
    is_blank(byte) || byte == b'\n'
}

/// Returns whether the byte is a blank, a TAB or a CR: white space that a line can hold.
pub fn is_blank(byte: u8) -> bool
    ensures { result ≡ is_blank byte }
{
    byte == b' ' || byte == b'\t' || byte == b'\r'
}

/// Returns whether the byte is one of `0` to `9`.
pub fn is_digit(byte: u8) -> bool
    ensures { result ≡ is_digit byte }
{
    byte.is_ascii_digit()
}
