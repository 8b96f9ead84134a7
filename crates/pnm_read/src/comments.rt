//! Comments in a header or a plain raster, from pbm(5), 'The layout'.

ghost use Rattle.std.specs.Prelude.{◌≡◌};
ghost use Rattle.pnm_read.specs.HeaderTexts.{is_apart, commented};

use pnm_image::characters::is_white;

/// Returns whether the byte is white space or begins a comment.
pub fn is_apart(byte: u8) -> bool
    ensures { result ≡ is_apart byte }
{
    is_white(byte) || byte == b'#'
}

/// Returns whether what follows the byte is inside a comment; `inside` says whether the byte itself is. A comment goes
/// from a `#` through the next CR or LF.
pub fn commented(inside: bool, byte: u8) -> bool
    ensures { result ≡ commented inside byte }
{
    if inside {
        byte != b'\r' && byte != b'\n'
    } else {
        byte == b'#'
    }
}
