//! The pixels of a plain row of PBM: a character each, and 35 a line.

ghost use Rattle.std.specs.Prelude.{◌≡◌, ◌+◌, ◌*◌, ◌<◌, ◌≤◌, ◌++◌, length, take};
ghost use Rattle.pnm_samples.specs.Pixels.{pixels, all_pixels};
ghost use Rattle.pnm_image.specs.declared.shape.Kind.{Kind};
ghost use Rattle.pnm_write.specs.PlainRows.{plain_row_text};
ghost use Rattle.pnm_write.specs.Internal.PixelCells.{cells, nibble_cells};

use crate::numerals::put_four;

/// How many pixels a line has: each takes a character, and a blank or the LF after it.
const LINE: usize = 35;

/// The characters of every four bits, with a blank after each character.
const NIBBLES: &[u8; 128] = b"\
    0 0 0 0 0 0 0 1 0 0 1 0 0 0 1 1 0 1 0 0 0 1 0 1 0 1 1 0 0 1 1 1 \
    1 0 0 0 1 0 0 1 1 0 1 0 1 0 1 1 1 1 0 0 1 1 0 1 1 1 1 0 1 1 1 1 \
";

/// Returns the characters of four pixels.
#[inline(always)]
fn nibble(bits: usize) -> &'static [u8]
    requires { bits < 16 }
    ensures { result.now ≡ nibble_cells bits }
{
    let nibbles = &NIBBLES[..];
    &nibbles[8 * bits..8 * bits + 8]
}

/// Puts the characters of four pixels into the buffer.
#[inline(always)]
fn put_nibble(buffer: &mut [u8], at: usize, bits: usize)
    requires buffer { at + 8 ≤ length buffer.old }
    requires range { bits < 16 }
    ensures { take (at + 8) buffer.new ≡ take at buffer.old ++ nibble_cells bits }
{
    let cells = nibble(bits);
    put_four(buffer, at, cells);
    put_four(buffer, at + 4, &cells[4..]);
}

/// Puts the characters of a byte's pixels into the buffer.
#[inline(always)]
fn put_byte(buffer: &mut [u8], at: usize, byte: u8)
    requires { at + 16 ≤ length buffer.old }
    ensures { take (at + 16) buffer.new ≡ take at buffer.old ++ cells (pixels byte) }
{
    let bits = usize::from(byte);
    put_nibble(buffer, at, bits / 16);
    put_nibble(buffer, at + 8, bits % 16);
}

/// Puts the characters of the pixels of these bytes into the buffer, with a blank after each.
fn put_cells(buffer: &mut [u8], bytes: &[u8])
    requires { 16 * length bytes.now ≤ length buffer.old }
    ensures { take (16 * length bytes.now) buffer.new ≡ cells (all_pixels bytes.now) }
{
    for i in 0..bytes.len() {
        put_byte(buffer, 16 * i, bytes[i]);
    }
}

/// Puts the text of a row into the buffer: that of the first `count` pixels of the bytes.
pub fn put_pixels(buffer: &mut [u8], bytes: &[u8], count: usize)
    requires buffer { 16 * length bytes.now ≤ length buffer.old }
    requires enough { count ≤ 8 * length bytes.now }
    requires few { length bytes.now ≤ 256 }
    ensures { take (2 * count) buffer.new ≡ plain_row_text Kind.Bit (take count (all_pixels bytes.now)) }
{
    put_cells(buffer, bytes);
    let mut done = 0;
    while done < count {
        let next = (done + LINE).min(count);
        buffer[2 * next - 1] = b'\n';
        done = next;
    }
}
