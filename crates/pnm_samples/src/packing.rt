//! Pixels as bytes.

ghost use Rattle.std.specs.Prelude.{◌≡◌, ◌≤◌, ◌*◌, ◌-◌, length, take};
ghost use Rattle.pnm_samples.specs.Pixels.{packed_byte, packed_bytes};

/// Packs pixels, eight to a byte, into the front of the buffer, and returns how many bytes they take. Spare bits of the
/// last byte are 0.
pub fn pack(samples: &[u16], buffer: &mut [u8]) -> usize
    requires { length samples.now ≤ 8 * length buffer.old }
    ensures within { result ≤ length buffer.new }
    ensures bytes { take result buffer.new ≡ packed_bytes samples.now }
{
    let whole = samples.len() / 8;
    for i in 0..whole {
        buffer[i] = packed_byte(&samples[8 * i..8 * i + 8]);
    }
    let (_, rest) = samples.split_at(8 * whole);
    if rest.is_empty() {
        return whole;
    }
    // The spare bits are those of white pixels.
    let mut last = [1; 8];
    last[..rest.len()].copy_from_slice(rest);
    buffer[whole] = packed_byte(&last);
    whole + 1
}

/// Returns the byte of eight pixels.
#[inline]
fn packed_byte(pixels: &[u16]) -> u8
    requires { length pixels.now ≡ 8 }
    ensures { result ≡ packed_byte pixels.now }
{
    128 * black(pixels[0])
        + 64 * black(pixels[1])
        + 32 * black(pixels[2])
        + 16 * black(pixels[3])
        + 8 * black(pixels[4])
        + 4 * black(pixels[5])
        + 2 * black(pixels[6])
        + black(pixels[7])
}

/// Returns the bit of a pixel.
#[inline]
fn black(sample: u16) -> u8
    ensures bit { result ≡ 1 - sample }
    ensures small { result ≤ 1 }
{
    u8::from(sample == 0)
}
