//! How the samples of a raw row lie in its bytes.

ghost use Rattle.std.specs.Prelude.{◌≡◌, ◌≤◌, ◌*◌, ◌-◌, All, length, take};
ghost use Rattle.pnm_write.specs.Encoding.{wide_bytes, bytes_in};
ghost use Rattle.pnm_write.specs.Internal.WriteBuffers.{most_samples, FitIn};

use pnm_image::SampleWidth;
use pnm_samples::pack;

/// Writes the samples to the front of the buffer, a byte each, and returns how many bytes there are.
fn narrow(samples: &[u16], buffer: &mut [u8]) -> usize
    requires buffer { length samples.now ≤ length buffer.old }
    requires small { All (λ sample. sample ≤ 255) samples.now }
    ensures within { result ≤ length buffer.new }
    ensures bytes { take result buffer.new ≡ samples.now }
{
    for i in 0..samples.len() {
        buffer[i] = samples[i] as u8;
    }
    samples.len()
}

/// Writes the samples to the front of the buffer, two bytes each, and returns how many bytes there are.
fn widen(samples: &[u16], buffer: &mut [u8]) -> usize
    requires { 2 * length samples.now ≤ length buffer.old }
    ensures within { result ≤ length buffer.new }
    ensures bytes { take result buffer.new ≡ wide_bytes samples.now }
{
    for i in 0..samples.len() {
        let pair = &mut buffer[2 * i..2 * i + 2];
        pair.copy_from_slice(&samples[i].to_be_bytes());
    }
    2 * samples.len()
}

/// Returns the most samples whose bytes fit into 4,096 bytes.
pub fn most_samples(sample_width: SampleWidth) -> usize
    ensures { result ≡ most_samples sample_width }
{
    match sample_width {
        SampleWidth::Bits => 32_768,
        SampleWidth::Bytes => 4096,
        SampleWidth::Words => 2048,
    }
}

/// Writes the bytes of the samples to the front of the buffer, and returns how many there are.
pub fn encode(sample_width: SampleWidth, samples: &[u16], buffer: &mut [u8]) -> usize
    requires buffer { length buffer.old ≡ 4096 }
    requires count { length samples.now ≤ most_samples sample_width }
    requires range { FitIn sample_width samples.now }
    ensures within { result ≤ length buffer.new }
    ensures bytes { take result buffer.new ≡ bytes_in sample_width samples.now }
{
    match sample_width {
        SampleWidth::Bits => pack(samples, buffer),
        SampleWidth::Bytes => narrow(samples, buffer),
        SampleWidth::Words => widen(samples, buffer),
    }
}
