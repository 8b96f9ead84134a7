//! Buffers that are allocated at full length before samples are stored in them.

ghost use Rattle.std.specs.Prelude.{◌≡◌, ◌≤◌, ◌+◌, ◌++◌, length, take};

/// Stores samples in a buffer, from `at` on.
#[inline(always)]
pub fn store<T: Copy>(buffer: &mut [T], at: usize, samples: &[T])
    requires { at + length samples.now ≤ length buffer.old }
    ensures { take (at + length samples.now) buffer.new ≡ take at buffer.old ++ samples.now }
{
    buffer[at..at + samples.len()].copy_from_slice(samples);
}
