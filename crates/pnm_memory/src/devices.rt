//! The two ends of a run in memory: a reader of a slice, and a writer that keeps all that it takes.

ghost use Rattle.std.specs.Prelude.{◌≡◌, [], Some};

use pnm_image::{BytesIn, BytesOut, DeviceFailed};
use std::alloc::Global;

/// Reads a slice. It never fails.
#[derive(Drop)]
pub struct TextReader<'a> {
    rest: &'a [u8],
}

impl TextReader<'_> {
    /// Reads these bytes, from the first on.
    pub fn new(text: &[u8]) -> TextReader<'_>
        ensures { result.rest.now ≡ text.now }
    {
        TextReader { rest: text }
    }
}

impl BytesIn for TextReader<'_> {
    ghost left = { λ r. Some r.rest.now };

    ghost failures = { λ _. 0 };

    ghost same = { λ _ _. Unit {0} };

    ghost same_at_once = { λ _. tt };

    ghost same_later = { λ _ _ _ _ _. tt };

    fn read(&mut self, buffer: &mut [u8]) -> Result<usize, DeviceFailed> {
        let count = buffer.len().min(self.rest.len());
        let (front, rest) = self.rest.split_at(count);
        buffer[..count].copy_from_slice(front);
        self.rest = rest;
        Ok(count)
    }
}

/// Keeps the bytes that it takes. It fails only if there is no memory for them.
#[derive(Drop)]
pub struct VecWriter {
    bytes: Vec<u8>,
    failures: u64,
}

impl VecWriter {
    /// Creates a writer that holds nothing.
    pub fn new(alloc: Global) -> VecWriter
        ensures bytes { result.bytes.items ≡ [] }
        ensures failures { result.failures ≡ 0 }
    {
        VecWriter {
            bytes: Vec::new(alloc),
            failures: 0,
        }
    }

    /// Returns the bytes that it holds.
    pub fn into_inner(self) -> Vec<u8>
        ensures { result ≡ self.bytes }
    {
        self.bytes
    }
}

impl BytesOut for VecWriter {
    ghost held = { λ w. Some w.bytes.items };

    ghost failures = { λ w. w.failures };

    ghost same = { λ _ _. Unit {0} };

    ghost same_at_once = { λ _. tt };

    ghost same_later = { λ _ _ _ _ _. tt };

    fn write(&mut self, bytes: &[u8]) -> Result<usize, DeviceFailed> {
        match self.bytes.extend_from_slice(bytes) {
            Ok(()) => Ok(bytes.len()),
            Err(_) => {
                self.failures = self.failures.saturating_add(1);
                Err(DeviceFailed)
            }
        }
    }

    fn flush(&mut self) -> Result<(), DeviceFailed> {
        Ok(())
    }
}
