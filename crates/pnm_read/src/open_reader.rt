//! A reader of a text that may go on.

ghost use Rattle.std.specs.Prelude.{◌≡◌, ◌∷◌, ◌++◌, [], Some};

use pnm_image::{BytesIn, DeviceFailed};

/// Reads the beginning of a text, and fails behind it, since more may follow. So it never tells an end, and what is
/// known after it has failed holds however the text goes on.
#[derive(Drop)]
pub struct OpenReader<'a> {
    rest: &'a [u8],
    failures: u64,
}

impl OpenReader<'_> {
    /// Reads these bytes, from the first on.
    pub fn new(text: &[u8]) -> OpenReader<'_>
        ensures { result.rest.now ≡ text.now }
    {
        OpenReader {
            rest: text,
            failures: 0,
        }
    }
}

impl BytesIn for OpenReader<'_> {
    // A byte is left that never comes.
    ghost left = { λ r. Some (r.rest.now ++ 0 ∷ []) };

    ghost failures = { λ r. r.failures };

    ghost same = { λ _ _. Unit {0} };

    ghost same_at_once = { λ _. tt };

    ghost same_later = { λ _ _ _ _ _. tt };

    fn read(&mut self, buffer: &mut [u8]) -> Result<usize, DeviceFailed> {
        let count = buffer.len().min(self.rest.len());
        if count == 0 && !buffer.is_empty() {
            self.failures = self.failures.saturating_add(1);
            return Err(DeviceFailed);
        }
        let (front, rest) = self.rest.split_at(count);
        buffer[..count].copy_from_slice(front);
        self.rest = rest;
        Ok(count)
    }
}
