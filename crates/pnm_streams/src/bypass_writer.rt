//! Long writes, which a buffer would only copy.

ghost use Rattle.std.specs.Prelude.{◌≡◌};
ghost use Rattle.std.specs.Io.Buffered.{writer_contents};

use std::io;
use std::io::{BufWriter, Write};

/// A part of so many bytes bypasses the buffer: to copy it would take longer than the call that this saves.
const LONG: usize = 16_384;

/// A buffered writer that keeps back only short parts. It writes a long part straight, once it has written what was
/// kept back.
#[derive(Drop)]
pub struct BypassWriter<W: Write + Drop> {
    buffered: BufWriter<W>,
}

impl<W: Write + Drop> BypassWriter<W> {
    /// Writes long parts past this buffer.
    pub fn new(buffered: BufWriter<W>) -> BypassWriter<W>
        ensures { result.buffered ≡ buffered }
    {
        BypassWriter { buffered }
    }

    /// Returns the buffered writer.
    pub fn into_inner(self) -> BufWriter<W>
        ensures { result ≡ self.buffered }
    {
        self.buffered
    }
}

impl<W: Write + Drop> Write for BypassWriter<W> {
    ghost contents = { λ d. writer_contents W.contents d.buffered };

    fn write(&mut self, bytes: &[u8]) -> io::Result<usize> {
        if bytes.len() < LONG {
            return self.buffered.write(bytes);
        }
        self.buffered.flush()?;
        self.buffered.get_mut().write(bytes)
    }

    fn flush(&mut self) -> io::Result<()> {
        self.buffered.flush()
    }
}
