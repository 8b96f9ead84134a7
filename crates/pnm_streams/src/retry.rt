//! Calls that a signal interrupts, made again.

ghost use Rattle.std.specs.Prelude.{◌≡◌};

use std::io;
use std::io::{ErrorKind, Read, Write};

/// A reader or writer that makes each call again if a signal has interrupted it (signal(7)), so that a process that was
/// stopped and goes on loses nothing. It passes on any other error.
#[derive(Debug, Drop)]
pub struct Retry<D> {
    inner: D,
}

impl<D> Retry<D> {
    /// Makes interrupted calls of this reader or writer again.
    pub fn new(inner: D) -> Retry<D>
        ensures { result.inner ≡ inner }
    {
        Retry { inner }
    }

    /// Returns the reader or writer.
    pub fn into_inner(self) -> D
        ensures { result ≡ self.inner }
    {
        self.inner
    }
}

impl<R: Read> Read for Retry<R> {
    ghost remaining = { λ d. R.remaining d.inner };

    fn read(&mut self, buffer: &mut [u8]) -> io::Result<usize> {
        for _ in 0..u64::MAX {
            match self.inner.read(buffer) {
                Err(error) if error.kind() == ErrorKind::Interrupted => {}
                answer => return answer,
            }
        }
        Err(io::Error::from(ErrorKind::Interrupted))
    }
}

impl<W: Write> Write for Retry<W> {
    ghost contents = { λ d. W.contents d.inner };

    fn write(&mut self, bytes: &[u8]) -> io::Result<usize> {
        for _ in 0..u64::MAX {
            match self.inner.write(bytes) {
                Err(error) if error.kind() == ErrorKind::Interrupted => {}
                answer => return answer,
            }
        }
        Err(io::Error::from(ErrorKind::Interrupted))
    }

    fn flush(&mut self) -> io::Result<()> {
        for _ in 0..u64::MAX {
            match self.inner.flush() {
                Err(error) if error.kind() == ErrorKind::Interrupted => {}
                answer => return answer,
            }
        }
        Err(io::Error::from(ErrorKind::Interrupted))
    }
}
