//! Devices of tests: they give and take few bytes a call, and fail when a test wants it.

use std::alloc::Global;
use std::io;
use std::io::{ErrorKind, Read, Write};

/// Makes one call fail, once, after `before` calls that succeed. The error is one after which std's own loops repeat
/// the call.
#[derive(Drop)]
pub struct FailsOnce {
    before: usize,
    has_failed: bool,
}

impl FailsOnce {
    /// Fails the call after the first `before`.
    pub fn after(before: usize) -> FailsOnce {
        FailsOnce {
            before,
            has_failed: false,
        }
    }

    /// Fails no call.
    pub fn never() -> FailsOnce {
        FailsOnce {
            before: 0,
            has_failed: true,
        }
    }

    /// Counts a call, and fails if it is the one.
    fn call(&mut self) -> io::Result<()> {
        if self.before > 0 {
            self.before -= 1;
        } else if !self.has_failed {
            self.has_failed = true;
            return Err(io::Error::from(ErrorKind::Interrupted));
        }
        Ok(())
    }
}

/// A reader that gives up to `most` bytes a call.
#[derive(Drop)]
pub struct Drips<'a> {
    rest: &'a [u8],
    most: usize,
    reads: FailsOnce,
}

impl<'a> Drips<'a> {
    /// Creates a reader that gives this text, up to `most` bytes a read. One of the reads may fail.
    pub fn new(text: &'a [u8], most: usize, reads: FailsOnce) -> Drips<'a> {
        Drips {
            rest: text,
            most,
            reads,
        }
    }
}

impl Read for Drips<'_> {
    fn read(&mut self, buffer: &mut [u8]) -> io::Result<usize> {
        self.reads.call()?;
        let most = buffer.len().min(self.most);
        self.rest.read(&mut buffer[..most])
    }
}

/// A writer that takes up to `most` bytes a call.
#[derive(Drop)]
pub struct Sips {
    held: Vec<u8>,
    most: usize,
    writes: FailsOnce,
    flushes: FailsOnce,
    flushed: usize,
}

impl Sips {
    /// Creates a writer that takes up to `most` bytes a write. One of the writes may fail, and one of the flushes.
    pub fn new(alloc: Global, most: usize, writes: FailsOnce, flushes: FailsOnce) -> Sips {
        Sips {
            held: Vec::new(alloc),
            most,
            writes,
            flushes,
            flushed: 0,
        }
    }

    /// Returns the bytes that were taken.
    pub fn held(&self) -> &[u8] {
        self.held.as_slice()
    }

    /// Returns how often it was asked to flush.
    pub fn flushed(&self) -> usize {
        self.flushed
    }
}

impl Write for Sips {
    fn write(&mut self, bytes: &[u8]) -> io::Result<usize> {
        self.writes.call()?;
        let most = bytes.len().min(self.most);
        self.held.write(&bytes[..most])
    }

    fn flush(&mut self) -> io::Result<()> {
        self.flushed = self.flushed.saturating_add(1);
        self.flushes.call()
    }
}

/// A writer that takes all bytes, but fails at every flush.
#[derive(Drop)]
pub struct NeverFlushes {
    held: Vec<u8>,
}

impl NeverFlushes {
    /// Creates a writer that holds nothing yet.
    pub fn new(alloc: Global) -> NeverFlushes {
        NeverFlushes {
            held: Vec::new(alloc),
        }
    }

    /// Returns the bytes that were taken.
    pub fn held(&self) -> &[u8] {
        self.held.as_slice()
    }
}

impl Write for NeverFlushes {
    fn write(&mut self, bytes: &[u8]) -> io::Result<usize> {
        self.held.write(bytes)
    }

    fn flush(&mut self) -> io::Result<()> {
        Err(io::Error::from(ErrorKind::Interrupted))
    }
}

/// A reader that records, for each read, how many bytes it asked for and how many it got.
#[derive(Drop)]
pub struct Recorded<R> {
    reader: R,
    calls: Vec<(usize, usize)>,
}

impl<R: Read + Drop> Recorded<R> {
    /// Wraps a reader that isn't read yet.
    pub fn new(alloc: Global, reader: R) -> Recorded<R> {
        Recorded {
            reader,
            calls: Vec::new(alloc),
        }
    }

    /// Returns how many bytes each read asked for, and how many it got.
    pub fn calls(&self) -> &[(usize, usize)] {
        self.calls.as_slice()
    }
}

impl<R: Read + Drop> Read for Recorded<R> {
    fn read(&mut self, buffer: &mut [u8]) -> io::Result<usize> {
        let given = self.reader.read(&mut *buffer);
        let count = match &given {
            Ok(count) => *count,
            Err(_) => 0,
        };
        self.calls.push((buffer.len(), count))?;
        given
    }
}
