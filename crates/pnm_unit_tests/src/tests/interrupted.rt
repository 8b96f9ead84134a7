//! Devices over a reader and a writer that signals interrupt.

use super::callers::{flush, read_all, write_all};
use super::same;
use pnm_image::{BytesIn, BytesOut, Device};
use pnm_streams::Retry;
use std::alloc::Global;
use std::io;
use std::io::{BufWriter, ErrorKind, Read, Write};
use std::process::Abort;
use std::test::Fail;

/// A reader or writer whose every other call is interrupted, from the first one on.
#[derive(Drop)]
struct Interrupted<D> {
    inner: D,
    is_through: bool,
}

impl<D> Interrupted<D> {
    fn new(inner: D) -> Interrupted<D> {
        Interrupted {
            inner,
            is_through: true,
        }
    }

    fn call(&mut self) -> io::Result<()> {
        self.is_through = !self.is_through;
        if self.is_through {
            return Ok(());
        }
        Err(io::Error::from(ErrorKind::Interrupted))
    }
}

impl<R: Read> Read for Interrupted<R> {
    fn read(&mut self, buffer: &mut [u8]) -> io::Result<usize> {
        self.call()?;
        self.inner.read(buffer)
    }
}

impl<W: Write> Write for Interrupted<W> {
    fn write(&mut self, bytes: &[u8]) -> io::Result<usize> {
        self.call()?;
        self.inner.write(bytes)
    }

    fn flush(&mut self) -> io::Result<()> {
        self.call()?;
        self.inner.flush()
    }
}

const BYTES: &[u8] = b"P5\n2 1\n122\nAB";

/// Returns a device whose every other call is interrupted, and made again.
fn again<D>(inner: D) -> Retry<Interrupted<D>> {
    Retry::new(Interrupted::new(inner))
}

/// Asserts that the reader gives the bytes, to their end.
fn gives_bytes<R: BytesIn>(rt: &impl Abort, alloc: Global, reader: &mut R) {
    let mut text = Vec::new(alloc);
    same(rt, &read_all(reader, &mut text), &Ok(()), &"a read");
    same(rt, &text.as_slice(), &BYTES, &"what is read");
}

/// Asserts that the writer takes the bytes, and a flush.
fn takes_bytes<W: BytesOut>(rt: &impl Abort, writer: &mut W) {
    same(rt, &write_all(writer, BYTES), &Ok(()), &"a write");
    same(rt, &flush(writer), &Ok(()), &"a flush");
}

/// Asserts that the bytes are what was written.
fn has_bytes(rt: &impl Abort, written: &[u8]) {
    same(rt, &written, &BYTES, &"what is written");
}

/// Reads, writes and flushes that are interrupted are made again.
#[test]
fn makes_interrupted_calls_again(rt: HostRuntime) {
    gives_bytes(&rt, rt.alloc(), &mut Device::new(again(BYTES)));
    let written = written_to(&rt, again(Vec::new(rt.alloc())));
    has_bytes(&rt, written.into_inner().inner.as_slice());
}

/// Returns the writer, once it has taken the bytes through a device.
fn written_to<W: Write + Drop>(rt: &impl Abort, writer: W) -> W {
    let mut output = Device::new(writer);
    takes_bytes(rt, &mut output);
    output.into_inner()
}

/// Interrupted calls are made again behind a buffer, too.
#[test]
fn makes_interrupted_calls_again_behind_a_buffer(rt: HostRuntime) -> Result<(), Fail> {
    let held = again(Vec::new(rt.alloc()));
    let written = written_behind_a_buffer(&rt, rt.alloc(), held)?;
    has_bytes(&rt, written.into_inner().inner.as_slice());
    Ok(())
}

/// Returns the writer, once it has taken the bytes through a device behind a buffer of four bytes.
fn written_behind_a_buffer<W: Write + Drop>(
    rt: &impl Abort,
    alloc: Global,
    writer: W,
) -> io::Result<W> {
    let output = written_to(rt, BufWriter::with_capacity(alloc, 4, writer)?);
    Ok(output.into_parts().0)
}
