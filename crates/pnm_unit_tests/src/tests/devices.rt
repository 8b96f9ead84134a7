//! Devices over memory, and devices with a call that fails.

use super::callers::{
    ReadFault, flush, read_all, read_through, write_all, write_bytewise, write_through,
};
use super::same;
use pnm_image::{BytesIn, BytesOut, Device, DeviceFailed};
use pnm_test_support::{Drips, FailsOnce, Sips};
use std::alloc::{AllocError, Global};
use std::process::Abort;
use std::test::Fail;

/// What devices are asked to give and to take.
const BYTES: &[u8] = &[1, 2, 3, 4, 5];

/// A device over memory gives all its bytes, and then none.
#[test]
fn reads_to_the_end(rt: HostRuntime) {
    let mut reader = Device::new([1, 2, 3, 4].as_slice());
    reads_by_threes(&rt, &mut reader);
    holds_bytes(&rt, reader.into_inner(), &[]);
}

/// Reads no byte, and then three bytes at a time, from a reader of four.
fn reads_by_threes<R: BytesIn>(rt: &impl Abort, reader: &mut R) {
    let mut buffer = [9; 3];
    reads(rt, reader, &mut [], 0, &[]);
    reads(rt, reader, &mut buffer, 3, &[1, 2, 3]);
    reads(rt, reader, &mut buffer, 1, &[4, 2, 3]);
    reads(rt, reader, &mut buffer, 0, &[4, 2, 3]);
}

/// Asserts that the next read gives `count` bytes, and that the buffer then holds `held`.
fn reads<R: BytesIn>(
    rt: &impl Abort,
    reader: &mut R,
    buffer: &mut [u8],
    count: usize,
    held: &[u8],
) {
    same(rt, &reader.read(&mut *buffer), &Ok(count), &held);
    holds_bytes(rt, buffer, held);
}

/// Reads all that the reader gives, or until a call fails. Asserts the answer, and that the text then holds `held`.
fn reads_all<R: BytesIn>(
    rt: &impl Abort,
    reader: &mut R,
    text: &mut Vec<u8>,
    want: Result<(), ReadFault>,
    held: &[u8],
) {
    same(rt, &read_all(reader, text), &want, &held);
    holds_bytes(rt, text.as_slice(), held);
}

/// Several reads of 64 bytes.
#[test]
fn reads_in_several_reads(rt: HostRuntime) -> Result<(), Fail> {
    let bytes = numbers(rt.alloc())?;
    let mut text = Vec::from_slice(rt.alloc(), &[255])?;
    appends(
        &rt,
        &mut Device::new(bytes.as_slice()),
        &mut text,
        bytes.as_slice(),
    );
    Ok(())
}

/// The numbers below 200.
fn numbers(alloc: Global) -> Result<Vec<u8>, AllocError> {
    (0..200).collect(alloc)
}

/// Reads all that the reader gives, and asserts that the text, which held a byte, then holds `bytes` as well.
fn appends<R: BytesIn>(rt: &impl Abort, reader: &mut R, text: &mut Vec<u8>, bytes: &[u8]) {
    same(rt, &read_all(reader, text), &Ok(()), &"the end");
    let want = Some((&255, bytes));
    same(rt, &text.as_slice().split_first(), &want, &"the end");
}

/// Asserts that a call has returned this.
fn answers(
    rt: &impl Abort,
    given: Result<(), DeviceFailed>,
    want: Result<(), DeviceFailed>,
    place: &str,
) {
    same(rt, &given, &want, &place);
}

/// Asserts that a write returns this.
fn writes<W: BytesOut>(
    rt: &impl Abort,
    writer: &mut W,
    bytes: &[u8],
    want: Result<usize, DeviceFailed>,
) {
    same(rt, &writer.write(bytes), &want, &bytes);
}

/// A device over a vector holds all that was written.
#[test]
fn writes_all(rt: HostRuntime) -> Result<(), Fail> {
    let mut writer = Device::new([1].to_vec(rt.alloc())?);
    writes_more(&rt, &mut writer);
    holds_bytes(&rt, writer.into_inner().as_slice(), &[1, 2, 3, 4, 5, 6]);
    Ok(())
}

/// Writes two bytes, none, and three more.
fn writes_more<W: BytesOut>(rt: &impl Abort, writer: &mut W) {
    writes(rt, writer, &[2, 3], Ok(2));
    writes(rt, writer, &[], Ok(0));
    answers(rt, write_all(writer, &[4, 5, 6]), Ok(()), "three bytes");
    answers(rt, flush(writer), Ok(()), "a flush");
}

/// Asserts that `held` is these bytes.
fn holds_bytes(rt: &impl Abort, held: &[u8], bytes: &[u8]) {
    same(rt, &held, &bytes, &"what is held");
}

/// A device that is lent is the same device.
#[test]
fn lends_readers(rt: HostRuntime) {
    let mut reader = Device::new([1, 2, 3].as_slice());
    reads(&rt, &mut reader, &mut [0], 1, &[1]);
    lends_reader(&rt, rt.alloc(), &mut reader, &[2, 3]);
}

/// Asserts that a part that borrows the reader reads these bytes, and a further part none.
fn lends_reader<R: BytesIn>(rt: &impl Abort, alloc: Global, reader: &mut R, rest: &[u8]) {
    let mut text = Vec::new(alloc);
    same(rt, &read_through(reader, &mut text), &Ok(()), &rest);
    holds_bytes(rt, text.as_slice(), rest);
    reads_all(rt, &mut &mut *reader, &mut text, Ok(()), rest);
}

#[test]
fn lends_writers(rt: HostRuntime) {
    let mut writer = Device::new(Vec::new(rt.alloc()));
    lends_writer(&rt, &mut writer);
    holds_bytes(&rt, writer.into_inner().as_slice(), BYTES);
}

/// Writes five bytes by parts that borrow the writer.
fn lends_writer<W: BytesOut>(rt: &impl Abort, writer: &mut W) {
    answers(rt, write_through(writer, &[1, 2]), Ok(()), "a part");
    answers(rt, write_all(&mut &mut *writer, &[3]), Ok(()), "a loan");
    answers(rt, write_bytewise(writer, &[4, 5]), Ok(()), "bytes alone");
    answers(rt, flush(&mut &mut *writer), Ok(()), "a flush");
}

/// A read that fails takes no byte, and the next read goes on.
#[test]
fn goes_on_after_a_failed_read(rt: HostRuntime) {
    let alloc = rt.alloc();
    fails_at_a_read(&rt, alloc, 0, &[]);
    fails_at_a_read(&rt, alloc, 1, &[1, 2]);
    fails_at_a_read(&rt, alloc, 2, &[1, 2, 3, 4]);
    fails_at_a_read(&rt, alloc, 3, &[1, 2, 3, 4, 5]);
}

/// Asserts that the read after `before` others fails, and that the bytes before it are `prefix`.
fn fails_at_a_read(rt: &impl Abort, alloc: Global, before: usize, prefix: &[u8]) {
    let drips = Drips::new(BYTES, 2, FailsOnce::after(before));
    reads_after_a_fault(rt, alloc, &mut Device::new(drips), prefix);
}

/// Asserts that a read fails after this prefix, and that the reader then gives what is left.
fn reads_after_a_fault<R: BytesIn>(rt: &impl Abort, alloc: Global, reader: &mut R, prefix: &[u8]) {
    let mut text = Vec::new(alloc);
    reads_all(rt, reader, &mut text, Err(ReadFault::Device), prefix);
    reads_all(rt, reader, &mut text, Ok(()), BYTES);
}

/// A write that fails takes no byte, and the next goes on.
#[test]
fn goes_on_after_a_failed_write(rt: HostRuntime) {
    let alloc = rt.alloc();
    fails_at_a_write(&rt, alloc, 0, &[], &[1, 2, 3, 4, 5]);
    fails_at_a_write(&rt, alloc, 1, &[1, 2], &[3, 4, 5]);
    fails_at_a_write(&rt, alloc, 2, &[1, 2, 3, 4], &[5]);
}

/// Asserts that the write after `before` others fails. The bytes before it are `prefix`, and the others are `rest`.
fn fails_at_a_write(rt: &impl Abort, alloc: Global, before: usize, prefix: &[u8], rest: &[u8]) {
    let mut sips = Sips::new(alloc, 2, FailsOnce::after(before), FailsOnce::never());
    writes_sips(rt, &mut sips, BYTES, Err(DeviceFailed), prefix);
    writes_sips(rt, &mut sips, rest, Ok(()), BYTES);
}

/// Asserts that a write of `bytes` returns `want`, and that `sips` then holds `held`.
fn writes_sips(
    rt: &impl Abort,
    sips: &mut Sips,
    bytes: &[u8],
    want: Result<(), DeviceFailed>,
    held: &[u8],
) {
    let answer = write_through(&mut Device::new(&mut *sips), bytes);
    answers(rt, answer, want, "sips");
    holds_bytes(rt, sips.held(), held);
}

/// Returns a writer whose first flush fails.
fn flushes_late(alloc: Global) -> Sips {
    Sips::new(alloc, 2, FailsOnce::never(), FailsOnce::after(0))
}

/// Asserts that a flush fails, and that the next one doesn't.
fn flushes_again<W: BytesOut>(rt: &impl Abort, writer: &mut W) {
    answers(rt, flush(writer), Err(DeviceFailed), "a flush");
    answers(rt, flush(writer), Ok(()), "the next flush");
}

/// A device goes on after a failed flush.
#[test]
fn goes_on_after_a_failed_flush(rt: HostRuntime) {
    let mut writer = Device::new(flushes_late(rt.alloc()));
    answers(&rt, write_all(&mut writer, &[1, 2, 3]), Ok(()), "bytes");
    flushes_again(&rt, &mut writer);
    holds_bytes(&rt, writer.into_inner().held(), &[1, 2, 3]);
}

/// A lent device passes a flush on.
#[test]
fn lends_flushes(rt: HostRuntime) {
    let mut lent = Device::new(flushes_late(rt.alloc()));
    flushes_again(&rt, &mut &mut lent);
}

/// A writer that takes none of its bytes has failed.
#[test]
fn fails_where_no_byte_is_taken(rt: HostRuntime) {
    let mut buffer = [0; 3];
    takes_three(&rt, &mut Device::new(buffer.as_mut_slice()));
    holds_bytes(&rt, &buffer, &[1, 2, 3]);
}

/// Asserts that the writer takes three bytes, and no more.
fn takes_three<W: BytesOut>(rt: &impl Abort, writer: &mut W) {
    let answer = write_all(writer, &[1, 2, 3, 4]);
    answers(rt, answer, Err(DeviceFailed), "four bytes");
    writes(rt, writer, &[], Ok(0));
    writes(rt, writer, &[5], Err(DeviceFailed));
    answers(rt, flush(writer), Ok(()), "a flush");
}
