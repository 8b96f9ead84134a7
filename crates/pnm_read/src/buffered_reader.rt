//! A buffered reader, which holds up to a buffer of its reader's bytes.

ghost use Rattle.std.specs.Prelude.{◌≡◌, ◌==◌, ◌≤◌, ◌<◌, ◌⊎◌, ◌↔◌, IsTrue, [], true, false, drop, length};
ghost use Rattle.std.specs.Prelude.{vec_len, OnOk, IfOk, IfErr, MatchResult};
ghost use Rattle.pnm_read.specs.declared.fault.InputFault.TheVariants.{ReadFailed, Memory};
ghost use Rattle.pnm_read.specs.Internal.Reads.{HasRead};

use crate::fault::InputFault;
use pnm_image::BytesIn;
use std::alloc::Global;

/// The bytes of the smallest buffer.
const LEAST_BYTES: usize = 4096;

/// The size of the smallest target that is read into past the buffer. For a smaller one, one read into the buffer
/// fetches what it wants and what follows.
const LEAST_BYTES_PAST: usize = 16_384;

/// A buffer of 4,096 bytes or more that an input is read into.
#[derive(Drop)]
pub struct ReadBuffer {
    bytes: Vec<u8>,
    ghost size: { 4096 ≤ vec_len bytes },
}

impl ReadBuffer {
    /// Creates a buffer of 4,096 bytes that holds nothing yet. The only fault is `Memory`.
    pub(crate) fn new(alloc: Global) -> Result<ReadBuffer, InputFault>
        ensures size { IfOk result (λ buffer. vec_len buffer.bytes ≡ 4096) }
        ensures refused { IfErr result (λ fault. fault ≡ Memory) }
    {
        ReadBuffer::with_capacity(alloc, LEAST_BYTES)
    }

    /// Creates a buffer of `capacity` bytes that holds nothing yet. The only fault is `Memory`.
    pub fn with_capacity(alloc: Global, capacity: usize) -> Result<ReadBuffer, InputFault>
        requires { 4096 ≤ capacity }
        ensures size { IfOk result (λ buffer. vec_len buffer.bytes ≡ capacity) }
        ensures refused { IfErr result (λ fault. fault ≡ Memory) }
    {
        match Vec::from_elem(alloc, 0, capacity) {
            Ok(bytes) => Ok(ReadBuffer { bytes }),
            Err(_) => Err(InputFault::Memory),
        }
    }
}

/// A reader, and the bytes that were read from it and not taken yet.
#[derive(Drop)]
pub struct BufferedReader<R> {
    reader: R,
    /// The bytes from `at` up to `end` are held.
    buffer: Vec<u8>,
    at: usize,
    end: usize,
    /// Whether the reader's end was seen.
    ended: bool,
    ghost size: { 4096 ≤ vec_len buffer },
    ghost order: { at ≤ end },
    ghost within: { end ≤ vec_len buffer },
}

impl<R: BytesIn> BufferedReader<R> {
    ghost use Rattle.pnm_read.specs.BufferedReaders.{held_of};
    ghost use Rattle.pnm_read.specs.Internal.BufferedReaders.{ReadCall, Fills, Reads, IsByte, HoldsEnough};

    /// Creates a buffered reader that has read nothing yet.
    pub fn new(buffer: ReadBuffer, reader: R) -> BufferedReader<R>
        ensures reader { result.reader ≡ reader }
        ensures nothing_held { held_of result ≡ [] }
        ensures not_ended { result.ended ≡ false }
    {
        BufferedReader {
            reader,
            buffer: buffer.bytes,
            at: 0,
            end: 0,
            ended: false,
        }
    }

    /// Returns the reader.
    pub fn into_reader(self) -> R
        ensures { result ≡ self.reader }
    {
        self.reader
    }

    /// Returns the allocator that made the buffer.
    pub fn allocator(&self) -> Global {
        *self.buffer.allocator()
    }

    /// Returns the bytes that are held.
    pub fn bytes(&self) -> &[u8]
        ensures { result.now ≡ held_of self.now }
    {
        &self.buffer[self.at..self.end]
    }

    /// Returns whether `wanted` bytes are held, or all that are left.
    pub fn holds(&self, wanted: usize) -> bool
        ensures { IsTrue result ↔ HoldsEnough wanted self.now }
    {
        self.ended || self.end - self.at >= wanted
    }

    /// Takes the first `count` of the bytes that are held.
    pub fn advance(&mut self, count: usize)
        requires { count ≤ length (held_of self.old) }
        ensures held { held_of self.new ≡ drop count (held_of self.old) }
        ensures reader { self.new.reader ≡ self.old.reader }
        ensures ended { self.new.ended ≡ self.old.ended }
    {
        self.at += count;
    }

    /// Reads until `wanted` bytes are held, or the input has ended. The only fault is `ReadFailed`.
    pub fn fill(&mut self, wanted: usize) -> Result<(), InputFault>
        requires { wanted ≤ 4096 }
        ensures read_call { ReadCall R.left R.failures R.same self.old self.new result (Fills result) }
        ensures enough { OnOk result (HoldsEnough wanted self.new) }
        ensures still { HoldsEnough wanted self.old → self.new ≡ self.old }
        ensures failed { IfErr result (λ fault. fault ≡ ReadFailed) }
    {
        while !self.ended && self.end - self.at < wanted {
            self.read_more()?;
        }
        Ok(())
    }

    /// Reads once, behind the bytes that are held, if they are fewer than `wanted`, the buffer has room for `wanted`,
    /// and the input hasn't ended. The only fault is `ReadFailed`.
    pub fn read_towards(&mut self, wanted: usize) -> Result<(), InputFault>
        ensures read_call { ReadCall R.left R.failures R.same self.old self.new result (Fills result) }
        ensures failed { IfErr result (λ fault. fault ≡ ReadFailed) }
    {
        if self.holds(wanted) || wanted > self.buffer.len() {
            return Ok(());
        }
        self.read_more()
    }

    /// Reads once, behind the bytes that are held. The only fault is `ReadFailed`.
    fn read_more(&mut self) -> Result<(), InputFault>
        requires free { length (held_of self.old) < vec_len self.old.buffer }
        requires goes_on { self.old.ended ≡ false }
        ensures read_call { ReadCall R.left R.failures R.same self.old self.new result (Fills result) }
        ensures more { OnOk result ((length (held_of self.old) < length (held_of self.new))
            ⊎ ((self.new.ended ≡ true) × (held_of self.new ≡ held_of self.old))) }
        ensures failed { IfErr result (λ fault. fault ≡ ReadFailed) }
    {
        self.move_to_front();
        let target = &mut self.buffer.as_mut_slice()[self.end..];
        self.end += read_into(&mut self.reader, &mut self.ended, target)?;
        Ok(())
    }

    /// Moves the bytes that are held to the front of the buffer.
    fn move_to_front(&mut self)
        ensures front { self.new.at ≡ 0 }
        ensures size { vec_len self.new.buffer ≡ vec_len self.old.buffer }
        ensures held { held_of self.new ≡ held_of self.old }
        ensures reader { self.new.reader ≡ self.old.reader }
        ensures ended { self.new.ended ≡ self.old.ended }
    {
        if self.at > 0 {
            self.buffer.copy_within(self.at..self.end, 0);
            self.end -= self.at;
            self.at = 0;
        }
    }

    /// Takes the next bytes into the front of the target, and returns how many came: 0 only at the end of the input.
    /// These are bytes that are held. If none are, it reads once, straight into a target of at least 16,384 bytes. The
    /// only fault is `ReadFailed`.
    pub fn read(&mut self, target: &mut [u8]) -> Result<usize, InputFault>
        requires { 0 < length target.old }
        ensures read_call { ReadCall R.left R.failures R.same self.old self.new result (Reads target.new result) }
        ensures bound { IfOk result (λ count. count ≤ length target.new) }
        ensures failed { IfErr result (λ fault. fault ≡ ReadFailed) }
    {
        if self.at == self.end && target.len() >= LEAST_BYTES_PAST {
            return self.read_past(target);
        }
        self.fill(1)?;
        let bytes = self.bytes();
        let count = bytes.len().min(target.len());
        target[..count].copy_from_slice(&bytes[..count]);
        self.advance(count);
        Ok(count)
    }

    /// Reads once into the target, past the buffer, which holds nothing.
    fn read_past(&mut self, target: &mut [u8]) -> Result<usize, InputFault>
        requires held { held_of self.old ≡ [] }
        requires target { 0 < length target.old }
        ensures read_call { ReadCall R.left R.failures R.same self.old self.new result (Reads target.new result) }
        ensures bound { IfOk result (λ count. count ≤ length target.new) }
        ensures failed { IfErr result (λ fault. fault ≡ ReadFailed) }
    {
        if self.ended {
            return Ok(0);
        }
        read_into(&mut self.reader, &mut self.ended, target)
    }

    /// Takes the next byte. Returns `None` at the end of the input.
    pub fn next_byte(&mut self) -> Result<Option<u8>, InputFault>
        ensures { ReadCall R.left R.failures R.same self.old self.new result (IsByte result) }
    {
        self.fill(1)?;
        match self.bytes().first() {
            Some(byte) => {
                let byte = *byte;
                self.advance(1);
                Ok(Some(byte))
            }
            None => Ok(None),
        }
    }
}

/// Reads once into the front of the target, and returns how many bytes came: 0 only at the end, where it sets `ended`.
fn read_into<R: BytesIn>(
    reader: &mut R,
    ended: &mut bool,
    target: &mut [u8],
) -> Result<usize, InputFault>
    requires target { 0 < length target.old }
    requires goes_on { ended.old ≡ false }
    ensures read { HasRead R.left R.failures R.same reader.old reader.new target.new result }
    ensures end { MatchResult result (λ count. ended.new ≡ (count == 0)) (λ _. ended.new ≡ false) }
{
    match reader.read(target) {
        Ok(count) => {
            *ended = count == 0;
            Ok(count)
        }
        Err(_) => Err(InputFault::ReadFailed),
    }
}
