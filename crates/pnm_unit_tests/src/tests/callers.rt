//! Callers that know a device by its trait alone, with what they can promise of it.

ghost use Rattle.std.specs.Prelude.{◌≡◌, ℕ, List, ◌++◌, take, IfSome, OnOk, OnErr, Err};
ghost use Rattle.std.specs.Io.KnownBytes.{Appends, Consumes, IsAtEnd};
ghost use Rattle.pnm_image.specs.Devices.{Failed};

use pnm_image::{BytesIn, BytesOut, DeviceFailed};

/// Why a text wasn't read to its end.
#[derive(Clone, Copy, Debug, PartialEq, Eq)]
pub(super) enum ReadFault {
    Device,
    Memory,
}

/// Appends all bytes that the reader gives to the text.
pub(super) fn read_all<R: BytesIn>(reader: &mut R, text: &mut Vec<u8>) -> Result<(), ReadFault>
    ensures whole { OnOk result (IfSome (R.left reader.old) (λ bytes. text.new.items ≡ text.old.items ++ bytes)) }
    ensures end { OnOk result (IsAtEnd (R.left reader.new)) }
    ensures prefix { result ≡ Err ReadFault.Device
        → (bytes : List ℕ) × Consumes (R.left reader.old) (R.left reader.new) bytes
        × (text.new.items ≡ text.old.items ++ bytes) }
    ensures kept { OnOk result (R.failures reader.new ≡ R.failures reader.old) }
    ensures failed { result ≡ Err ReadFault.Device → Failed (R.failures reader.old) (R.failures reader.new) }
    ensures same_device { R.same reader.old reader.new }
{
    let mut buffer = [0; 64];
    loop {
        match reader.read(&mut buffer) {
            Ok(0) => return Ok(()),
            Ok(count) => {
                if text.extend_from_slice(&buffer[..count]).is_err() {
                    return Err(ReadFault::Memory);
                }
            }
            Err(_) => return Err(ReadFault::Device),
        }
    }
}

/// Writes all the bytes. If the device fails, it has taken a prefix of them.
pub(super) fn write_all<W: BytesOut>(writer: &mut W, bytes: &[u8]) -> Result<(), DeviceFailed>
    ensures whole { OnOk result (Appends (W.held writer.old) (W.held writer.new) bytes.now) }
    ensures prefix { OnErr result ((n : ℕ) × Appends (W.held writer.old) (W.held writer.new) (take n bytes.now)) }
    ensures kept { OnOk result (W.failures writer.new ≡ W.failures writer.old) }
    ensures failed { OnErr result (Failed (W.failures writer.old) (W.failures writer.new)) }
    ensures same_device { W.same writer.old writer.new }
{
    let mut at = 0;
    while at < bytes.len() {
        at += writer.write(&bytes[at..])?;
    }
    Ok(())
}

/// A part of a program that keeps a device.
#[derive(Drop)]
struct Through<D> {
    device: D,
}

impl<R: BytesIn> Through<R> {
    /// Appends all bytes that the device gives to the text.
    fn read_all(&mut self, text: &mut Vec<u8>) -> Result<(), ReadFault>
        ensures whole { OnOk result
            (IfSome (R.left self.old.device) (λ bytes. text.new.items ≡ text.old.items ++ bytes)) }
        ensures end { OnOk result (IsAtEnd (R.left self.new.device)) }
        ensures prefix { result ≡ Err ReadFault.Device
            → (bytes : List ℕ) × Consumes (R.left self.old.device) (R.left self.new.device) bytes
            × (text.new.items ≡ text.old.items ++ bytes) }
        ensures kept { OnOk result (R.failures self.new.device ≡ R.failures self.old.device) }
        ensures failed { result ≡ Err ReadFault.Device
            → Failed (R.failures self.old.device) (R.failures self.new.device) }
        ensures same_device { R.same self.old.device self.new.device }
    {
        read_all(&mut self.device, text)
    }
}

impl<W: BytesOut> Through<W> {
    /// Writes all the bytes to the device.
    fn write_all(&mut self, bytes: &[u8]) -> Result<(), DeviceFailed>
        ensures whole { OnOk result (Appends (W.held self.old.device) (W.held self.new.device) bytes.now) }
        ensures prefix { OnErr result
            ((n : ℕ) × Appends (W.held self.old.device) (W.held self.new.device) (take n bytes.now)) }
        ensures kept { OnOk result (W.failures self.new.device ≡ W.failures self.old.device) }
        ensures failed { OnErr result (Failed (W.failures self.old.device) (W.failures self.new.device)) }
        ensures same_device { W.same self.old.device self.new.device }
    {
        write_all(&mut self.device, bytes)
    }
}

/// Does what `read_all` does, by a part that borrows the device.
pub(super) fn read_through<R: BytesIn>(reader: &mut R, text: &mut Vec<u8>) -> Result<(), ReadFault>
    ensures whole { OnOk result (IfSome (R.left reader.old) (λ bytes. text.new.items ≡ text.old.items ++ bytes)) }
    ensures end { OnOk result (IsAtEnd (R.left reader.new)) }
    ensures prefix { result ≡ Err ReadFault.Device
        → (bytes : List ℕ) × Consumes (R.left reader.old) (R.left reader.new) bytes
        × (text.new.items ≡ text.old.items ++ bytes) }
    ensures kept { OnOk result (R.failures reader.new ≡ R.failures reader.old) }
    ensures failed { result ≡ Err ReadFault.Device → Failed (R.failures reader.old) (R.failures reader.new) }
    ensures same_device { R.same reader.old reader.new }
{
    let mut part = Through {
        device: &mut *reader,
    };
    part.read_all(text)
}

/// Does what `write_all` does, by a part that borrows the device.
pub(super) fn write_through<W: BytesOut>(writer: &mut W, bytes: &[u8]) -> Result<(), DeviceFailed>
    ensures whole { OnOk result (Appends (W.held writer.old) (W.held writer.new) bytes.now) }
    ensures prefix { OnErr result ((n : ℕ) × Appends (W.held writer.old) (W.held writer.new) (take n bytes.now)) }
    ensures kept { OnOk result (W.failures writer.new ≡ W.failures writer.old) }
    ensures failed { OnErr result (Failed (W.failures writer.old) (W.failures writer.new)) }
    ensures same_device { W.same writer.old writer.new }
{
    let mut part = Through {
        device: &mut *writer,
    };
    part.write_all(bytes)
}

/// Does what `write_all` does, a byte at a time: the part that borrows the device is used again and again.
pub(super) fn write_bytewise<W: BytesOut>(writer: &mut W, bytes: &[u8]) -> Result<(), DeviceFailed>
    ensures whole { OnOk result (Appends (W.held writer.old) (W.held writer.new) bytes.now) }
    ensures prefix { OnErr result ((n : ℕ) × Appends (W.held writer.old) (W.held writer.new) (take n bytes.now)) }
    ensures kept { OnOk result (W.failures writer.new ≡ W.failures writer.old) }
    ensures failed { OnErr result (Failed (W.failures writer.old) (W.failures writer.new)) }
    ensures same_device { W.same writer.old writer.new }
{
    let mut part = Through {
        device: &mut *writer,
    };
    for byte in bytes {
        part.write_all(&[*byte])?;
    }
    Ok(())
}

/// Flushes the writer.
pub(super) fn flush<W: BytesOut>(writer: &mut W) -> Result<(), DeviceFailed> {
    writer.flush()
}
