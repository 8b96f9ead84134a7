//! Where bytes come from and go to.

ghost use Rattle.std.specs.Prelude.{◌≡◌, ℕ, ◌+◌, ◌-◌, ◌^◌, ◌<◌, min, length, IfOk, OnOk, OnErr, List, Option, refl};
ghost use Rattle.std.proofs.Common.{◌∙◌};
ghost use Rattle.std.specs.Io.{ReadsAtMost, WritesAtMost};
ghost use Rattle.std.specs.Io.KnownBytes.{ReadConsumes, WriteAppends, Appends, Keeps};
ghost use Rattle.pnm_image.specs.Devices.{CountsFailure, FailsIn, device_inner, device_failures};

use std::io::{Read, Write};
use thiserror::Error;

/// A call of a device failed.
#[derive(Clone, Copy, Debug, PartialEq, Eq, Error)]
#[error("DeviceFailed")]
pub struct DeviceFailed;

/// A device that gives bytes.
pub trait BytesIn {
    /// The bytes that it will still give, if its contract says which.
    ghost left: { Self → Option (List ℕ) };

    /// How many calls have failed, up to `u64::MAX`.
    ghost failures: { Self → ℕ };

    /// The two are one device at two moments.
    ghost same: { Self → Self → Type 0 };

    /// Reads into the front of the buffer, and returns how many bytes came: 0 only at the end, or if the buffer is
    /// empty. A failed call takes no byte.
    fn read(&mut self, buffer: &mut [u8]) -> Result<usize, DeviceFailed>
        ensures bound { ReadsAtMost result buffer.new }
        ensures bytes { ReadConsumes (left self.old) (left self.new) result buffer.new }
        ensures count { CountsFailure (failures self.old) (failures self.new) result }
        ensures same_device { same self.old self.new };

    /// A device is the same as itself.
    ghost same_at_once: { (a : Self) → same a a };

    /// A device that stays the same over each of two steps stays the same over both.
    ghost same_later: { (a b c : Self) → same a b → same b c → same a c };
}

/// A device that takes bytes.
pub trait BytesOut {
    /// The bytes that it holds, if its contract says which.
    ghost held: { Self → Option (List ℕ) };

    /// How many calls have failed, up to `u64::MAX`.
    ghost failures: { Self → ℕ };

    /// The two are one device at two moments.
    ghost same: { Self → Self → Type 0 };

    /// Writes bytes from the first on, and returns how many it took: at least one, if there is one. A failed call takes
    /// no byte.
    fn write(&mut self, bytes: &[u8]) -> Result<usize, DeviceFailed>
        ensures bound { WritesAtMost result bytes.now }
        ensures some { IfOk result (λ n. 0 < length bytes.now → 0 < n) }
        ensures bytes { WriteAppends (held self.old) (held self.new) result bytes.now }
        ensures count { CountsFailure (failures self.old) (failures self.new) result }
        ensures same_device { same self.old self.new };

    /// Passes on what the device still keeps back.
    fn flush(&mut self) -> Result<(), DeviceFailed>
        ensures bytes { Keeps (held self.old) (held self.new) }
        ensures count { CountsFailure (failures self.old) (failures self.new) result }
        ensures same_device { same self.old self.new };

    /// A device is the same as itself.
    ghost same_at_once: { (a : Self) → same a a };

    /// A device that stays the same over each of two steps stays the same over both.
    ghost same_later: { (a b c : Self) → same a b → same b c → same a c };
}

impl<R: BytesIn> BytesIn for &mut R {
    ghost left = { λ r. R.left r.now };

    ghost failures = { λ r. R.failures r.now };

    ghost same = { λ a b. (b.ghost_name ≡ a.ghost_name) × R.same a.now b.now };

    ghost same_at_once = { λ a. (refl, R.same_at_once a.now) };

    ghost same_later = { λ a b c p q. (q.0 ∙ p.0, R.same_later a.now b.now c.now p.1 q.1) };

    fn read(&mut self, buffer: &mut [u8]) -> Result<usize, DeviceFailed> {
        (**self).read(buffer)
    }
}

impl<W: BytesOut> BytesOut for &mut W {
    ghost held = { λ w. W.held w.now };

    ghost failures = { λ w. W.failures w.now };

    ghost same = { λ a b. (b.ghost_name ≡ a.ghost_name) × W.same a.now b.now };

    ghost same_at_once = { λ a. (refl, W.same_at_once a.now) };

    ghost same_later = { λ a b c p q. (q.0 ∙ p.0, W.same_later a.now b.now c.now p.1 q.1) };

    fn write(&mut self, bytes: &[u8]) -> Result<usize, DeviceFailed> {
        (**self).write(bytes)
    }

    fn flush(&mut self) -> Result<(), DeviceFailed> {
        (**self).flush()
    }
}

/// A std `Read` or `Write` as a device. It says as much of its bytes as `D` does. Each error of `D` is a failure, and
/// so is a write that takes none of its bytes.
#[derive(Debug, Drop)]
pub struct Device<D> {
    inner: D,
    failures: u64,
}

impl<D> Device<D> {
    /// Wraps the reader or writer as a device of which no call has failed.
    pub fn new(inner: D) -> Device<D>
        ensures inner { device_inner result ≡ inner }
        ensures count { device_failures result ≡ 0 }
    {
        Device { inner, failures: 0 }
    }

    /// Returns the reader or writer.
    pub fn into_inner(self) -> D
        ensures { result ≡ device_inner self }
    {
        self.inner
    }

    /// Counts a failure.
    fn fail(&mut self) -> DeviceFailed
        ensures inner { device_inner self.new ≡ device_inner self.old }
        ensures count { device_failures self.new ≡ min (device_failures self.old + 1) (2 ^ 64 - 1) }
    {
        self.failures = self.failures.saturating_add(1);
        DeviceFailed
    }
}

impl<D: Read> BytesIn for Device<D> {
    ghost left = { λ d. D.remaining (device_inner d) };

    ghost failures = { device_failures };

    ghost same = { λ _ _. Unit {0} };

    ghost same_at_once = { λ _. tt };

    ghost same_later = { λ _ _ _ _ _. tt };

    fn read(&mut self, buffer: &mut [u8]) -> Result<usize, DeviceFailed> {
        match self.inner.read(buffer) {
            Ok(count) => Ok(count),
            Err(_) => Err(self.fail()),
        }
    }
}

impl<D: Write> BytesOut for Device<D> {
    ghost held = { λ d. D.contents (device_inner d) };

    ghost failures = { device_failures };

    ghost same = { λ _ _. Unit {0} };

    ghost same_at_once = { λ _. tt };

    ghost same_later = { λ _ _ _ _ _. tt };

    fn write(&mut self, bytes: &[u8]) -> Result<usize, DeviceFailed> {
        match self.inner.write(bytes) {
            Ok(0) if !bytes.is_empty() => Err(self.fail()),
            Ok(count) => Ok(count),
            Err(_) => Err(self.fail()),
        }
    }

    fn flush(&mut self) -> Result<(), DeviceFailed> {
        match self.inner.flush() {
            Ok(()) => Ok(()),
            Err(_) => Err(self.fail()),
        }
    }
}

/// Writes all the bytes. If a write fails, the bytes that were taken before it are a prefix of them.
pub fn write_all<W: BytesOut>(writer: &mut W, bytes: &[u8]) -> Result<(), DeviceFailed>
    ensures written { OnOk result (Appends (W.held writer.old) (W.held writer.new) bytes.now) }
    ensures failed { OnErr result
        (FailsIn bytes.now (W.held writer.old) (W.held writer.new) (W.failures writer.old) (W.failures writer.new)) }
    ensures count { OnOk result (W.failures writer.new ≡ W.failures writer.old) }
    ensures same_device { W.same writer.old writer.new }
{
    let mut rest = bytes;
    while !rest.is_empty() {
        match writer.write(rest) {
            Ok(count) => (_, rest) = rest.split_at(count),
            Err(failed) => return Err(failed),
        }
    }
    Ok(())
}
