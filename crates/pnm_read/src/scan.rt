//! Scanners, which judge a piece of a text byte by byte: a header, or a sample of a plain raster.

ghost use Rattle.std.specs.Prelude.{◌≡◌, ◌<◌, ◌≤◌, ◌+◌, ℕ, Bool, true, List, Option, IfOk, IfSome, IfNone, Some, Err};
ghost use Rattle.std.specs.Prelude.{length};
ghost use Rattle.pnm_read.specs.declared.fault.InputFault.{InputFault as Fault};
ghost use Rattle.pnm_read.specs.declared.scan_status.ScanStatus.{ScanStatus as StatusValue};
ghost use Rattle.pnm_read.specs.declared.scan_status.ScanStatus.TheVariants.{GoesOn, Fails};
ghost use Rattle.pnm_read.specs.declared.fault.InputFault.TheVariants.{ReadFailed, Memory};
ghost use Rattle.pnm_read.specs.Internal.Scans.{JudgesByte, JudgesEnd, Feeds, Scans};
ghost use Rattle.pnm_read.specs.Internal.BufferedReaders.{ReadCall};

use crate::buffered_reader::BufferedReader;
use crate::fault::InputFault;
use crate::scan_status::ScanStatus;
use pnm_image::BytesIn;

/// Takes the bytes of a piece one by one.
pub trait Scanner {
    /// The judgement of a byte, by the bytes of the piece before it.
    ghost item: { Self → List ℕ → ℕ → StatusValue };

    /// The fault, if any, of a text that ends after these bytes of the piece.
    ghost at_end: { Self → List ℕ → Option Fault };

    /// These bytes of the piece were taken.
    ghost is_after: { Self → List ℕ → Type 0 };

    /// The piece has ended, and these are its bytes.
    ghost is_whole: { Self → List ℕ → Type 0 };

    /// The most bytes that can still come.
    ghost remaining: { Self → ℕ };

    /// Whether it keeps bytes that it took, for which memory may run out.
    ghost keeps_bytes: { Bool };

    /// Judges the next byte, and takes it if it belongs to the piece.
    fn take(&mut self, byte: u8) -> ScanStatus
        ensures judged { JudgesByte (item self.old) (is_after self.old) (is_after self.new) (is_whole self.new) byte
            result }
        ensures same_items { item self.new ≡ item self.old }
        ensures same_end { at_end self.new ≡ at_end self.old }
        ensures remaining { result ≡ GoesOn → remaining self.new < remaining self.old }
        ensures of_text { result ≡ Fails ReadFailed → ⊥ }
        ensures memory { result ≡ Fails Memory → keeps_bytes ≡ true };

    /// Returns the fault, if any, of a text that ends here.
    fn end(&self) -> Option<InputFault>
        ensures judged { JudgesEnd (at_end self.now) (is_after self.now) (is_whole self.now) result }
        ensures of_text { result ≡ Some ReadFailed → ⊥ };
}

/// Gives the scanner bytes of the input until its piece ends, and reads more when they run out.
pub fn scan<R: BytesIn, S: Scanner>(
    input: &mut BufferedReader<R>,
    scanner: &mut S,
) -> Result<(), InputFault>
    ensures { ReadCall R.left R.failures R.same input.old input.new result
        (Scans (S.item scanner.old) (S.at_end scanner.old) (S.is_after scanner.old) (S.is_whole scanner.new) result) }
{
    loop {
        input.fill(1)?;
        let bytes = input.bytes();
        if bytes.is_empty() {
            return match scanner.end() {
                Some(fault) => Err(fault),
                None => Ok(()),
            };
        }
        let held = bytes.len();
        match feed(scanner, bytes)? {
            Some(taken) => {
                input.advance(taken);
                return Ok(());
            }
            None => input.advance(held),
        }
    }
}

/// Gives the scanner these bytes until its piece ends. Returns how many it took, or `None` if the piece goes on after
/// them.
pub fn feed<S: Scanner>(scanner: &mut S, bytes: &[u8]) -> Result<Option<usize>, InputFault>
    ensures fed { Feeds (S.item scanner.old) (S.at_end scanner.old) (S.is_after scanner.old) (S.is_after scanner.new)
        (S.is_whole scanner.new) bytes.now result }
    ensures taken { IfOk result (λ ended. IfSome ended (λ taken. taken ≤ length bytes.now)) }
    ensures of_text { result ≡ Err ReadFailed → ⊥ }
    ensures same_items { S.item scanner.new ≡ S.item scanner.old }
    ensures same_end { S.at_end scanner.new ≡ S.at_end scanner.old }
    ensures remaining { IfOk result
        (λ ended. IfNone ended (S.remaining scanner.new + length bytes.now ≤ S.remaining scanner.old)) }
{
    for (taken, byte) in bytes.iter().enumerate() {
        match scanner.take(*byte) {
            ScanStatus::GoesOn => {}
            ScanStatus::EndsWith => return Ok(Some(taken + 1)),
            ScanStatus::EndsBefore => return Ok(Some(taken)),
            ScanStatus::Fails(fault) => return Err(fault),
        }
    }
    Ok(None)
}
