//! A sample of a plain PGM or PPM raster, from pgm(5) and ppm(5), 'Plain PGM' and 'Plain PPM'.

ghost use Rattle.std.specs.Prelude.{◌≡◌, ◌<◌, ◌≤◌, ◌-◌, [], ◌&&◌};
ghost use Rattle.pnm_read.specs.declared.scan_status.ScanStatus.TheVariants.{GoesOn, Fails};
ghost use Rattle.pnm_read.specs.declared.fault.InputFault.TheVariants.{ReadFailed, Memory};
ghost use Rattle.pnm_image.specs.Texts.{is_digit};
ghost use Rattle.pnm_read.specs.declared.decimal.TheConstants.{GAP_LIMIT};

use crate::comments::{commented, is_apart};
use crate::fault::InputFault;
use crate::scan::Scanner;
use crate::scan_status::ScanStatus;
use pnm_image::characters::is_digit;

/// The most bytes from after a sample's last digit, or after the header, through the last digit of the next sample.
pub const GAP_LIMIT: usize = 1_048_576;

/// A scanner of a number and the gap before it.
#[derive(Drop)]
pub struct DecimalScanner {
    /// The number that the digits so far spell; it stops at `u32::MAX`.
    value: u32,
    /// Whether the last byte is a digit, outside comments.
    in_number: bool,
    in_comment: bool,
    /// The number of bytes so far.
    length: usize,
    ghost short: { length ≤ GAP_LIMIT },
}

impl DecimalScanner {
    ghost use Rattle.pnm_read.specs.Internal.Scanners.{IsDecimalAfter, JudgesDecimal, PushesDecimal};

    /// Creates a scanner before its first byte.
    pub fn new() -> DecimalScanner
        ensures { IsDecimalAfter result [] }
    {
        DecimalScanner {
            value: 0,
            in_number: false,
            in_comment: false,
            length: 0,
        }
    }

    /// Returns the number that the digits so far spell, at most `u32::MAX`.
    pub fn value(&self) -> u32
        ensures { result ≡ self.now.value }
    {
        self.value
    }

    /// Judges the next byte.
    #[tactic(auto, unfolding(crate::specs::Items::decimal_item))]
    fn judge(&self, byte: u8) -> ScanStatus
        ensures judged { JudgesDecimal self.now byte result }
        ensures short { result ≡ GoesOn → self.now.length < GAP_LIMIT }
        ensures of_text { result ≡ Fails ReadFailed → ⊥ }
        ensures no_memory { result ≡ Fails Memory → ⊥ }
    {
        let is_complete = self.in_number && !is_digit(byte);
        if self.length >= GAP_LIMIT && !is_complete {
            ScanStatus::Fails(InputFault::TooLong)
        } else if !self.in_comment && !(is_digit(byte) || is_apart(byte)) {
            ScanStatus::Fails(InputFault::BadSample)
        } else if is_complete {
            ScanStatus::EndsBefore
        } else {
            ScanStatus::GoesOn
        }
    }

    /// Takes a byte that continues the number or the gap before it.
    fn push(&mut self, byte: u8)
        requires { self.old.length < GAP_LIMIT }
        ensures { PushesDecimal self.old byte self.new }
    {
        self.in_number = !self.in_comment && is_digit(byte);
        if self.in_number {
            self.value = self
                .value
                .saturating_mul(10)
                .saturating_add(u32::from(byte - b'0'));
        }
        self.in_comment = commented(self.in_comment, byte);
        self.length += 1;
    }
}

impl Scanner for DecimalScanner {
    ghost use Rattle.std.specs.Prelude.{false};
    ghost use Rattle.pnm_read.specs.Items.{decimal_item, decimal_end};
    ghost use Rattle.pnm_read.specs.Internal.Scanners.{IsDecimalAfter, IsDecimalWhole};

    ghost item = { λ s. decimal_item };

    ghost at_end = { λ s. decimal_end };

    ghost is_after = { IsDecimalAfter };

    ghost is_whole = { IsDecimalWhole };

    ghost remaining = { λ s. GAP_LIMIT - s.length };

    ghost keeps_bytes = { false };

    fn take(&mut self, byte: u8) -> ScanStatus {
        let scan_status = self.judge(byte);
        if scan_status == ScanStatus::GoesOn {
            self.push(byte);
        }
        scan_status
    }

    fn end(&self) -> Option<InputFault> {
        if self.in_number {
            None
        } else {
            Some(InputFault::RasterCut)
        }
    }
}
