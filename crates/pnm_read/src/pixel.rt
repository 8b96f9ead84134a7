//! A pixel of a plain PBM raster, from pbm(5), 'Plain PBM'.

ghost use Rattle.std.specs.Prelude.{◌≡◌, ◌<◌, ◌≤◌, ◌-◌, []};
ghost use Rattle.pnm_read.specs.declared.scan_status.ScanStatus.TheVariants.{GoesOn, Fails};
ghost use Rattle.pnm_read.specs.declared.fault.InputFault.TheVariants.{ReadFailed, Memory};
ghost use Rattle.pnm_read.specs.declared.decimal.TheConstants.{GAP_LIMIT};

use crate::comments::{commented, is_apart};
use crate::decimal::GAP_LIMIT;
use crate::fault::InputFault;
use crate::scan::Scanner;
use crate::scan_status::ScanStatus;

/// A scanner of a pixel and the gap before it.
#[derive(Drop)]
pub struct PixelScanner {
    /// The pixel as a sample, once it has come: 0 for black, 1 for white.
    pixel: u16,
    in_comment: bool,
    /// The number of bytes of the gap so far.
    length: usize,
    ghost short: { length ≤ GAP_LIMIT },
}

impl PixelScanner {
    ghost use Rattle.pnm_read.specs.Internal.Scanners.{IsPixelAfter, JudgesPixel};

    /// Creates a scanner before its first byte.
    pub fn new() -> PixelScanner
        ensures { IsPixelAfter result [] }
    {
        PixelScanner {
            pixel: 0,
            in_comment: false,
            length: 0,
        }
    }

    /// Returns the pixel as a sample, once it has come.
    pub fn pixel(&self) -> u16
        ensures { result ≡ self.now.pixel }
    {
        self.pixel
    }

    /// Judges the next byte.
    #[tactic(auto, unfolding(crate::specs::Items::pixel_item))]
    fn judge(&self, byte: u8) -> ScanStatus
        ensures judged { JudgesPixel self.now byte result }
        ensures short { result ≡ GoesOn → self.now.length < GAP_LIMIT }
        ensures of_text { result ≡ Fails ReadFailed → ⊥ }
        ensures no_memory { result ≡ Fails Memory → ⊥ }
    {
        let is_pixel = byte == b'0' || byte == b'1';
        if self.length >= GAP_LIMIT {
            ScanStatus::Fails(InputFault::TooLong)
        } else if !self.in_comment && !(is_pixel || is_apart(byte)) {
            ScanStatus::Fails(InputFault::BadSample)
        } else if !self.in_comment && is_pixel {
            ScanStatus::EndsWith
        } else {
            ScanStatus::GoesOn
        }
    }
}

impl Scanner for PixelScanner {
    ghost use Rattle.std.specs.Prelude.{false};
    ghost use Rattle.pnm_read.specs.Items.{pixel_item, pixel_end};
    ghost use Rattle.pnm_read.specs.Internal.Scanners.{IsPixelAfter, IsPixelWhole};

    ghost item = { λ s. pixel_item };

    ghost at_end = { λ s. pixel_end };

    ghost is_after = { IsPixelAfter };

    ghost is_whole = { IsPixelWhole };

    ghost remaining = { λ s. GAP_LIMIT - s.length };

    ghost keeps_bytes = { false };

    fn take(&mut self, byte: u8) -> ScanStatus {
        let scan_status = self.judge(byte);
        match scan_status {
            ScanStatus::GoesOn => {
                self.in_comment = commented(self.in_comment, byte);
                self.length += 1;
            }
            ScanStatus::EndsWith => self.pixel = u16::from(byte == b'0'),
            ScanStatus::EndsBefore | ScanStatus::Fails(_) => {}
        }
        scan_status
    }

    fn end(&self) -> Option<InputFault> {
        Some(InputFault::RasterCut)
    }
}
