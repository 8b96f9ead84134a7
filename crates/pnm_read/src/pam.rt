//! The header of a PAM image, from pam(5), 'The layout'.

ghost use Rattle.std.specs.Prelude.{◌≤◌, ◌-◌, []};
ghost use Rattle.pnm_read.specs.declared.pam.TheConstants.{PAM_LIMIT};
ghost use Rattle.pnm_read.specs.Items.{line_feed_item};
ghost use Rattle.pnm_read.specs.Said.{pam_head_at};
ghost use Rattle.pnm_read.specs.Internal.ImageSizes.{FindsIn};
ghost use Rattle.pnm_read.specs.Internal.BufferedReaders.{ReadCall, Finds, Passes};

use crate::buffered_reader::BufferedReader;
use crate::fault::InputFault;
use crate::fields::{Fields, head_of};
use crate::header::MAX_HEADER_LENGTH;
use crate::line::{LineKind, split_token};
use crate::scan::{Scanner, feed, scan};
use crate::scan_status::ScanStatus;
use pnm_image::{BytesIn, Head};
use std::alloc::Global;

/// The most bytes of a header after its magic and the LF.
const PAM_LIMIT: usize = MAX_HEADER_LENGTH - 3;

/// Reads the head that follows the magic, through the LF of its line ENDHDR. Its fault is the text's fault there,
/// `ReadFailed` or `Memory`.
#[tactic(auto, unfolding(crate::specs::Said::pam_head_at))]
pub fn read_head<R: BytesIn>(input: &mut BufferedReader<R>) -> Result<Head, InputFault>
    ensures { ReadCall R.left R.failures R.same input.old input.new result (Finds pam_head_at result) }
{
    read_line_feed(input)?;
    let mut header = PamScanner::new(input.allocator());
    scan(input, &mut header)?;
    head_of(input.allocator(), header.fields)
}

/// Finds the head in these bytes, which follow the magic, and how many of them the header takes. Returns `None` if the
/// header goes on after them.
pub fn head_in(alloc: Global, bytes: &[u8]) -> Result<Option<(Head, usize)>, InputFault>
    ensures { FindsIn pam_head_at bytes.now result }
{
    let [first, lines @ ..] = bytes else {
        return Ok(None);
    };
    if *first != b'\n' {
        return Err(InputFault::BadPamLine);
    }
    let mut header = PamScanner::new(alloc);
    let Some(taken) = feed(&mut header, lines)? else {
        return Ok(None);
    };
    let head = head_of(alloc, header.fields)?;
    Ok(Some((head, 1 + taken)))
}

/// Returns whether a header ends within these bytes, which follow its magic: by its last line, or by a line of an
/// unknown name.
pub fn has_last_line(bytes: &[u8]) -> bool {
    let mut start = 0;
    for (end, byte) in bytes.iter().enumerate() {
        if *byte == b'\n' {
            let (token, _) = split_token(&bytes[start..end]);
            if matches!(LineKind::of(token), LineKind::End | LineKind::Unknown) {
                return true;
            }
            start = end + 1;
        }
    }
    false
}

/// Reads the LF after the magic.
#[tactic(auto, unfolding(crate::specs::Items::line_feed_item))]
fn read_line_feed<R: BytesIn>(input: &mut BufferedReader<R>) -> Result<(), InputFault>
    ensures { ReadCall R.left R.failures R.same input.old input.new result (Passes line_feed_item result) }
{
    match input.next_byte()? {
        Some(b'\n') => Ok(()),
        Some(_) => Err(InputFault::BadPamLine),
        None => Err(InputFault::HeaderCut),
    }
}

/// A scanner of a header after its magic and the LF. It judges a line once the line has ended.
#[derive(Drop)]
struct PamScanner {
    /// The line that hasn't ended.
    line: Vec<u8>,
    /// What the lines before it say.
    fields: Fields,
    /// The number of bytes so far.
    length: usize,
    ghost short: { length ≤ PAM_LIMIT },
}

impl PamScanner {
    ghost use Rattle.pnm_read.specs.Internal.PamScanners.{IsPamAfter};

    /// Creates a scanner before the first byte.
    fn new(alloc: Global) -> PamScanner
        ensures { IsPamAfter result [] }
    {
        PamScanner {
            line: Vec::new(alloc),
            fields: Fields::new(alloc),
            length: 0,
        }
    }
}

impl Scanner for PamScanner {
    ghost use Rattle.std.specs.Prelude.{true};
    ghost use Rattle.pnm_read.specs.Items.{pam_item, header_end};
    ghost use Rattle.pnm_read.specs.Internal.PamScanners.{IsPamAfter, IsPamWhole};

    ghost item = { λ s. pam_item };

    ghost at_end = { λ s. header_end };

    ghost is_after = { IsPamAfter };

    ghost is_whole = { IsPamWhole };

    ghost remaining = { λ s. PAM_LIMIT - s.length };

    ghost keeps_bytes = { true };

    #[tactic(auto, unfolding(crate::specs::Items::pam_item))]
    fn take(&mut self, byte: u8) -> ScanStatus {
        if self.length >= PAM_LIMIT {
            return ScanStatus::Fails(InputFault::TooLong);
        }
        self.length += 1;
        if byte == b'\n' {
            let scan_status = self.fields.take(&self.line);
            self.line.clear();
            scan_status
        } else if self.line.push(byte).is_err() {
            ScanStatus::Fails(InputFault::Memory)
        } else {
            ScanStatus::GoesOn
        }
    }

    fn end(&self) -> Option<InputFault> {
        Some(InputFault::HeaderCut)
    }
}
