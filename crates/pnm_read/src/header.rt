//! The magic and the header of an image, from pbm(5), pgm(5) and ppm(5); PAM's is in a file of its own.

ghost use Rattle.std.specs.Prelude.{◌≡◌, ◌≤◌, ◌<◌, ◌==◌, ◌-◌, [], List, ℕ, Some, ◌&&◌, ◌||◌};
ghost use Rattle.pnm_read.specs.declared.scan_status.ScanStatus.TheVariants.{GoesOn, Fails};
ghost use Rattle.pnm_read.specs.declared.fault.InputFault.TheVariants.{ReadFailed, Memory};
ghost use Rattle.pnm_read.specs.declared.header.TheConstants.{HEADER_LIMIT};
ghost use Rattle.pnm_read.specs.HeaderTexts.{is_apart};
ghost use Rattle.pnm_image.specs.Texts.{is_digit};
ghost use Rattle.pnm_read.specs.HeaderNumbers.{number_count, planes};
ghost use Rattle.pnm_read.specs.Items.{fault_of_head, numbers_item};
ghost use Rattle.pnm_read.specs.Said.{format_at, pnm_head_at, head_at};
ghost use Rattle.pnm_read.specs.Internal.BufferedReaders.{ReadCall, Finds};
ghost use Rattle.pnm_read.specs.Internal.Magics.{format_named};
ghost use Rattle.pnm_read.specs.Internal.ImageSizes.{FindsIn};
ghost use Rattle.pnm_read.specs.Internal.Saturation.{IsNumbers, GivesInMemory};

use crate::buffered_reader::BufferedReader;
use crate::comments::{commented, is_apart};
use crate::fault::InputFault;
use crate::pam;
use crate::scan::{Scanner, feed, scan};
use crate::scan_status::ScanStatus;
use pnm_image::characters::{is_digit, is_white};
use pnm_image::{BytesIn, Format, Head, HeadFault, Kind, Shape};
use std::alloc::Global;

/// The most bytes of a header, including its magic.
pub const MAX_HEADER_LENGTH: usize = 65_536;

/// The most bytes of a header after its magic.
const HEADER_LIMIT: usize = MAX_HEADER_LENGTH - 2;

/// Reads the format that the input's magic names. Its fault is the text's fault there, or `ReadFailed`. A plain format
/// may only come first.
pub fn read_format<R: BytesIn>(
    input: &mut BufferedReader<R>,
    is_first: bool,
) -> Result<Format, InputFault>
    ensures { ReadCall R.left R.failures R.same input.old input.new result (Finds (format_at is_first) result) }
{
    match input.next_byte()? {
        Some(b'P') => {}
        Some(_) => return Err(InputFault::BadMagic),
        None => return Err(InputFault::EmptyInput),
    }
    match input.next_byte()? {
        Some(byte) => format_named(byte, is_first),
        None => Err(InputFault::HeaderCut),
    }
}

/// Returns the format that the second byte of a magic names. A plain format may only come first.
pub fn format_named(byte: u8, is_first: bool) -> Result<Format, InputFault>
    ensures { result ≡ format_named is_first byte }
{
    let Some(format) = Format::of(byte) else {
        return Err(InputFault::BadMagic);
    };
    if format.is_plain() && !is_first {
        return Err(InputFault::PlainInStream);
    }
    Ok(format)
}

/// Reads the head that follows the magic, through the header's last byte. Its fault is the text's fault there,
/// `ReadFailed` or `Memory`.
pub fn read_head<R: BytesIn>(
    input: &mut BufferedReader<R>,
    format: Format,
) -> Result<Head, InputFault>
    ensures { ReadCall R.left R.failures R.same input.old input.new result (Finds (head_at format) result) }
{
    match format.kind {
        Kind::Bit | Kind::Gray | Kind::Color => read_pnm_head(input, format.kind),
        Kind::Pam => pam::read_head(input),
    }
}

/// Finds the head in these bytes, which follow the magic, and how many of them the header takes. Returns `None` if the
/// header goes on after them. A fault of the header is that of any text which begins so.
pub fn head_in(
    alloc: Global,
    format: Format,
    bytes: &[u8],
) -> Result<Option<(Head, usize)>, InputFault>
    ensures { FindsIn (head_at format) bytes.now result }
{
    match format.kind {
        Kind::Bit | Kind::Gray | Kind::Color => pnm_head_in(alloc, format.kind, bytes),
        Kind::Pam => pam::head_in(alloc, bytes),
    }
}

/// Does the same for PBM, PGM and PPM.
fn pnm_head_in(alloc: Global, kind: Kind, bytes: &[u8]) -> Result<Option<(Head, usize)>, InputFault>
    ensures { FindsIn (pnm_head_at kind) bytes.now result }
{
    let mut header = HeaderScanner::new(number_count(kind));
    let Some(taken) = feed(&mut header, bytes)? else {
        return Ok(None);
    };
    let head = head_of(alloc, kind, header.numbers)?;
    Ok(Some((head, taken)))
}

/// Returns whether these bytes, with which an image begins, determine its header, or the fault there.
pub fn is_complete(bytes: &[u8], is_first: bool) -> bool {
    match bytes {
        [] | [b'P'] => false,
        [b'P', byte, rest @ ..] => match format_named(*byte, is_first) {
            Ok(format) => ends_within(format.kind, rest),
            Err(_) => true,
        },
        _ => true,
    }
}

/// Returns whether the header of an image of this kind ends within these bytes, which follow its magic, or has its
/// fault there.
fn ends_within(kind: Kind, bytes: &[u8]) -> bool {
    match kind {
        Kind::Bit | Kind::Gray | Kind::Color => {
            let wanted = number_count(kind);
            let mut header = HeaderScanner::new(wanted);
            has_numbers(wanted, bytes) || !matches!(feed(&mut header, bytes), Ok(None))
        }
        Kind::Pam => pam::has_last_line(bytes),
    }
}

/// Returns whether these bytes begin with `wanted` numbers, each with white space after it and nothing but white space
/// before it. Most headers are found whole like this, in less time than a scanner takes.
fn has_numbers(wanted: usize, bytes: &[u8]) -> bool {
    let mut missing = wanted;
    let mut in_number = false;
    for byte in bytes {
        if is_digit(*byte) {
            in_number = true;
        } else if !is_white(*byte) {
            return false;
        } else if in_number {
            in_number = false;
            missing = missing.saturating_sub(1);
            if missing == 0 {
                return true;
            }
        }
    }
    false
}

/// Reads the head of PBM, PGM or PPM, through the last byte of its header, the delimiter.
fn read_pnm_head<R: BytesIn>(input: &mut BufferedReader<R>, kind: Kind) -> Result<Head, InputFault>
    ensures { ReadCall R.left R.failures R.same input.old input.new result (Finds (pnm_head_at kind) result) }
{
    let mut header = HeaderScanner::new(number_count(kind));
    scan(input, &mut header)?;
    head_of(input.allocator(), kind, header.numbers)
}

/// Makes the head of these numbers, or returns what is wrong with them. PBM has only the last two.
fn head_of(alloc: Global, kind: Kind, numbers: [u32; 3]) -> Result<Head, InputFault>
    ensures { (found : List ℕ) → IsNumbers (number_count kind) found numbers
        → GivesInMemory result (numbers_item kind found) }
{
    let [first, second, third] = numbers;
    let (width, height, maxval) = match kind {
        Kind::Bit => (second, third, 1),
        Kind::Gray | Kind::Color | Kind::Pam => (first, second, third),
    };
    let shape = Shape {
        kind,
        width,
        height,
        depth: planes(kind),
        maxval,
    };
    Head::new(alloc, shape, b"").map_err(fault_of_head)
}

/// Returns what is wrong with a head.
pub fn fault_of_head(fault: HeadFault) -> InputFault
    ensures { result ≡ fault_of_head fault }
{
    match fault {
        HeadFault::ZeroSize => InputFault::ZeroSize,
        HeadFault::TooLarge => InputFault::TooLarge,
        HeadFault::BadMaxval => InputFault::BadMaxval,
        HeadFault::Memory => InputFault::Memory,
    }
}

/// A scanner of a header of PBM, PGM or PPM after its magic.
#[derive(Drop)]
struct HeaderScanner {
    /// How many numbers the header has.
    wanted: usize,
    /// How many numbers have begun.
    found: usize,
    /// The last three numbers, 0 for one that hasn't come; each stops at `u32::MAX`.
    numbers: [u32; 3],
    /// Whether the last byte outside comments is a digit.
    in_number: bool,
    in_comment: bool,
    /// The number of bytes so far.
    length: usize,
    ghost short: { length ≤ HEADER_LIMIT },
    ghost begun: { found ≤ length },
}

impl HeaderScanner {
    ghost use Rattle.pnm_read.specs.Internal.Scanners.{IsHeaderFresh, JudgesHeader, PushesHeader, PushesDigit};
    ghost use Rattle.pnm_read.specs.Internal.Scanners.{is_bad_after};

    /// Creates a scanner before the first byte, for a header of `wanted` numbers.
    fn new(wanted: usize) -> HeaderScanner
        ensures { IsHeaderFresh wanted result }
    {
        HeaderScanner {
            wanted,
            found: 0,
            numbers: [0; 3],
            in_number: false,
            in_comment: false,
            length: 0,
        }
    }

    /// Judges the next byte.
    #[tactic(auto, unfolding(crate::specs::Items::header_item))]
    fn judge(&self, byte: u8) -> ScanStatus
        ensures judged { JudgesHeader self.now byte result }
        ensures short { result ≡ GoesOn → self.now.length < HEADER_LIMIT }
        ensures of_text { result ≡ Fails ReadFailed → ⊥ }
        ensures no_memory { result ≡ Fails Memory → ⊥ }
    {
        if self.length >= HEADER_LIMIT {
            ScanStatus::Fails(InputFault::TooLong)
        } else if self.is_bad(byte) {
            ScanStatus::Fails(InputFault::BadNumber)
        } else if !self.in_comment && is_white(byte) && self.found == self.wanted {
            ScanStatus::EndsWith
        } else {
            ScanStatus::GoesOn
        }
    }

    /// Returns whether the byte can't come here.
    fn is_bad(&self, byte: u8) -> bool
        ensures { result ≡ is_bad_after self.now byte }
    {
        (self.length == 0 && !is_apart(byte))
            || (!self.in_comment && !(is_digit(byte) || is_apart(byte)))
    }

    /// Takes a byte that continues the header.
    fn push(&mut self, byte: u8)
        requires { self.old.length < HEADER_LIMIT }
        ensures { PushesHeader self.old byte self.new }
    {
        self.length += 1;
        if !self.in_comment {
            if is_digit(byte) {
                self.push_digit(byte - b'0');
            } else if is_white(byte) {
                self.in_number = false;
            }
        }
        self.in_comment = commented(self.in_comment, byte);
    }

    /// Takes the value of a number's next digit.
    fn push_digit(&mut self, digit: u8)
        requires { self.old.found < self.old.length }
        ensures { PushesDigit self.old digit self.new }
    {
        if !self.in_number {
            self.in_number = true;
            self.found += 1;
            self.numbers = [self.numbers[1], self.numbers[2], 0];
        }
        self.numbers[2] = self.numbers[2]
            .saturating_mul(10)
            .saturating_add(u32::from(digit));
    }
}

impl Scanner for HeaderScanner {
    ghost use Rattle.std.specs.Prelude.{false};
    ghost use Rattle.pnm_read.specs.Items.{header_item, header_end};
    ghost use Rattle.pnm_read.specs.Internal.Scanners.{IsHeaderAfter, IsHeaderWhole};

    ghost item = { λ s. header_item s.wanted };

    ghost at_end = { λ s. header_end };

    ghost is_after = { IsHeaderAfter };

    ghost is_whole = { IsHeaderWhole };

    ghost remaining = { λ s. HEADER_LIMIT - s.length };

    ghost keeps_bytes = { false };

    fn take(&mut self, byte: u8) -> ScanStatus {
        let scan_status = self.judge(byte);
        if scan_status == ScanStatus::GoesOn {
            self.push(byte);
        }
        scan_status
    }

    fn end(&self) -> Option<InputFault> {
        Some(InputFault::HeaderCut)
    }
}

/// Returns how many numbers a PNM header has: the width, the height and, except for PBM, the maxval.
pub fn number_count(kind: Kind) -> usize
    ensures { result ≡ number_count kind }
{
    match kind {
        Kind::Bit => 2,
        Kind::Gray | Kind::Color | Kind::Pam => 3,
    }
}

/// Returns the planes of an image of PBM, PGM or PPM.
pub fn planes(kind: Kind) -> u32
    ensures { result ≡ planes kind }
{
    match kind {
        Kind::Color => 3,
        Kind::Bit | Kind::Gray | Kind::Pam => 1,
    }
}
