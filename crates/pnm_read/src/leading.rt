//! The samples that bytes of a plain raster begin with, as far as these bytes determine them.
//!
//! Comments, long numbers, faults and a number at the end of the bytes are left to the scanners.

ghost use Rattle.std.specs.Prelude.{◌≡◌, ◌≤◌, ◌<◌, ◌-◌, length, take, true, IfOk, IfSome};
ghost use Rattle.std.specs.List.{AllPass};
ghost use Rattle.std.specs.Str.{byte};
ghost use Rattle.pnm_image.specs.declared.limits.TheConstants.{MAX_MAXVAL};
ghost use Rattle.pnm_image.specs.Texts.{is_white, is_digit};
ghost use Rattle.pnm_read.specs.Items.{plain_sample, plain_pixel, plain_decimal};
ghost use Rattle.pnm_read.specs.Internal.Leading.{IsNumberFirst, TakesSamples};

use crate::decimal::GAP_LIMIT;
use pnm_image::characters::{is_digit, is_white};
use pnm_image::{Kind, Shape};
use std::alloc::AllocError;

/// The greatest number of three digits.
const MOST_OF_THREE: u32 = 999;

/// Appends the samples that the bytes begin with, until the row has `wanted` samples. Returns how many bytes they take.
///
/// # Errors
///
/// If there is no memory for them.
pub fn take_samples(
    bytes: &[u8],
    shape: Shape,
    wanted: usize,
    row: &mut Vec<u16>,
) -> Result<usize, AllocError>
    requires { shape.maxval ≤ MAX_MAXVAL }
    ensures taken { IfOk result
        (TakesSamples (plain_sample shape.kind shape.maxval) bytes.now row.old.items row.new.items) }
    ensures most { IfOk result (λ _. length row.old.items ≤ wanted → length row.new.items ≤ wanted) }
{
    // So no gap in them is too long.
    let bytes = &bytes[..bytes.len().min(GAP_LIMIT)];
    match shape.kind {
        Kind::Bit => take_pixels(bytes, wanted, row),
        Kind::Gray | Kind::Color | Kind::Pam => take_numbers(bytes, shape.maxval, wanted, row),
    }
}

/// Appends the pixels as samples. No branch depends on which of the two a pixel is.
fn take_pixels(bytes: &[u8], wanted: usize, row: &mut Vec<u16>) -> Result<usize, AllocError>
    requires { length bytes.now ≤ GAP_LIMIT }
    ensures taken { IfOk result (TakesSamples plain_pixel bytes.now row.old.items row.new.items) }
    ensures most { IfOk result (λ _. length row.old.items ≤ wanted → length row.new.items ≤ wanted) }
{
    let mut taken = 0;
    for (at, byte) in bytes.iter().enumerate() {
        if row.len() >= wanted {
            break;
        }
        if b'0' <= *byte && *byte <= b'1' {
            row.push(u16::from(b'1' - *byte))?;
            taken = at + 1;
        } else if !is_white(*byte) {
            break;
        }
    }
    Ok(taken)
}

/// Appends the numbers, each of them at most the maxval.
fn take_numbers(
    bytes: &[u8],
    maxval: u32,
    wanted: usize,
    row: &mut Vec<u16>,
) -> Result<usize, AllocError>
    requires maxval { maxval ≤ MAX_MAXVAL }
    requires short { length bytes.now ≤ GAP_LIMIT }
    ensures taken { IfOk result (TakesSamples (plain_decimal maxval) bytes.now row.old.items row.new.items) }
    ensures most { IfOk result (λ _. length row.old.items ≤ wanted → length row.new.items ≤ wanted) }
{
    let mut taken = 0;
    // The byte after a number is known to be white space.
    let mut at = 0;
    while row.len() < wanted {
        let start = at + white_first(&bytes[at..]);
        let Some((sample, count)) = sample_first(&bytes[start..], maxval) else {
            break;
        };
        row.push(sample)?;
        taken = start + count;
        at = taken + 1;
    }
    Ok(taken)
}

/// Returns how many bytes of white space come first.
fn white_first(bytes: &[u8]) -> usize
    ensures within { result ≤ length bytes.now }
    ensures white { AllPass is_white (take result bytes.now) }
{
    for (at, byte) in bytes.iter().enumerate() {
        if !is_white(*byte) {
            return at;
        }
    }
    bytes.len()
}

/// Returns the number up to the maxval that comes first, and how many digits it has.
fn sample_first(bytes: &[u8], maxval: u32) -> Option<(u16, usize)>
    requires { maxval ≤ MAX_MAXVAL }
    ensures number { IfSome result (λ found. IsNumberFirst bytes.now found.0 found.1) }
    ensures most { IfSome result (λ found. found.0 ≤ maxval) }
{
    let (number, count) = if maxval <= MOST_OF_THREE {
        short_number_first(bytes)?
    } else {
        number_first(bytes)?
    };
    if number > maxval {
        return None;
    }
    Some((number as u16, count))
}

/// Returns the number of at most three digits that comes first, if white space follows, and how many digits it has. No
/// branch depends on how many there are, since it couldn't be predicted.
fn short_number_first(bytes: &[u8]) -> Option<(u32, usize)>
    ensures { IfSome result (λ found. IsNumberFirst bytes.now found.0 found.1) }
{
    let [a, b, c, d, ..] = bytes else {
        return None;
    };
    if !is_digit(*a) {
        return None;
    }
    let two = is_digit(*b);
    let three = two & is_digit(*c);
    let more = usize::from(two) + usize::from(three);
    let after = [*b, *c, *d][more];
    if !is_white(after) {
        return None;
    }
    let of_one = digit_value(*a);
    let of_two = of_one * 10 + digit_value(*b);
    let of_three = of_two * 10 + digit_value(*c);
    Some(([of_one, of_two, of_three][more], more + 1))
}

/// Returns the number of at most five digits that comes first, if white space follows, and how many digits it has.
fn number_first(bytes: &[u8]) -> Option<(u32, usize)>
    ensures { IfSome result (λ found. IsNumberFirst bytes.now found.0 found.1) }
{
    let [a, b, c, d, e, f, ..] = bytes else {
        return None;
    };
    if !is_digit(*a) {
        return None;
    }
    let two = is_digit(*b);
    let three = two & is_digit(*c);
    let four = three & is_digit(*d);
    let five = four & is_digit(*e);
    let more = usize::from(two) + usize::from(three) + usize::from(four) + usize::from(five);
    let after = [*b, *c, *d, *e, *f][more];
    if !is_white(after) {
        return None;
    }
    let of_one = digit_value(*a);
    let of_two = of_one * 10 + digit_value(*b);
    let of_three = of_two * 10 + digit_value(*c);
    let of_four = of_three * 10 + digit_value(*d);
    let of_five = of_four * 10 + digit_value(*e);
    let number = [of_one, of_two, of_three, of_four, of_five][more];
    Some((number, more + 1))
}

/// Returns the value of a digit. The result for any other byte means nothing.
fn digit_value(digit: u8) -> u32
    ensures within { result < 256 }
    ensures value { is_digit digit ≡ true → result ≡ digit - byte "0" }
{
    u32::from(digit.wrapping_sub(b'0'))
}
