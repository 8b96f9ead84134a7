//! Words of a chain's text, and the numbers that they spell.

ghost use Rattle.std.specs.Prelude.{◌≡◌, ◌<◌, ◌∷◌, [], IfSome, MatchOption, length, Some, None, if◌then◌else◌};
ghost use Rattle.pnm_image.specs.Texts.{decimal_value, words};
ghost use Rattle.pnm_chain.specs.Options.{offset_value, spells_number, spells_offset};

use pnm_image::characters::is_white;
use pnm_tools::MAX_EXTENT;

/// Returns the first word of a text, and the text after it. A word is a longest run of bytes that aren't white space:
/// blank, TAB, CR and LF.
pub(crate) fn split_word(text: &[u8]) -> Option<(&[u8], &[u8])>
    ensures first { MatchOption result (words text.now ≡ []) (λ r. words text.now ≡ r.0.now ∷ words r.1.now) }
    ensures shorter { IfSome result (λ r. length r.1.now < length text.now) }
{
    let mut rest = text;
    while let [first, after @ ..] = rest
        && is_white(*first)
    {
        rest = after;
    }
    let mut length = 0;
    while length < rest.len() && !is_white(rest[length]) {
        length += 1;
    }
    if length == 0 {
        return None;
    }
    Some(rest.split_at(length))
}

/// Returns the offset from -`MAX_EXTENT` to `MAX_EXTENT` that the word spells, if it spells one: a number that may have
/// one dash before it.
pub(crate) fn offset(word: &[u8]) -> Option<i32>
    ensures { result ≡ (if spells_offset word.now then Some (offset_value word.now) else None) }
{
    match word {
        [b'-', digits @ ..] => Some(-(number(digits, 0, MAX_EXTENT)? as i32)),
        _ => Some(number(word, 0, MAX_EXTENT)? as i32),
    }
}

/// Returns the number from `least` to `most` that the word spells, if it spells one: digits and nothing else.
pub(crate) fn number(word: &[u8], least: u32, most: u32) -> Option<u32>
    ensures { result ≡ (if spells_number least most word.now then Some (decimal_value word.now) else None) }
{
    let number = decimal(word)?;
    (least <= number && number <= most).then_some(number)
}

/// Returns the number that the word spells, if it spells one that a `u32` holds.
fn decimal(word: &[u8]) -> Option<u32>
    ensures { result ≡ (if spells_number 0 4294967295 word.now then Some (decimal_value word.now) else None) }
{
    // `parse` would take a plus.
    if word.starts_with(b"+") {
        return None;
    }
    str::from_utf8(word).ok()?.parse().ok()
}
