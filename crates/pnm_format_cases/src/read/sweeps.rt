//! What a source answers to many texts that differ a little: how many they are, and the CRC-32 of the answers.

use super::answers::write_whole;
use pnm_test_support::{Sweep, cut_word, named};
use std::alloc::{AllocError, Global};

/// Bytes that mean something, and bytes next to them.
const TELLING: &[u8] =
    b"\x00\x01\x08\t\n\x0b\x0c\r\x0e !\"#$/0123456789:PQx~\x7f\x80\x85\xa0\xfe\xff";

/// Bytes that mean something in a plain raster.
const PLAIN: &[u8] = b" \n#0159:/x";

const SETS: &[(&[u8], &[u8])] = &[(b"telling", TELLING), (b"plain", PLAIN)];

/// Adds the answers to a text.
pub fn add_text(alloc: Global, sweep: &mut Sweep, text: &[u8]) -> Result<(), AllocError> {
    let mut answers = String::new(alloc);
    write_whole(alloc, text, &mut answers)?;
    sweep.add(answers.as_str());
    Ok(())
}

/// The bytes of a set: all unless it is named otherwise.
pub fn set_of(alloc: Global, word: &[u8]) -> Result<Vec<u8>, AllocError> {
    match named(SETS, word) {
        Some(set) => Vec::from_slice(alloc, set),
        None => (0..=u8::MAX).collect(alloc),
    }
}

/// Adds the answers to a text with `replaced` of its bytes replaced by each byte of a set, at every place: if
/// `replaced` is 1, in place of each byte; if it is 0, before each byte and after the last.
pub fn write_sweep(
    alloc: Global,
    line: &[u8],
    replaced: usize,
    out: &mut String,
) -> Result<(), AllocError> {
    let (word, text) = cut_word(line);
    let set = set_of(alloc, word)?;
    let mut sweep = Sweep::new();
    for at in 0..=text.len().saturating_sub(replaced) {
        let (prefix, rest) = text.split_at(at.min(text.len()));
        let suffix = rest.get(replaced..).unwrap_or(&[]);
        add_each(alloc, &mut sweep, set.as_slice(), prefix, suffix)?;
    }
    sweep.solve(out)
}

/// Adds the prefix and the suffix with each of these bytes between them.
pub fn add_each(
    alloc: Global,
    sweep: &mut Sweep,
    set: &[u8],
    prefix: &[u8],
    suffix: &[u8],
) -> Result<(), AllocError> {
    for byte in set {
        let mut text = Vec::from_slice(alloc, prefix)?;
        text.push(*byte)?;
        text.extend_from_slice(suffix)?;
        add_text(alloc, sweep, text.as_slice())?;
    }
    Ok(())
}
