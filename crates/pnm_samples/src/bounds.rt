//! The greatest sample of a row.

ghost use Rattle.std.specs.Prelude.{◌≤◌, ◌↔◌, All, IsTrue};

/// The greatest number that a byte can be.
pub(crate) const GREATEST_BYTE: u32 = 255;

/// The greatest number that a word can be.
pub(crate) const GREATEST_WORD: u32 = 65_535;

/// Returns the greatest byte, or 0 if there is none. The loop goes over all bytes, so that it is vector code.
pub fn greatest_byte(bytes: &[u8]) -> u8
    ensures { (most : _) → (result ≤ most) ↔ All (λ sample. sample ≤ most) bytes.now }
{
    let mut greatest = 0;
    for byte in bytes {
        greatest = (*byte).max(greatest);
    }
    greatest
}

/// Returns the greatest sample, or 0 if there is none. The loop goes over all samples, so that it is vector code.
pub fn greatest(row: &[u16]) -> u16
    ensures { (most : _) → (result ≤ most) ↔ All (λ sample. sample ≤ most) row.now }
{
    let mut greatest = 0;
    for sample in row {
        greatest = (*sample).max(greatest);
    }
    greatest
}

/// Returns whether no byte is above `most`. It looks at no byte if none can be above it.
pub fn are_bytes_within(bytes: &[u8], most: u32) -> bool
    ensures { IsTrue result ↔ All (λ sample. sample ≤ most) bytes.now }
{
    most >= GREATEST_BYTE || u32::from(greatest_byte(bytes)) <= most
}

/// Returns whether no word is above `most`. It looks at no word if none can be above it.
pub fn are_words_within(words: &[u16], most: u32) -> bool
    ensures { IsTrue result ↔ All (λ sample. sample ≤ most) words.now }
{
    most >= GREATEST_WORD || u32::from(greatest(words)) <= most
}
