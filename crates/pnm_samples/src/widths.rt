//! Samples held as wide as they have to be, in another width.

ghost use Rattle.std.specs.Prelude.{◌≡◌, ◌≤◌, All, IfOk};

use std::alloc::{AllocError, Global};

/// Returns words, each at most 255, as bytes, a byte per sample.
///
/// # Errors
/// If there is no memory for them.
pub fn words_to_bytes(alloc: Global, words: &[u16]) -> Result<Vec<u8>, AllocError>
    requires { All (λ sample. sample ≤ 255) words.now }
    ensures { IfOk result (λ bytes. bytes.items ≡ words.now) }
{
    let mut bytes = Vec::from_elem(alloc, 0, words.len())?;
    for at in 0..words.len() {
        bytes[at] = words[at] as u8;
    }
    Ok(bytes)
}

/// Returns bytes as words, a word per sample. The vector gets all its memory first, so that nothing asks for more if
/// there is none.
///
/// # Errors
/// If there is no memory for them.
pub fn bytes_to_words(alloc: Global, bytes: &[u8]) -> Result<Vec<u16>, AllocError>
    ensures { IfOk result (λ words. words.items ≡ bytes.now) }
{
    let mut words = Vec::from_elem(alloc, 0, bytes.len())?;
    for at in 0..bytes.len() {
        words[at] = u16::from(bytes[at]);
    }
    Ok(words)
}
