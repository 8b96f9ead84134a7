//! How a case is written on a line: words with blanks between them, and texts with escapes.

use std::alloc::{AllocError, Global};

/// Returns the first word of a line, and what follows the blank after it.
pub fn cut_word(line: &[u8]) -> (&[u8], &[u8]) {
    cut_at(line, b' ')
}

/// Returns what comes before the first byte `mark`, and what follows it.
pub fn cut_at(line: &[u8], mark: u8) -> (&[u8], &[u8]) {
    for at in 0..line.len() {
        if line[at] == mark {
            return (&line[..at], &line[at + 1..]);
        }
    }
    (line, &[])
}

/// Returns what a word stands for in a table.
pub fn named<T: Copy>(words: &[(&[u8], T)], word: &[u8]) -> Option<T> {
    for (name, meant) in words {
        if *name == word {
            return Some(*meant);
        }
    }
    None
}

/// Returns the two numbers that a line begins with, and what follows them.
pub fn cut_pair(line: &[u8]) -> (usize, usize, &[u8]) {
    let (first, rest) = cut_number(line);
    let (second, rest) = cut_number(rest);
    (first, second, rest)
}

/// Returns the number that a line begins with, and what follows the byte after its digits.
pub fn cut_number(line: &[u8]) -> (usize, &[u8]) {
    let mut number = 0usize;
    let mut rest = line;
    for _ in 0..line.len() {
        let Some((byte, after)) = rest.split_first() else {
            break;
        };
        rest = after;
        if !byte.is_ascii_digit() {
            break;
        }
        let digit = usize::from(byte.wrapping_sub(b'0'));
        number = number.saturating_mul(10).saturating_add(digit);
    }
    (number, rest)
}

/// Returns the bytes that a written text stands for. A byte stands for itself, except for a backslash: `\n`, `\t`, `\r`
/// and `\xHH` are the byte that they are in Rust, and any other byte after it is itself. `\N(PART)` stands for N times
/// PART, and `\#COUNT,FIRST,STEP,MODULUS,BYTES;` for COUNT numbers, FIRST plus k times STEP modulo MODULUS: in decimal
/// with a blank after each if BYTES is 0, in a byte each if it is 1, and otherwise in two.
pub fn text_of(alloc: Global, written: &[u8]) -> Result<Vec<u8>, AllocError> {
    let mut text = Vec::new(alloc);
    let mut rest = written;
    for _ in 0..written.len() {
        rest = match rest {
            [b'\\', b'#', numbers @ ..] => add_numbers(&mut text, numbers)?,
            [b'\\', b'0'..=b'9', ..] => add_repeated(&mut text, &rest[1..])?,
            [_, ..] => add_byte(&mut text, rest)?,
            [] => break,
        };
    }
    Ok(text)
}

/// Adds the byte that a written text begins with, and returns what follows it.
fn add_byte<'a>(text: &mut Vec<u8>, written: &'a [u8]) -> Result<&'a [u8], AllocError> {
    let (byte, after) = cut_byte(written);
    text.push(byte)?;
    Ok(after)
}

/// Adds a part as often as the number before it says, and returns what follows it.
fn add_repeated<'a>(text: &mut Vec<u8>, written: &'a [u8]) -> Result<&'a [u8], AllocError> {
    let (count, rest) = cut_number(written);
    let (part, after) = cut_at(rest, b')');
    for _ in 0..count {
        add_bytes(text, part)?;
    }
    Ok(after)
}

/// Adds the bytes of a written text without numbers.
fn add_bytes(text: &mut Vec<u8>, written: &[u8]) -> Result<(), AllocError> {
    let mut rest = written;
    for _ in 0..written.len() {
        if rest.is_empty() {
            break;
        }
        rest = add_byte(text, rest)?;
    }
    Ok(())
}

/// Returns the byte that a written text begins with, 0 if it is empty, and what follows it.
fn cut_byte(written: &[u8]) -> (u8, &[u8]) {
    match written {
        [b'\\', b'x', high, low, rest @ ..] => (
            16 * (hexadecimal(*high) % 16) + hexadecimal(*low) % 16,
            rest,
        ),
        [b'\\', mark, rest @ ..] => (escaped(*mark), rest),
        [byte, rest @ ..] => (*byte, rest),
        [] => (0, &[]),
    }
}

/// Returns the byte that `mark` stands for after a backslash.
fn escaped(mark: u8) -> u8 {
    match mark {
        b'n' => b'\n',
        b'r' => b'\r',
        b't' => b'\t',
        _ => mark,
    }
}

/// Returns what a hexadecimal digit is worth.
fn hexadecimal(digit: u8) -> u8 {
    match digit {
        b'a'..=b'f' => digit - b'a' + 10,
        _ => digit.wrapping_sub(b'0'),
    }
}

/// `count` numbers of size `size`: `first` plus k times `step` modulo `modulus`.
#[derive(Clone, Copy)]
pub struct Numbers {
    pub count: usize,
    first: usize,
    step: usize,
    modulus: usize,
    pub size: usize,
}

impl Numbers {
    /// Returns number `k`, counted from 0.
    pub fn at(self, k: usize) -> usize {
        let turned = k.wrapping_mul(self.step).checked_rem(self.modulus);
        self.first.wrapping_add(turned.unwrap_or(0))
    }
}

/// Returns the numbers that a written text begins with, and what follows them.
pub fn cut_numbers(written: &[u8]) -> (Numbers, &[u8]) {
    let (count, rest) = cut_number(written);
    let (first, rest) = cut_number(rest);
    let (step, rest) = cut_number(rest);
    let (modulus, rest) = cut_number(rest);
    let (size, rest) = cut_number(rest);
    let numbers = Numbers {
        count,
        first,
        step,
        modulus,
        size,
    };
    (numbers, rest)
}

/// Adds the numbers that a written text begins with, and returns what follows them.
fn add_numbers<'a>(text: &mut Vec<u8>, written: &'a [u8]) -> Result<&'a [u8], AllocError> {
    let (numbers, rest) = cut_numbers(written);
    for k in 0..numbers.count {
        add_number(text, numbers.at(k), numbers.size)?;
    }
    Ok(rest)
}

/// Adds a number: in decimal digits and a blank if `bytes` is 0, in one byte if it is 1, and otherwise in two.
fn add_number(text: &mut Vec<u8>, number: usize, bytes: usize) -> Result<(), AllocError> {
    match bytes {
        0 => {
            let decimal = format!(in *text.allocator(); "{number} ")?;
            text.extend_from_slice(decimal.as_str().as_bytes())
        }
        1 => Ok(text.push((number % 256) as u8)?),
        _ => text.extend_from_slice(&((number % 65_536) as u16).to_be_bytes()),
    }
}
