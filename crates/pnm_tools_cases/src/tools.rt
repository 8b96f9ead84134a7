//! Tools in cases: `invert`; `cut LEFT RIGHT TOP BOTTOM WIDTH HEIGHT`, with `_` for `None`; `depth MAXVAL`;
//! `planes NUMBERS (TUPLE TYPE)`; `enlarge ACROSS DOWN`; `flip WAY`; `tile WIDTH HEIGHT`.

use pnm_filters::result_head;
use pnm_image::Head;
use pnm_test_support::{
    Unmade, cut_at, cut_head, cut_number, cut_pair, cut_word, named, number_of, samples_of,
    write_head,
};
use pnm_tools::{CutBox, FlipWay, Planes, Tool};
use std::alloc::{AllocError, Global};

const WAYS: &[(&[u8], FlipWay)] = &[
    (b"null", FlipWay::Null),
    (b"leftright", FlipWay::LeftRight),
    (b"topbottom", FlipWay::TopBottom),
    (b"transpose", FlipWay::Transpose),
    (b"r90", FlipWay::Rotate90),
    (b"r180", FlipWay::Rotate180),
    (b"r270", FlipWay::Rotate270),
];

/// Returns the tool that the text spells.
pub fn tool_of(alloc: Global, text: &[u8]) -> Result<Tool, Unmade> {
    let (name, rest) = cut_word(text);
    match name.first() {
        Some(b'i') => Ok(Tool::Invert),
        Some(b'c') => Ok(Tool::Cut(cut_of(rest))),
        Some(b'd') => {
            let (maxval, _) = cut_number(rest);
            Ok(Tool::Depth(number_of(maxval)))
        }
        Some(b'p') => planes_of(alloc, rest),
        Some(b'e') => {
            let (across, down) = pair_of(rest);
            Ok(Tool::Enlarge(across, down))
        }
        Some(b't') => {
            let (width, height) = pair_of(rest);
            Ok(Tool::Tile(width, height))
        }
        _ => match named(WAYS, rest) {
            Some(way) => Ok(Tool::Flip(way)),
            None => Err(Unmade),
        },
    }
}

/// Returns the two numbers that the text spells.
fn pair_of(text: &[u8]) -> (u32, u32) {
    let (first, second, _) = cut_pair(text);
    (number_of(first), number_of(second))
}

/// Returns the options of a cut that the text spells.
fn cut_of(text: &[u8]) -> CutBox {
    let (left, rest) = cut_offset(text);
    let (right, rest) = cut_offset(rest);
    let (top, rest) = cut_offset(rest);
    let (bottom, rest) = cut_offset(rest);
    let (width, rest) = cut_size(rest);
    let (height, _) = cut_size(rest);
    CutBox {
        left,
        right,
        top,
        bottom,
        width,
        height,
    }
}

/// Returns the number that a line begins with, which may be negative, or `None` for a `_` and for a number that an
/// `i32` can't hold; and the text after it.
pub fn cut_offset(line: &[u8]) -> (Option<i32>, &[u8]) {
    let (word, rest) = cut_word(line);
    match word.split_first() {
        Some((b'_', _)) => (None, rest),
        Some((b'-', digits)) => (offset_of(digits, true), rest),
        _ => (offset_of(word, false), rest),
    }
}

/// Returns the number that the digits spell, or its opposite if `is_negative` is true.
fn offset_of(digits: &[u8], is_negative: bool) -> Option<i32> {
    let (number, _) = cut_number(digits);
    let number = i64::try_from(number).ok()?;
    let number = if is_negative {
        number.wrapping_neg()
    } else {
        number
    };
    i32::try_from(number).ok()
}

/// Returns the number that a line begins with, or `None` for a `_`; and the text after it.
pub fn cut_size(line: &[u8]) -> (Option<u32>, &[u8]) {
    let (word, rest) = cut_word(line);
    match word.first() {
        Some(b'_') => (None, rest),
        _ => {
            let (number, _) = cut_number(word);
            (Some(number_of(number)), rest)
        }
    }
}

/// Returns the tool that picks these planes, with a tuple type.
fn planes_of(alloc: Global, text: &[u8]) -> Result<Tool, Unmade> {
    let (written, rest) = cut_at(text, b'(');
    let (tuple_type, _) = cut_at(rest, b')');
    let numbers = samples_of(alloc, written)?;
    let tuple_type = Vec::from_slice(alloc, tuple_type)?;
    Ok(Tool::Channel(Planes::new(numbers, tuple_type)))
}

/// Adds whether a tool is lawful, and whether it is row-wise.
pub fn write_judged(tool: &Tool, out: &mut String) -> Result<(), AllocError> {
    out.push_str(if tool.is_lawful() {
        " lawful"
    } else {
        " unlawful"
    })?;
    if tool.is_row_wise() {
        out.push_str(" row-wise")?;
    }
    Ok(())
}

/// Adds a tool, and then its copy.
pub fn write_copy(alloc: Global, tool: &Tool, out: &mut String) -> Result<(), Unmade> {
    write!(out, " {tool:?}")?;
    match tool.copy(alloc) {
        Ok(copy) => write!(out, " {copy:?}")?,
        Err(fault) => write!(out, " {fault}")?,
    }
    Ok(())
}

/// Adds the head that a tool makes of a written one.
pub fn write_head_of(
    alloc: Global,
    tool: &Tool,
    text: &[u8],
    out: &mut String,
) -> Result<(), Unmade> {
    let (head, _) = cut_head(alloc, text)?;
    write_made_head(alloc, tool, &head, out)
}

/// Adds the head that a lawful tool makes of one, or its fault.
pub fn write_made_head(
    alloc: Global,
    tool: &Tool,
    head: &Head,
    out: &mut String,
) -> Result<(), Unmade> {
    if !tool.is_lawful() {
        return Err(Unmade);
    }
    match result_head(alloc, tool, head) {
        Ok(made) => write_head(out, &made)?,
        Err(fault) => write!(out, " {fault}")?,
    }
    Ok(())
}
