//! When a source reads, how much it asks for, and what it answers if a read fails.

use super::How;
use super::answers::{source_by, write_answers};
use pnm_image::Device;
use pnm_read::SpareRows;
use pnm_test_support::{Drips, FailsOnce, Recorded, cut_number, cut_pair, write_change};
use std::alloc::{AllocError, Global};

/// How many bytes a read may give when the source tells what it holds.
const FEW: [usize; 9] = [1, 2, 3, 5, 13, 64, 1000, 4096, 65_536];

/// A text, and how it is read.
#[derive(Clone, Copy)]
pub struct Reading<'a> {
    text: &'a [u8],
    /// The most bytes that a read gives.
    most: usize,
    /// The number of the read that fails, from 1 on; 0 for none.
    failing: usize,
    /// How many bytes the buffer has; `None` if the source makes its own.
    size: Option<usize>,
    /// Whether each message is told by itself, and not what comes together between braces.
    is_apart: bool,
}

impl<'a> Reading<'a> {
    /// A reading of up to `most` bytes a read, in which no read fails. Each message is told by itself.
    pub fn of(text: &'a [u8], most: usize) -> Reading<'a> {
        Reading {
            text,
            most,
            failing: 0,
            size: None,
            is_apart: true,
        }
    }
}

/// Makes the call with this number fail, counted from 1; none for 0.
fn failing_at(number: usize) -> FailsOnce {
    match number {
        0 => FailsOnce::never(),
        _ => FailsOnce::after(number - 1),
    }
}

/// Adds the answers to a text. Returns what each read asked for and got.
pub fn write_recorded(
    alloc: Global,
    reading: Reading<'_>,
    out: &mut String,
) -> Result<Vec<(usize, usize)>, AllocError> {
    let drips = Drips::new(reading.text, reading.most, failing_at(reading.failing));
    let mut reader = Recorded::new(alloc, drips);
    let mut source = source_by(alloc, reading.size, Device::new(&mut reader))?;
    write_answers(alloc, &mut source, reading.is_apart, out)?;
    let _ = source.into_reader();
    Vec::from_slice(alloc, reader.calls())
}

/// Adds the answers to a text, and what each read asked for and got. The line says how many bytes a read gives at most,
/// and which read fails, counted from 1. `how` says whether what comes together is told so, and whether the line begins
/// with the size of the buffer that the source reads through.
pub fn write_reads(
    alloc: Global,
    how: How,
    line: &[u8],
    out: &mut String,
) -> Result<(), AllocError> {
    let (size, rest) = match how {
        How::ReadsBy | How::TogetherBy => {
            let (size, rest) = cut_number(line);
            (Some(size), rest)
        }
        _ => (None, line),
    };
    let (most, failing, text) = cut_pair(rest);
    let is_apart = matches!(how, How::Reads | How::ReadsBy);
    let reading = Reading {
        text,
        most,
        failing,
        size,
        is_apart,
    };
    let calls = write_recorded(alloc, reading, out)?;
    write_calls(calls.as_slice(), out)
}

/// Adds what each read asked for and got.
fn write_calls(calls: &[(usize, usize)], out: &mut String) -> Result<(), AllocError> {
    out.push_str(" by")?;
    for (asked, got) in calls {
        write!(out, " {asked}:{got}")?;
    }
    Ok(())
}

/// Adds the answers if the read of a byte after the first 0, 1, 2 and so on fails, by the number from which on they are
/// those. Adds `but` and the number if the source made more or fewer reads than these and the failing one.
pub fn write_fails(alloc: Global, text: &[u8], out: &mut String) -> Result<(), AllocError> {
    let mut before = String::new(alloc);
    for read in 0..=text.len() {
        let mut answers = String::new(alloc);
        let calls = write_failing(alloc, text, read, &mut answers)?;
        if calls != read + 1 {
            write!(out, " but {read}")?;
        }
        write_change(out, read, &mut before, answers)?;
    }
    Ok(())
}

/// Adds the answers if the read of a byte after the first `before` fails. Returns how many reads there were.
fn write_failing(
    alloc: Global,
    text: &[u8],
    before: usize,
    out: &mut String,
) -> Result<usize, AllocError> {
    let reading = Reading {
        failing: before.saturating_add(1),
        ..Reading::of(text, 1)
    };
    let calls = write_recorded(alloc, reading, out)?;
    Ok(calls.len())
}

/// How many reads of up to `most` bytes a source has made once it was asked `count` times, and whether it holds what
/// comes next.
fn reads_of(
    alloc: Global,
    text: &[u8],
    most: usize,
    count: usize,
) -> Result<(usize, bool), AllocError> {
    let mut reader = Recorded::new(alloc, Drips::new(text, most, FailsOnce::never()));
    let mut source = source_by(alloc, None, Device::new(&mut reader))?;
    let mut spares = SpareRows::none(alloc);
    for _ in 0..count {
        let _ = source.next(&mut spares);
    }
    let is_held = source.holds_next();
    let _ = source.into_reader();
    Ok((reader.calls().len(), is_held))
}

/// Adds how many reads of a byte each were made at first, and after each answer, up to the number in the line.
pub fn write_ahead(alloc: Global, line: &[u8], out: &mut String) -> Result<(), AllocError> {
    let (count, text) = cut_number(line);
    for asked in 0..=count {
        let (reads, _) = reads_of(alloc, text, 1, asked)?;
        write!(out, " {reads}")?;
    }
    Ok(())
}

/// Adds, for each number of bytes a read, for how many answers the source rightly told whether it would make a read.
pub fn write_held(alloc: Global, line: &[u8], out: &mut String) -> Result<(), AllocError> {
    let (count, text) = cut_number(line);
    for most in FEW {
        let mut right = 0usize;
        for asked in 0..count {
            let (reads, is_held) = reads_of(alloc, text, most, asked)?;
            let (reads_after, _) = reads_of(alloc, text, most, asked + 1)?;
            if is_held == (reads_after == reads) {
                right = right.saturating_add(1);
            }
        }
        write!(out, " {right}")?;
    }
    Ok(())
}
