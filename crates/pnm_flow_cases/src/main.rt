//! Prints what runs answer and write. A line of standard input is a word, the text of a chain in parentheses, and an
//! input; escapes are those of texts (`pnm_test_support`). A line that begins with `#` is printed as it is.
//!
//! - `raw (CHAIN) INPUT`, `plain (CHAIN) INPUT`: the images and rows of the output, or the fault; and the bytes
//! - `cuts (CHAIN) INPUT`: the same for each prefix of the input, with the length from which on it holds
//! - `reads FORM COUNT SIZE/READS SIZE/WRITES/FLUSHES (CHAIN) INPUT`, and so `writes` and `flushes`: the same over a
//!   reader and a writer that move SIZE bytes a call. The read after READS reads, the write after WRITES writes and the
//!   flush after FLUSHES flushes fail, and later ones don't; for COUNT numbers of calls of that name, from the given
//!   one on
//! - `never (CHAIN) INPUT`: the same over a writer each of whose flushes fails
//! - `room SIZE (CHAIN) INPUT`: the same over a writer that has room for SIZE bytes, and all of these
//! - `buffered COUNT (CHAIN) INPUT`: the same over a writer behind a buffer, with room for 0 bytes, 1 and so on, for
//!   COUNT numbers
//! - `stage ROOM GONE (TOOL) MESSAGES`, `deal LANES GONE MESSAGES`, `gather ROOM GONE MESSAGES|MESSAGES`: how a stage
//!   over rings, the dealing to lanes or the gathering from lanes ends; what is left of its input, and what is sent
//!   (`rings`). GONE names a ring end that was dropped: `input`, `inputs`, `output`, that of a lane by its number, or
//!   none of these. Messages between braces lie in a ring together
//! - `chain LANES (CHAIN) MESSAGES`: how each tool of a chain over LANES lanes ends; what is left of its input, and
//!   what is sent
//! - `heights LANES HEIGHT`: how many rows of an image each lane gets
//!
//! Each input is run in one thread, and over threads with several rings and lanes (`ways`): if one of these runs
//! answers or writes something else, that is printed, too.
#![tactic(auto)]

mod failing;
mod rings;
mod runs;
mod ways;

use failing::{Calls, Devices, form_of};
use pnm_test_support::{Unmade, cut_at, cut_number, cut_word, named, text_of};
use runs::{Changes, Job, write_changes, write_input};
use std::alloc::{AllocError, Global};
use std::sync::Wait;
use std::thread::Threads;
use std::{io, str};

/// What a line is about: a run over whole devices unless its word says otherwise.
#[derive(Clone, Copy)]
enum How {
    Stage,
    Deal,
    Gather,
    Chain,
    Heights,
    Cuts,
    Fails,
    Never,
    Room,
    Buffered,
    Whole,
}

const WORDS: &[(&[u8], How)] = &[
    (b"stage", How::Stage),
    (b"deal", How::Deal),
    (b"gather", How::Gather),
    (b"chain", How::Chain),
    (b"heights", How::Heights),
    (b"cuts", How::Cuts),
    (b"reads", How::Fails),
    (b"writes", How::Fails),
    (b"flushes", How::Fails),
    (b"never", How::Never),
    (b"room", How::Room),
    (b"buffered", How::Buffered),
];

fn main(rt: HostRuntime) -> Result<(), Unmade> {
    write_lines(&rt)
}

/// Prints the answer to the case in each line of standard input, and a line that begins with `#` as it is. It is a
/// function of its own, since a method of `Solver` can't require that its runtime may be shared between threads.
fn write_lines<H: AllocGlobal + Input + Print + Threads + Wait + Sync>(
    rt: &H,
) -> Result<(), Unmade> {
    let alloc = rt.alloc();
    let text = io::read_to_string(alloc, rt.reader())?;
    for line in text.as_str().lines() {
        write_line(rt, alloc, line)?;
    }
    Ok(())
}

/// Prints the answer to the case of a line.
fn write_line<H: Print + Threads + Wait + Sync>(
    rt: &H,
    alloc: Global,
    line: &str,
) -> Result<(), Unmade> {
    let mut out = String::new(alloc);
    write_case(rt, alloc, line, &mut out)?;
    println!(rt; "{out}")?;
    Ok(())
}

/// Adds the answer to the case of a line, or ` no case` if it isn't one, or can't be made.
fn write_case<R: Threads + Wait + Sync>(
    rt: &R,
    alloc: Global,
    line: &str,
    out: &mut String,
) -> Result<(), AllocError> {
    if line.as_bytes().first() == Some(&b'#') {
        return out.push_str(line);
    }
    let (word, written) = cut_word(line.as_bytes());
    let text = text_of(alloc, written)?;
    match solve(rt, alloc, word, text.as_slice(), out) {
        Ok(()) => Ok(()),
        Err(Unmade) => out.push_str(" no case"),
    }
}

/// Adds the answer to a case: a word, and the text after it.
fn solve<R: Threads + Wait + Sync>(
    rt: &R,
    alloc: Global,
    word: &[u8],
    text: &[u8],
    out: &mut String,
) -> Result<(), Unmade> {
    match named(WORDS, word).unwrap_or(How::Whole) {
        How::Stage => rings::write_tools(rt, alloc, false, text, out),
        How::Deal => rings::write_dealt(rt, alloc, text, out),
        How::Gather => rings::write_gathered(rt, alloc, text, out),
        How::Chain => rings::write_tools(rt, alloc, true, text, out),
        How::Heights => Ok(rings::write_heights(text, out)?),
        how => write_runs(rt, alloc, how, word, text, out),
    }
}

/// Adds what runs of a text's chain answer and write.
fn write_runs<R: Threads + Wait + Sync>(
    rt: &R,
    alloc: Global,
    how: How,
    word: &[u8],
    text: &[u8],
    out: &mut String,
) -> Result<(), Unmade> {
    let (facts, written) = cut_at(text, b'(');
    let (chain, rest) = cut_at(written, b')');
    let (_, input) = cut_word(rest);
    let Ok(chain) = str::from_utf8(chain) else {
        return Err(Unmade);
    };
    let (size, _) = cut_number(facts);
    let devices = match how {
        How::Never => Devices::NeverFlushes,
        How::Room => Devices::Room(size),
        _ => Devices::Whole,
    };
    let job = Job {
        chain,
        form: form_of(word),
        input,
        devices,
    };
    match how {
        How::Cuts => write_changes(rt, alloc, Changes::Input, input.len() + 1, job, out),
        How::Fails => write_failing(rt, alloc, word, facts, job, out),
        How::Buffered => write_changes(rt, alloc, Changes::Room, size, job, out),
        _ => write_input(rt, alloc, job, out),
    }
}

/// Adds what runs answer and write if a call of this name fails, for as many calls, one after another, as `facts` says.
fn write_failing<R: Threads + Wait + Sync>(
    rt: &R,
    alloc: Global,
    name: &[u8],
    facts: &[u8],
    job: Job<'_>,
    out: &mut String,
) -> Result<(), Unmade> {
    let (form, rest) = cut_word(facts);
    let form = form_of(form);
    let (count, rest) = cut_number(rest);
    let changes = Changes::Calls(name, Calls::of(rest));
    write_changes(rt, alloc, changes, count, Job { form, ..job }, out)
}
