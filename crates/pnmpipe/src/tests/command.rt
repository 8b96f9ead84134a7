//! Calls of the program that no process makes.

use super::help::HELP;
use super::{IMAGE, INVERTED, words_of};
use crate::over_threads::OverThreads;
use pnm_command_line::{Ended, command};
use std::io::{Read, Write};
use std::process::Abort;
use std::sync::Wait;
use std::thread::Threads;

/// How the program ends with these words over these streams, and the line that it prints.
fn answer_of<H: AllocGlobal + Threads + Wait + Sync, R: Read, W: Write + Drop>(
    rt: &H,
    words: &[String],
    input: R,
    output: W,
) -> (Ended<R, W>, Vec<u8>) {
    let mut errors = Vec::new(rt.alloc());
    let ended = command(rt, &OverThreads, words, input, output, &mut errors);
    (ended, errors)
}

/// What is written to the output if the program ends well with these words, and prints nothing.
fn written_by<H: AllocGlobal + Threads + Wait + Abort + Sync, W: Write + Drop>(
    rt: &H,
    texts: &[&str],
    output: W,
) -> Option<W> {
    let words = words_of(rt.alloc(), texts).expect(rt, "words");
    let (ended, errors) = answer_of(rt, words.as_slice(), IMAGE, output);
    if ended.status == 0 && errors.is_empty() {
        ended.output
    } else {
        None
    }
}

/// No words at all, not even the program's name, are no command line: nothing is read or written, and the line says how
/// the program is used.
#[test]
fn refuses_no_words(rt: HostRuntime) {
    let (ended, errors) = answer_of(&rt, &[], IMAGE, Vec::new(rt.alloc()));
    let usage = b"pnmpipe: usage: pnmpipe [--ring N] [--lanes K] [--plain] CHAIN\n".as_slice();
    assert!(&rt; ended.status == 2 && errors.as_slice() == usage);
    let is_empty = ended.output.is_some_and(|written| written.is_empty());
    assert!(&rt; ended.input == IMAGE && is_empty);
}

/// After a call for help the output still takes a run.
#[test]
fn helps_between_runs(rt: HostRuntime) {
    let output = Vec::new(rt.alloc());
    let helped = written_by(&rt, &["pnmpipe", "--help"], output).expect(&rt, "help");
    let ran = written_by(&rt, &["pnmpipe", "pnminvert"], helped).expect(&rt, "a run");
    let written = ran.as_slice();
    let is_whole = written.starts_with(HELP.as_bytes()) && written.ends_with(INVERTED);
    assert!(&rt; is_whole);
}
