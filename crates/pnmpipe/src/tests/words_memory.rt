//! Want of memory in the program. `scripts/refused.py tests` refuses each allocation of these
//! tests in turn.

use super::help::HELP;
use super::{IMAGE, INVERTED, is_so, words_of};
use crate::over_threads::OverThreads;
use pnm_command_line::command;
use std::process::Abort;
use std::sync::Wait;
use std::thread::Threads;

/// The lines for want of memory before a run, and in one.
const BEFORE: [&[u8]; 2] = [
    b"pnmpipe: command line: Memory\n",
    b"pnmpipe: chain: Memory\n",
];

const IN_A_RUN: [&[u8]; 3] = [
    b"pnmpipe: NoStart\n",
    b"pnmpipe: tool 1: Memory\n",
    b"pnmpipe: input: Memory\n",
];

/// Whether only want of memory is at fault, and is printed, and what was written is a prefix of the whole output, or
/// all of it if the status is 0.
fn is_answer(status: u8, written: &[u8], printed: &[u8], whole: &[u8]) -> bool {
    match status {
        0 => written == whole && printed.is_empty(),
        1 => whole.starts_with(written) && IN_A_RUN.contains(&printed),
        _ => written.is_empty() && BEFORE.contains(&printed),
    }
}

/// The program's status, or `None` if there is no memory for the words. Whatever the status is, `is_answer` has to
/// hold.
fn status<H: Abort + AllocGlobal + Threads + Wait + Sync>(
    rt: &H,
    texts: &[&str],
    whole: &[u8],
) -> Option<u8> {
    match words_of(rt.alloc(), texts) {
        Ok(words) => Some(status_of(rt, words.as_slice(), whole)),
        Err(_) => None,
    }
}

/// The program's status with these words, for which `is_answer` has to hold.
fn status_of<H: Abort + AllocGlobal + Threads + Wait + Sync>(
    rt: &H,
    words: &[String],
    whole: &[u8],
) -> u8 {
    let mut buffer = [0; 2000];
    let mut line = [0; 100];
    let (status, left, unused) = run_into(rt, words, buffer.as_mut_slice(), line.as_mut_slice());
    assert!(rt; left <= buffer.len() && unused <= line.len());
    let written = &buffer[..buffer.len() - left];
    let printed = &line[..line.len() - unused];
    let is_right = is_answer(status, written, printed, whole);
    is_so(rt, is_right, &status);
    status
}

/// The program's status with these words, and how much is left of the room for its output and for its line.
fn run_into<H: AllocGlobal + Threads + Wait + Sync>(
    rt: &H,
    words: &[String],
    buffer: &mut [u8],
    line: &mut [u8],
) -> (u8, usize, usize) {
    let mut errors = &mut *line;
    let room = buffer.len();
    let ended = command(rt, &OverThreads, words, IMAGE, &mut *buffer, &mut errors);
    let (status, output) = (ended.status, ended.output);
    let left = match output {
        Some(left) => left.len(),
        None => room,
    };
    (status, left, errors.len())
}

/// The words of a call for help, and those of a run.
const ASKING_FOR_HELP: &[&str] = &["pnmpipe", "--help"];

const INVERTING: &[&str] = &["pnmpipe", "--ring", "7", "pnminvert"];

/// Each growth of a call for help may be refused.
#[test]
fn answers_want_of_memory_for_help(rt: HostRuntime) {
    let _ = status(&rt, ASKING_FOR_HELP, HELP.as_bytes());
}

/// If no growth is refused, the help is printed.
#[test]
fn helps_with_memory(rt: HostRuntime) {
    let status = status(&rt, ASKING_FOR_HELP, HELP.as_bytes());
    is_so(&rt, status == Some(0), &status);
}

/// Each growth of a run may be refused.
#[test]
fn answers_want_of_memory_for_a_run(rt: HostRuntime) {
    let _ = status(&rt, INVERTING, INVERTED);
}

/// If no growth is refused, the run ends well.
#[test]
fn runs_with_memory(rt: HostRuntime) {
    let status = status(&rt, INVERTING, INVERTED);
    is_so(&rt, status == Some(0), &status);
}
