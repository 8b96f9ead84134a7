//! Devices of runs.

use pnm_image::Form;
use pnm_test_support::{cut_number, cut_pair};

/// How many bytes a read and a write move, and after how many reads, writes and flushes one fails. A call that failed
/// succeeds when it is repeated.
#[derive(Clone, Copy)]
pub struct Calls {
    pub read_size: usize,
    pub reads: usize,
    pub write_size: usize,
    pub writes: usize,
    pub flushes: usize,
}

/// The devices of a run.
#[derive(Clone, Copy)]
pub enum Devices {
    /// No call fails.
    Whole,
    /// Each call moves few bytes, and some calls fail.
    Failing(Calls),
    /// Each flush fails.
    NeverFlushes,
    /// The writer has room for this many bytes.
    Room(usize),
    /// The writer has room for this many bytes, behind a buffer.
    Buffered(usize),
}

impl Calls {
    /// Returns the calls that a text begins with.
    pub fn of(text: &[u8]) -> Calls {
        let (read_size, reads, rest) = cut_pair(text);
        let (write_size, writes, rest) = cut_pair(rest);
        let (flushes, _) = cut_number(rest);
        Calls {
            read_size,
            reads,
            write_size,
            writes,
            flushes,
        }
    }

    /// Returns these calls, but with the failing call of this name `by` calls later.
    pub fn later(self, name: &[u8], by: usize) -> Calls {
        let mut calls = self;
        match name {
            b"reads" => calls.reads = self.reads.saturating_add(by),
            b"writes" => calls.writes = self.writes.saturating_add(by),
            _ => calls.flushes = self.flushes.saturating_add(by),
        }
        calls
    }
}

/// Returns the form of this name.
pub fn form_of(name: &[u8]) -> Form {
    if name == b"plain".as_slice() {
        Form::Plain
    } else {
        Form::Raw
    }
}
