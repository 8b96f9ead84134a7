//! The answers to many cases that differ a little, printed as the number of cases and a CRC-32.

use super::digest::Crc32;
use std::alloc::AllocError;

/// The answers so far.
#[derive(Drop)]
pub struct Sweep {
    cases: u64,
    crc: Crc32,
}

impl Sweep {
    /// Creates a sweep without answers.
    pub fn new() -> Sweep {
        Sweep {
            cases: 0,
            crc: Crc32::new(),
        }
    }

    /// Adds the answers to a case.
    pub fn add(&mut self, answers: &str) {
        self.cases = self.cases.saturating_add(1);
        self.crc.add(answers.as_bytes());
    }

    /// Adds how many cases there were, and the CRC-32 of their answers.
    pub fn solve(&self, out: &mut String) -> Result<(), AllocError> {
        let (cases, number) = (self.cases, self.crc.number());
        write!(out, " {cases} cases {number:08x}")
    }
}
