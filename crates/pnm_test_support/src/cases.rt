//! A program that answers written cases.

use super::messages::Unmade;
use super::writing::{cut_word, text_of};
use std::alloc::{AllocError, Global};
use std::io;

/// What answers the cases of a program.
pub trait Solver {
    /// Adds the answer to a case: a word, and the text after it.
    fn solve(
        &mut self,
        alloc: Global,
        word: &[u8],
        text: &[u8],
        out: &mut String,
    ) -> Result<(), Unmade>;
}

/// Prints the answer to the case in each line of standard input. Prints a line that begins with `#` as it is.
pub fn write_lines<H: AllocGlobal + Input + Print, T: Solver>(
    rt: &H,
    solver: &mut T,
) -> Result<(), Unmade> {
    let alloc = rt.alloc();
    let text = io::read_to_string(alloc, rt.reader())?;
    for line in text.as_str().lines() {
        write_line(rt, alloc, solver, line)?;
    }
    Ok(())
}

/// Prints the answer to the case of a line.
fn write_line<H: Print, T: Solver>(
    rt: &H,
    alloc: Global,
    solver: &mut T,
    line: &str,
) -> Result<(), Unmade> {
    let mut out = String::new(alloc);
    write_case(alloc, solver, line, &mut out)?;
    println!(rt; "{out}")?;
    Ok(())
}

/// Adds the answer to the case of a line, or ` no case` if it isn't one, or can't be made.
fn write_case<T: Solver>(
    alloc: Global,
    solver: &mut T,
    line: &str,
    out: &mut String,
) -> Result<(), AllocError> {
    if line.as_bytes().first() == Some(&b'#') {
        return out.push_str(line);
    }
    let (word, written) = cut_word(line.as_bytes());
    let text = text_of(alloc, written)?;
    match solver.solve(alloc, word, text.as_slice(), out) {
        Ok(()) => Ok(()),
        Err(Unmade) => out.push_str(" no case"),
    }
}
