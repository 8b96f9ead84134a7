//! What no stored command shows about the program: that no words at all are refused, two calls over the same output,
//! lines for faults that few runs end in, and want of memory.

use std::alloc::{AllocError, Global};
use std::fmt;
use std::process::Abort;

mod command;
mod fault_lines;
mod help;
mod words_memory;

/// An image of one row.
const IMAGE: &[u8] = b"P5\n2 1\n122\nAB";

/// The image inverted.
const INVERTED: &[u8] = b"P5\n2 1\n122\n98";

/// Returns the words of a command line.
fn words_of(alloc: Global, texts: &[&str]) -> Result<Vec<String>, AllocError> {
    let mut words = Vec::new(alloc);
    for text in texts {
        words.push(String::from_str(alloc, text)?)?;
    }
    Ok(words)
}

/// Stops the test if something isn't so, and shows these values. An assertion that shows its values takes long to
/// prove: this one serves all tests.
fn is_so<P: fmt::Debug>(rt: &impl Abort, is_right: bool, shown: &P) {
    assert!(rt; is_right, "{shown:?}");
}
