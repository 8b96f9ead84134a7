//! What no clause says: that calls can succeed, which threads there are, when they wait, and what is answered if memory
//! runs out.

use pnm_flow::{RunFault, Summary};
use std::fmt;
use std::process::Abort;

mod arrivals;
mod chains;
mod ends;
mod gates;
mod lanes;
mod limits;
mod memory;
mod rings;
mod threads;
mod waits;
mod ways;

/// An image of one row.
const IMAGE: &[u8] = b"P5\n2 1\n122\nAB";

/// What a run answers, and what it writes.
type Outcome<'a> = (Result<Summary, RunFault>, &'a [u8]);

/// Stops the test if something isn't so, and shows these values. An assertion that shows its values takes long to
/// prove: this one serves all tests.
fn is_so<P: fmt::Debug>(rt: &impl Abort, is_right: bool, shown: &P) {
    assert!(rt; is_right, "{shown:?}");
}

/// Stops the test if a run has another outcome, and shows both.
fn agrees<P: fmt::Debug>(rt: &impl Abort, outcome: Outcome<'_>, want: Outcome<'_>, place: &P) {
    let is_right = outcome.0 == want.0 && outcome.1 == want.1;
    is_so(rt, is_right, &(outcome, want, place));
}
