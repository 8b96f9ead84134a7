//! What no clause says: the limits in figures, printed names, that calls can succeed, devices that fail, and what calls
//! return when memory runs out.

use std::fmt;
use std::process::Abort;

mod callers;
mod chain_memory;
mod devices;
mod formats;
mod heads;
mod interrupted;
mod memory;
mod messages;
mod places;
mod rows_memory;
mod source_memory;
mod texts;
mod tools;

/// Stops the test if `is_so` is false, and shows what it got, what it wants and where. An assertion that shows its
/// values takes long to prove: this one serves many tests.
fn holds<G: fmt::Debug, W: fmt::Debug, P: fmt::Debug>(
    rt: &impl Abort,
    is_so: bool,
    given: &G,
    want: &W,
    place: &P,
) {
    assert!(rt; is_so, "{given:?} in place of {want:?} at {place:?}");
}

/// Stops the test if the two aren't the same, and shows them.
fn same<T: PartialEq + fmt::Debug, P: fmt::Debug>(rt: &impl Abort, given: &T, want: &T, place: &P) {
    holds(rt, given == want, given, want, place);
}
