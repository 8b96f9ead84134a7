//! The public calls, crate by crate.

use pnm_image::{Head, HeadFault, Shape};
use std::alloc::Global;
use std::fmt;
use std::process::Abort;

mod flow;
mod program;
mod rings;
mod runs;
mod tools;

/// Stops the test if something isn't so, and shows these values. An assertion that shows its values takes long to
/// prove: this one serves all tests.
fn is_so<P: fmt::Debug>(rt: &impl Abort, is_right: bool, shown: &P) {
    assert!(rt; is_right, "{shown:?}");
}

/// Stops the test if the two aren't the same, and shows them.
fn same<T: PartialEq + fmt::Debug, P: fmt::Debug>(rt: &impl Abort, given: &T, want: &T, place: &P) {
    is_so(rt, given == want, &(given, want, place));
}

/// Returns what `Head::new` answers. The kind has to suit the rest.
fn new_head(
    rt: &impl Abort,
    alloc: Global,
    shape: Shape,
    tuple_type: &[u8],
) -> Result<Head, HeadFault> {
    assert!(rt; Head::suits(shape.kind, shape.depth, shape.maxval, tuple_type));
    Head::new(alloc, shape, tuple_type)
}
