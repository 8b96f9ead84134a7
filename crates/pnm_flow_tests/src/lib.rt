//! Tests of runs, of lanes, and of the rings between threads, in a crate of their own since a crate that has tests is
//! proved twice.
#![tactic(auto)]

#[cfg(test)]
mod tests;
