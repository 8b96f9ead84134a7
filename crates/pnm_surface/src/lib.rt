//! Tests that call public functions by their paths: the ones that no other crate of tests and no program of cases
//! calls. They stand in a crate of their own since a crate that has tests is proved twice.
#![tactic(auto)]

#[cfg(test)]
mod tests;
