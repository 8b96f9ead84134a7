//! Tests of units by themselves: of heads, places and devices, and of want of memory in tools, in a source and in the
//! text of a chain: `scripts/refused.py tests` refuses each allocation of the latter. They are in a crate of their own
//! since a crate that has tests is proved twice.
#![tactic(auto)]

#[cfg(test)]
mod tests;
