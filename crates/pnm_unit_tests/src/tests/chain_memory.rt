//! Want of memory for a chain's text. `scripts/refused.py tests` refuses each allocation of these
//! tests in turn.

use super::same;
use pnm_chain::{ChainFault, ChainKind, parse_chain};
use std::alloc::Global;
use std::process::Abort;

/// A chain whose arguments, planes, tuple type and list are allocated, in turn.
const ALLOCATES: &str = "pamchannel 2 0 -tupletype RGB";

/// No stage is at fault.
const MEMORY: ChainFault = ChainFault {
    stage: 0,
    kind: ChainKind::Memory,
};

/// Asserts that the text is a chain of one tool, or that memory ran out. Returns true if nothing was refused.
fn parses(rt: &impl Abort, alloc: Global) -> bool {
    match parse_chain(alloc, ALLOCATES) {
        Ok(tools) => {
            same(rt, &tools.len(), &1, &ALLOCATES);
            true
        }
        Err(fault) => {
            same(rt, &fault, &MEMORY, &ALLOCATES);
            false
        }
    }
}

/// Want of memory for a chain's text is `Memory`, and no stage is at fault.
#[test]
fn answers_want_of_memory_for_a_chain(rt: HostRuntime) {
    let _ = parses(&rt, rt.alloc());
}

/// If no allocation is refused, the text is a chain.
#[test]
fn parses_with_memory(rt: HostRuntime) {
    assert!(rt; parses(&rt, rt.alloc()));
}
