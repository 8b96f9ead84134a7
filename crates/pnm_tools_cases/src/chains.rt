//! What the texts of chains name: the tools, or the number of the stage at fault and the fault.

use pnm_chain::{ChainKind, parse_chain};
use pnm_test_support::Unmade;
use std::alloc::{AllocError, Global};
use std::str;

/// All faults.
pub const KINDS: &[ChainKind] = &[
    ChainKind::Empty,
    ChainKind::TooLong,
    ChainKind::TooMany,
    ChainKind::EmptyStage,
    ChainKind::UnknownTool,
    ChainKind::UnknownOption,
    ChainKind::MissingValue,
    ChainKind::BadValue,
    ChainKind::Conflict,
    ChainKind::MissingArgument,
    ChainKind::ExtraArgument,
    ChainKind::Memory,
];

/// Adds what a text names.
pub fn write_chain(alloc: Global, text: &[u8], out: &mut String) -> Result<(), Unmade> {
    match str::from_utf8(text) {
        Ok(chain) => Ok(write_named(alloc, chain, out)?),
        Err(_) => Err(Unmade),
    }
}

/// Adds the tools that a text names, or the number of the stage at fault and the fault.
fn write_named(alloc: Global, text: &str, out: &mut String) -> Result<(), AllocError> {
    match parse_chain(alloc, text) {
        Ok(tools) => write!(out, "{:?}", tools.as_slice()),
        Err(fault) => {
            let (stage, kind) = (fault.stage, fault.kind);
            write!(out, "{stage} {kind}")
        }
    }
}
