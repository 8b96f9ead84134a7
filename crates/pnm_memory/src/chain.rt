//! The text of a chain, as bytes that may not be UTF-8.

ghost use Rattle.std.specs.Prelude.{◌≡◌, IfOk, IfErr};
ghost use Rattle.pnm_tools.specs.Chains.{IsChain};
ghost use Rattle.pnm_chain.specs.ChainText.{SpellsChain};
ghost use Rattle.pnm_memory.specs.CallAnswers.{IsChecked, IsRefusedChain};

use crate::answer::{Answer, refused};
use crate::codes::{BAD_TEXT, WELL, chain_code};
use pnm_chain::parse_chain;
use pnm_tools::Tool;
use std::alloc::Global;

/// Checks the text of a chain.
pub fn check(alloc: Global, chain: &[u8]) -> Answer
    ensures { IsChecked chain.now result }
{
    match read_chain(alloc, chain) {
        Ok(_) => refused(WELL, 0),
        Err(answer) => answer,
    }
}

/// Reads the tools of a chain. If it has a fault, returns the answer that says so.
pub(crate) fn read_chain(alloc: Global, chain: &[u8]) -> Result<Vec<Tool>, Answer>
    ensures lawful { IfOk result (λ tools. IsChain tools.items) }
    ensures spelled { IfOk result (λ tools. SpellsChain chain.now tools.items) }
    ensures refused { IfErr result (λ reported. IsRefusedChain chain.now reported) }
{
    let Ok(text) = str::from_utf8(chain) else {
        return Err(refused(BAD_TEXT, 0));
    };
    match parse_chain(alloc, text) {
        Ok(tools) => Ok(tools),
        Err(fault) => Err(refused(chain_code(fault.kind), fault.stage)),
    }
}
