//! The text of a chain of tools, as a user writes it.

ghost use Rattle.std.specs.Prelude.{◌≡◌, ◌⊎◌, ◌+◌, IfOk, IfErr, Some, None, length};
ghost use Rattle.pnm_chain.specs.declared.chain_text.ChainKind.TheVariants.{Memory};
ghost use Rattle.pnm_chain.specs.ChainText.{SpellsChain, SpellsTool, chain_fault_of, stage_fault};
ghost use Rattle.pnm_chain.specs.Internal.ChainText.{IsRefusal};
ghost use Rattle.pnm_chain.specs.ChainText.{stage_texts, whole_fault};
ghost use Rattle.pnm_tools.specs.Chains.{IsChain};

use crate::items::split_item;
use crate::options::ToolName;
use crate::settings::Settings;
use crate::word::split_word;
use pnm_tools::{MAX_TOOLS, Tool};
use std::alloc::{AllocError, AllocFailed, Global};
use thiserror::Error;

/// The longest text of a chain, in bytes.
pub const MAX_TEXT_LENGTH: usize = 4_096;

/// The maximum number of stages in a text. Each stage names a tool.
const MOST_STAGES: usize = MAX_TOOLS;

/// What is wrong with a chain's text. The text of each variant is its name.
#[derive(Clone, Copy, Debug, PartialEq, Eq, Error)]
pub enum ChainKind {
    /// The text is nothing but white space.
    #[error("Empty")]
    Empty,
    /// The text is longer than `MAX_TEXT_LENGTH`.
    #[error("TooLong")]
    TooLong,
    /// There are more stages than `MAX_TOOLS`.
    #[error("TooMany")]
    TooMany,
    /// The stage has no word.
    #[error("EmptyStage")]
    EmptyStage,
    /// There is no tool of this name.
    #[error("UnknownTool")]
    UnknownTool,
    /// The tool has no option of this name.
    #[error("UnknownOption")]
    UnknownOption,
    /// The option wants a value, and no word follows it.
    #[error("MissingValue")]
    MissingValue,
    /// The value or the argument isn't a number, is out of range, or is too long; or the option takes no value.
    #[error("BadValue")]
    BadValue,
    /// The options, or an argument and an option, exclude each other.
    #[error("Conflict")]
    Conflict,
    /// The tool wants another argument, a way to flip, or a factor.
    #[error("MissingArgument")]
    MissingArgument,
    /// The tool takes no more arguments.
    #[error("ExtraArgument")]
    ExtraArgument,
    /// Memory ran out.
    #[error("Memory")]
    Memory,
}

impl From<AllocError> for ChainKind {
    ghost from_gives = { λ _ result. result ≡ Memory };

    fn from(_error: AllocError) -> ChainKind {
        ChainKind::Memory
    }
}

impl<T: Drop> From<AllocFailed<T>> for ChainKind {
    ghost from_gives = { λ _ result. result ≡ Memory };

    fn from(_error: AllocFailed<T>) -> ChainKind {
        ChainKind::Memory
    }
}

/// Why a text isn't a chain.
#[derive(Clone, Copy, Debug, PartialEq, Eq)]
pub struct ChainFault {
    /// The number of the stage, from 1, or 0 if no stage is at fault.
    pub stage: usize,
    /// The fault.
    pub kind: ChainKind,
}

impl<T: Drop> From<AllocFailed<T>> for ChainFault {
    ghost from_gives = { λ _ result. result ≡ whole_fault Memory };

    fn from(_error: AllocFailed<T>) -> ChainFault {
        ChainFault::whole(ChainKind::Memory)
    }
}

impl ChainFault {
    /// Returns a fault of the whole text, and of no stage.
    fn whole(kind: ChainKind) -> ChainFault
        ensures { result ≡ whole_fault kind }
    {
        ChainFault { stage: 0, kind }
    }
}

/// Returns the tools that the text names, each with its options: 1 to `MAX_TOOLS` tools with bars between them.
///
/// # Errors
///
/// The first of `TooLong`, `Empty` and `TooMany`, or else the first fault of the first stage that has one; or `Memory`.
pub fn parse_chain(alloc: Global, text: &str) -> Result<Vec<Tool>, ChainFault>
    ensures spelled { IfOk result (λ tools. SpellsChain text.now tools.items) }
    ensures lawful { IfOk result (λ tools. IsChain tools.items) }
    ensures refused { IfErr result (λ fault. (fault ≡ whole_fault Memory) ⊎ (chain_fault_of text.now ≡ Some fault)) }
{
    if text.len() > MAX_TEXT_LENGTH {
        return Err(ChainFault::whole(ChainKind::TooLong));
    }
    if split_word(text.as_bytes()).is_none() {
        return Err(ChainFault::whole(ChainKind::Empty));
    }
    if count_bars(text.as_bytes()) >= MOST_STAGES {
        return Err(ChainFault::whole(ChainKind::TooMany));
    }
    let mut tools = Vec::new(alloc);
    for stage in text.split('|') {
        let tool = read_numbered(alloc, tools.len() + 1, stage.as_bytes())?;
        tools.push(tool)?;
    }
    Ok(tools)
}

/// Returns the number of bars, which is one less than the number of stages.
fn count_bars(text: &[u8]) -> usize
    ensures { result + 1 ≡ length (stage_texts text.now) }
{
    let mut bars = 0;
    for byte in text {
        if *byte == b'|' {
            bars += 1;
        }
    }
    bars
}

/// Reads the tool of the stage with this number.
fn read_numbered(alloc: Global, number: usize, stage: &[u8]) -> Result<Tool, ChainFault>
    ensures spelled { IfOk result (λ tool. (stage_fault stage.now ≡ None) × SpellsTool stage.now tool) }
    ensures refused { IfErr result (λ fault. (fault ≡ whole_fault Memory)
        ⊎ ((stage_fault stage.now ≡ Some fault.kind) × (fault.stage ≡ number))) }
{
    match read_stage(alloc, stage) {
        Ok(tool) => Ok(tool),
        Err(ChainKind::Memory) => Err(ChainFault::whole(ChainKind::Memory)),
        Err(kind) => Err(ChainFault {
            stage: number,
            kind,
        }),
    }
}

/// Reads the tool of a stage.
fn read_stage(alloc: Global, stage: &[u8]) -> Result<Tool, ChainKind>
    ensures spelled { IfOk result (λ tool. (stage_fault stage.now ≡ None) × SpellsTool stage.now tool) }
    ensures refused { IfErr result (λ kind. IsRefusal (stage_fault stage.now) kind) }
{
    let Some((name, mut rest)) = split_word(stage) else {
        return Err(ChainKind::EmptyStage);
    };
    let Some(tool) = ToolName::named(name) else {
        return Err(ChainKind::UnknownTool);
    };
    let mut settings = Settings::new(alloc, tool);
    while let Some((item, after)) = split_item(tool, rest) {
        settings.take(item)?;
        rest = after;
    }
    settings.finish(alloc)
}
