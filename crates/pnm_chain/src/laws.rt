//! Laws of chains' texts. Each law is about the definitions alone, and is the contract of a function that does nothing.

ghost use Rattle.pnm_chain.specs.ChainExamples.{ChainTextsHold};
ghost use Rattle.pnm_chain.specs.ChainText.{ChainFaultsArePlaced, OneChainOrOneFault, SpelledChainsAreLawful};
ghost use Rattle.pnm_chain.specs.declared.chain_text.TheConstants.{MAX_TEXT_LENGTH};
ghost use Rattle.std.specs.Prelude.{◌≡◌};

/// What the definitions make of small texts of chains: their faults and what they mean.
pub fn chain_texts_hold()
    ensures { ChainTextsHold }
{}

/// Each text either spells one list of tools and has no fault, or spells none and has one fault.
pub fn one_chain_or_one_fault()
    ensures { OneChainOrOneFault }
{}

/// A fault of a text is either of the whole text, with stage 0, or of one of its stages, with the number of that stage,
/// 1 to `MAX_TOOLS`. None of these faults is want of memory.
pub fn chain_faults_are_placed()
    ensures { ChainFaultsArePlaced }
{}

/// The tools that a text spells are 1 to `MAX_TOOLS`, and their options are in their ranges.
pub fn spelled_chains_are_lawful()
    ensures { SpelledChainsAreLawful }
{}

/// The limit of a chain's text in a number. The definitions take it from the code by its name.
pub fn limits_are()
    ensures text_length { MAX_TEXT_LENGTH ≡ 4096 }
{}
