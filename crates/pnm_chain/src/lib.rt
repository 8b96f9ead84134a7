//! The text of a chain of tools: which tools it names, or what is wrong with it. The names of tools and
//! options are those of pnminvert(1), pamcut(1), pamdepth(1), pamchannel(1), pamenlarge(1), pamflip(1)
//! and pnmtile(1).
#![tactic(auto)]

mod chain_text;
mod items;
pub mod laws;
mod options;
mod settings;
mod word;

pub use chain_text::{ChainFault, ChainKind, parse_chain};
