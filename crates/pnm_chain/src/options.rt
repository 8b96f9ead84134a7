//! The tools of a chain and their options, by the names that their manual pages give them.

ghost use Rattle.std.specs.Prelude.{◌≡◌, Some, None, if◌then◌else◌};
ghost use Rattle.std.specs.Str.{bytes_eq};
ghost use Rattle.pnm_chain.specs.Options.{arguments_taken, channel_option, cut_option, enlarge_option, flip_option};
ghost use Rattle.pnm_chain.specs.Options.{numbers, option_named, tool_named, turn_option, wants_value};

use pnm_image::limits::{MAX_DEPTH, MAX_MAXVAL};
use pnm_tools::{FlipWay, MAX_EXTENT};

/// A tool, before its options are known.
#[derive(Clone, Copy, Debug, PartialEq, Eq)]
pub(crate) enum ToolName {
    Invert,
    Cut,
    Depth,
    Channel,
    Enlarge,
    Flip,
    Tile,
}

/// How many arguments a tool takes, and which numbers each may be.
#[derive(Clone, Copy, Debug, PartialEq, Eq)]
pub(crate) struct Arguments {
    /// The fewest arguments, unless an option replaces them.
    pub(crate) fewest: usize,
    pub(crate) most: usize,
    pub(crate) least: u32,
    pub(crate) greatest: u32,
}

/// An option of a tool. The ways to flip are one option, under several names.
#[derive(Clone, Copy, Debug, PartialEq, Eq)]
pub(crate) enum ToolOption {
    Left,
    Right,
    Top,
    Bottom,
    Width,
    Height,
    TupleType,
    XScale,
    YScale,
    Way(FlipWay),
}

impl ToolName {
    /// Returns the tool of this name, if there is one.
    pub(crate) fn named(name: &[u8]) -> Option<ToolName>
        ensures { result ≡ tool_named name.now }
    {
        spelled(name, b"pnminvert", ToolName::Invert)
            .or(spelled(name, b"pamcut", ToolName::Cut))
            .or(spelled(name, b"pamdepth", ToolName::Depth))
            .or(spelled(name, b"pamchannel", ToolName::Channel))
            .or(spelled(name, b"pamenlarge", ToolName::Enlarge))
            .or(spelled(name, b"pamflip", ToolName::Flip))
            .or(spelled(name, b"pnmtile", ToolName::Tile))
    }

    /// Returns the tool's option of this name, if there is one.
    pub(crate) fn option(self, name: &[u8]) -> Option<ToolOption>
        ensures { result ≡ option_named self name.now }
    {
        match self {
            ToolName::Invert | ToolName::Depth | ToolName::Tile => None,
            ToolName::Cut => cut_option(name),
            ToolName::Channel => channel_option(name),
            ToolName::Enlarge => enlarge_option(name),
            ToolName::Flip => flip_option(name).or(turn_option(name)),
        }
    }

    /// Returns the arguments that the tool takes.
    pub(crate) fn arguments(self) -> Arguments
        ensures { result ≡ arguments_taken self }
    {
        match self {
            ToolName::Invert | ToolName::Cut | ToolName::Flip => Arguments::numbers(0, 0),
            ToolName::Depth => Arguments::numbers(1, MAX_MAXVAL),
            ToolName::Channel => Arguments {
                fewest: 1,
                most: MAX_DEPTH as usize,
                least: 0,
                greatest: MAX_DEPTH - 1,
            },
            ToolName::Enlarge => Arguments {
                fewest: 0,
                ..Arguments::numbers(1, MAX_EXTENT)
            },
            ToolName::Tile => Arguments::numbers(2, MAX_EXTENT),
        }
    }
}

impl Arguments {
    /// Returns arguments that are `count` numbers from 1 to `greatest`.
    fn numbers(count: usize, greatest: u32) -> Arguments
        ensures { result ≡ numbers count greatest }
    {
        Arguments {
            fewest: count,
            most: count,
            least: 1,
            greatest,
        }
    }
}

impl ToolOption {
    /// Returns true if a value has to follow the option. A way to flip has no value.
    pub(crate) fn wants_value(self) -> bool
        ensures { result ≡ wants_value self }
    {
        !matches!(self, ToolOption::Way(_))
    }
}

/// Returns the option of `pamcut` with this name.
#[tactic(auto, using(crate::proofs::NameLaws::tried_after), unfolding(crate::specs::Options::cut_option))]
fn cut_option(name: &[u8]) -> Option<ToolOption>
    ensures { result ≡ cut_option name.now }
{
    spelled(name, b"left", ToolOption::Left)
        .or(spelled(name, b"right", ToolOption::Right))
        .or(spelled(name, b"top", ToolOption::Top))
        .or(spelled(name, b"bottom", ToolOption::Bottom))
        .or(spelled(name, b"width", ToolOption::Width))
        .or(spelled(name, b"height", ToolOption::Height))
}

/// Returns the option of `pamchannel` with this name.
#[tactic(auto, using(crate::proofs::NameLaws::tried_after), unfolding(crate::specs::Options::channel_option))]
fn channel_option(name: &[u8]) -> Option<ToolOption>
    ensures { result ≡ channel_option name.now }
{
    spelled(name, b"tupletype", ToolOption::TupleType)
}

/// Returns the option of `pamenlarge` with this name.
fn enlarge_option(name: &[u8]) -> Option<ToolOption>
    ensures { result ≡ enlarge_option name.now }
{
    spelled(name, b"xscale", ToolOption::XScale).or(spelled(name, b"yscale", ToolOption::YScale))
}

/// Returns the option of `pamflip` with this name, except for the turns.
fn flip_option(name: &[u8]) -> Option<ToolOption>
    ensures { result ≡ flip_option name.now }
{
    spelled(name, b"null", ToolOption::Way(FlipWay::Null))
        .or(spelled(name, b"lr", ToolOption::Way(FlipWay::LeftRight)))
        .or(spelled(name, b"leftright", ToolOption::Way(FlipWay::LeftRight)))
        .or(spelled(name, b"tb", ToolOption::Way(FlipWay::TopBottom)))
        .or(spelled(name, b"topbottom", ToolOption::Way(FlipWay::TopBottom)))
        .or(spelled(name, b"xy", ToolOption::Way(FlipWay::Transpose)))
        .or(spelled(name, b"transpose", ToolOption::Way(FlipWay::Transpose)))
}

/// Returns the turn of `pamflip` with this name.
fn turn_option(name: &[u8]) -> Option<ToolOption>
    ensures { result ≡ turn_option name.now }
{
    spelled(name, b"r90", ToolOption::Way(FlipWay::Rotate90))
        .or(spelled(name, b"r180", ToolOption::Way(FlipWay::Rotate180)))
        .or(spelled(name, b"r270", ToolOption::Way(FlipWay::Rotate270)))
}

/// Returns `named` if the word is its name.
fn spelled<T: Copy>(word: &[u8], name: &[u8], named: T) -> Option<T>
    ensures { result ≡ (if bytes_eq name.now word.now then Some named else None) }
{
    if word == name { Some(named) } else { None }
}
