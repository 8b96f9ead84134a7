//! What follows the tool's name in a stage of a chain.

ghost use Rattle.std.specs.Prelude.{◌≡◌, ◌<◌, ◌∷◌, [], IfSome, MatchOption, length};
ghost use Rattle.pnm_image.specs.Texts.{words};
ghost use Rattle.pnm_chain.specs.StageWords.{items_of, name_in, value_in};
ghost use Rattle.pnm_chain.specs.Options.{without_dash};
ghost use Rattle.pnm_chain.specs.Internal.Settings.{item_read, value_read};

use crate::options::{ToolName, ToolOption};
use crate::word::split_word;

/// What a word says, or an option's word with its value.
#[derive(Clone, Copy, Debug)]
pub(crate) enum Item<'a> {
    Argument(&'a [u8]),
    /// An option of the tool, and its value, if it has one.
    Given(ToolOption, Option<&'a [u8]>),
    /// An option that the tool doesn't have.
    Unknown,
}

/// Returns the first item of a text that follows the tool's name, and the text after the item.
pub(crate) fn split_item<'a>(tool: ToolName, text: &'a [u8]) -> Option<(Item<'a>, &'a [u8])>
    ensures first { MatchOption result (words text.now ≡ [])
        (λ r. items_of tool (words text.now) ≡ item_read r.0 ∷ items_of tool (words r.1.now)) }
    ensures shorter { IfSome result (λ r. length r.1.now < length text.now) }
{
    let (word, rest) = split_word(text)?;
    if !word.starts_with(b"-") {
        return Some((Item::Argument(word), rest));
    }
    let (name, value) = split_option(word);
    let Some(option) = tool.option(name) else {
        return Some((Item::Unknown, rest));
    };
    if value.is_none()
        && option.wants_value()
        && let Some((value, rest)) = split_word(rest)
    {
        return Some((Item::Given(option, Some(value)), rest));
    }
    Some((Item::Given(option, value), rest))
}

/// Returns the name in an option's word, after one or two dashes, and the value after the word's first `=`.
fn split_option(word: &[u8]) -> (&[u8], Option<&[u8]>)
    ensures name { result.0.now ≡ name_in word.now }
    ensures value { value_read result.1 ≡ value_in word.now }
{
    let text = without_dash(without_dash(word));
    match text.iter().position(|byte| *byte == b'=') {
        Some(at) => (&text[..at], Some(&text[at + 1..])),
        None => (text, None),
    }
}

/// Returns the text without the dash that it begins with, or all of it if it doesn't begin with one.
fn without_dash(text: &[u8]) -> &[u8]
    ensures { result.now ≡ without_dash text.now }
{
    match text {
        [b'-', after @ ..] => after,
        _ => text,
    }
}
