//! Lines of a PAM header, from pam(5), 'The layout'.

ghost use Rattle.std.specs.Prelude.{◌≡◌, length, Some, None, if◌then◌else◌};
ghost use Rattle.std.specs.Str.{bytes_eq};
ghost use Rattle.pnm_read.specs.PamLines.{first_token, trimmed, kind_of_token};
ghost use Rattle.pnm_read.specs.Internal.LineWalks.{trimmed_start, trimmed_end, after_first};
ghost use Rattle.pnm_read.specs.Internal.PamScanners.{number_of};

use pnm_image::characters::{is_blank, is_digit};

/// A number of a PAM header.
#[derive(Clone, Copy, PartialEq, Eq)]
pub enum Field {
    Width,
    Height,
    Depth,
    Maxval,
}

/// What a line of a PAM header says.
#[derive(Clone, Copy, PartialEq, Eq)]
pub enum LineKind {
    /// Nothing: it has no token, or is a comment.
    Nothing,
    /// A number.
    Number(Field),
    /// A part of the tuple type.
    TupleType,
    /// It is the last line.
    End,
    /// Its first token is unknown.
    Unknown,
}

impl LineKind {
    /// Returns what a line with this first token says. The token is empty if the line has none.
    #[tactic(auto, unfolding(crate::specs::PamLines::kind_of_token))]
    pub fn of(token: &[u8]) -> LineKind
        ensures { result ≡ kind_of_token token.now }
    {
        if token.is_empty() || token[0] == b'#' {
            return LineKind::Nothing;
        }
        spelled(token, b"WIDTH", LineKind::Number(Field::Width))
            .or(spelled(token, b"HEIGHT", LineKind::Number(Field::Height)))
            .or(spelled(token, b"DEPTH", LineKind::Number(Field::Depth)))
            .or(spelled(token, b"MAXVAL", LineKind::Number(Field::Maxval)))
            .or(spelled(token, b"TUPLTYPE", LineKind::TupleType))
            .or(spelled(token, b"ENDHDR", LineKind::End))
            .unwrap_or(LineKind::Unknown)
    }
}

/// Returns `named` if the token is `name`.
fn spelled<T: Copy>(token: &[u8], name: &[u8], named: T) -> Option<T>
    ensures { result ≡ (if bytes_eq name.now token.now then Some named else None) }
{
    if token == name { Some(named) } else { None }
}

/// Returns the first token of a line, which is empty if there is none, and what follows it.
pub fn split_token(line: &[u8]) -> (&[u8], &[u8])
    ensures token { result.0.now ≡ first_token line.now }
    ensures rest { result.1.now ≡ after_first line.now }
{
    let text = trimmed_start(line);
    let mut length = 0;
    while length < text.len() && !is_blank(text[length]) {
        length += 1;
    }
    text.split_at(length)
}

/// Returns the text without white space at its ends.
pub fn trim(text: &[u8]) -> &[u8]
    ensures { result.now ≡ trimmed text.now }
{
    trimmed_end(trimmed_start(text))
}

fn trimmed_start(text: &[u8]) -> &[u8]
    ensures { result.now ≡ trimmed_start text.now }
{
    let mut rest = text;
    while let [first, after @ ..] = rest
        && is_blank(*first)
    {
        rest = after;
    }
    rest
}

fn trimmed_end(text: &[u8]) -> &[u8]
    ensures { result.now ≡ trimmed_end text.now }
{
    let mut rest = text;
    while let [before @ .., last] = rest
        && is_blank(*last)
    {
        rest = before;
    }
    rest
}

/// Returns the number that a token spells, at most `u32::MAX`, or `None` if it isn't decimal.
pub fn number_of(token: &[u8]) -> Option<u32>
    ensures { result ≡ number_of token.now }
{
    let mut number = 0u32;
    for byte in token {
        if !is_digit(*byte) {
            return None;
        }
        number = number
            .saturating_mul(10)
            .saturating_add(u32::from(*byte - b'0'));
    }
    Some(number)
}
