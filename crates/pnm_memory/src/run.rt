//! Calls that take a chain's text and a form's number.

ghost use Rattle.std.specs.Prelude.{◌≡◌, []};
ghost use Rattle.pnm_tools.specs.Chains.{IsChain};
ghost use Rattle.pnm_memory.specs.CallAnswers.{HasRunInto, HasMade, IsPut, IsReported, IsMade};
ghost use Rattle.pnm_memory.specs.CallAnswers.{form_of as form_numbered};

use crate::answer::{Answer, answer_of, refused, without_room};
use crate::chain::read_chain;
use crate::codes::BAD_FORM;
use crate::conversion::convert;
use pnm_image::Form;
use pnm_tools::Tool;
use std::alloc::Global;

/// Results in memory of their own, and the answer.
#[derive(Drop)]
pub struct Made {
    /// The bytes that were written, even before a fault.
    pub results: Vec<u8>,
    /// The answer of the call.
    pub answer: Answer,
}

/// Passes the images of the input through the tools of the chain, and puts the results into the front of the room. If
/// the room is too small for them, it is left as it was.
pub fn run_into(alloc: Global, chain: &[u8], form: u32, input: &[u8], room: &mut [u8]) -> Answer
    ensures { IsReported chain.now form input.now room.old room.new result }
{
    let Some(form) = form_of(form) else {
        return refused(BAD_FORM, 0);
    };
    match read_chain(alloc, chain) {
        Ok(tools) => convert_into(alloc, tools.as_slice(), form, input, room),
        Err(answer) => answer,
    }
}

/// Runs the tools over the input, and puts the results into the room, if they fit into it.
fn convert_into(alloc: Global, tools: &[Tool], form: Form, input: &[u8], room: &mut [u8]) -> Answer
    requires { IsChain tools.now }
    ensures { HasRunInto tools.now form input.now room.old room.new result }
{
    let made = convert(alloc, tools, form, input);
    let answer = answer_of(made.answer, made.written.len());
    let fits = put(room, made.written.as_slice());
    if fits { answer } else { without_room(answer) }
}

/// Puts the bytes into the front of the room. Returns false, and puts nothing, if they don't fit.
fn put(room: &mut [u8], bytes: &[u8]) -> bool
    ensures { IsPut bytes.now room.old room.new result }
{
    if bytes.len() > room.len() {
        return false;
    }
    room[..bytes.len()].copy_from_slice(bytes);
    true
}

/// Runs as `run_into` does, with the results in memory of their own.
pub fn run_new(alloc: Global, chain: &[u8], form: u32, input: &[u8]) -> Made
    ensures { IsMade chain.now form input.now result }
{
    let Some(form) = form_of(form) else {
        return nothing(alloc, refused(BAD_FORM, 0));
    };
    match read_chain(alloc, chain) {
        Ok(tools) => convert_new(alloc, tools.as_slice(), form, input),
        Err(answer) => nothing(alloc, answer),
    }
}

/// Runs the tools over the input. The results are in memory of their own.
fn convert_new(alloc: Global, tools: &[Tool], form: Form, input: &[u8]) -> Made
    requires { IsChain tools.now }
    ensures { HasMade tools.now form input.now result }
{
    let made = convert(alloc, tools, form, input);
    Made {
        answer: answer_of(made.answer, made.written.len()),
        results: made.written,
    }
}

/// Returns this answer, with no results.
fn nothing(alloc: Global, answer: Answer) -> Made
    ensures results { result.results.items ≡ [] }
    ensures answer { result.answer ≡ answer }
{
    Made {
        results: Vec::new(alloc),
        answer,
    }
}

/// Returns the form of a number: 0 is raw, 1 is plain.
fn form_of(number: u32) -> Option<Form>
    ensures { result ≡ form_numbered number }
{
    match number {
        0 => Some(Form::Raw),
        1 => Some(Form::Plain),
        _ => None,
    }
}
