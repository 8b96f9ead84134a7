//! The functions that C calls.

ghost use Rattle.std.specs.Prelude.{◌≡◌};
ghost use Rattle.pnm_memory.specs.CallAnswers.{IsReported};
ghost use Rattle.pnm_c.specs.Reports.{IsCodeOf, IsReportedNew, IsReportedEnd};

use crate::bytes::{Bytes, hand_out};
use pnm_memory::{Answer, WELL, check, image_end, run_into, run_new};
use std::alloc::Global;

/// Checks the text of a chain.
#[unsafe(no_mangle)]
pub extern "C" fn pnm_c_check(alloc: Global, chain: &[u8], stage: &mut usize) -> u32
    ensures { IsCodeOf chain.now result stage.new }
{
    let answer = check(alloc, chain);
    *stage = answer.number;
    answer.code
}

/// Passes the images of the input through the tools of the chain, and puts the results into the front of the room.
#[unsafe(no_mangle)]
pub extern "C" fn pnm_c_run(
    alloc: Global,
    chain: &[u8],
    form: u32,
    input: &[u8],
    room: &mut [u8],
    answer: &mut Answer,
) -> u32
    ensures code { result ≡ answer.new.code }
    ensures reported { IsReported chain.now form input.now room.old room.new answer.new }
{
    *answer = run_into(alloc, chain, form, input, room);
    answer.code
}

/// Runs as `pnm_c_run` does, with the results in a block that C frees.
#[unsafe(no_mangle)]
pub extern "C" fn pnm_c_run_new(
    alloc: Global,
    chain: &[u8],
    form: u32,
    input: &[u8],
    results: &mut Bytes,
    answer: &mut Answer,
) -> u32
    ensures code { result ≡ answer.new.code }
    ensures reported { IsReportedNew chain.now form input.now results.new answer.new }
{
    let made = run_new(alloc, chain, form, input);
    *answer = made.answer;
    *results = hand_out(made.results);
    answer.code
}

/// Finds the end of the image that a text begins with. More of the text may follow. Returns 0, or the number of a fault
/// that the header has, whatever follows. If `end` is beyond the text, that many bytes are needed before more can be
/// said.
#[unsafe(no_mangle)]
pub extern "C" fn pnm_c_image_end(alloc: Global, text: &[u8], is_first: u32, end: &mut usize) -> u32
    ensures { IsReportedEnd text.now is_first result end.new }
{
    match image_end(alloc, text, is_first != 0) {
        Ok(found) => {
            *end = found;
            WELL
        }
        Err(code) => {
            *end = 0;
            code
        }
    }
}
