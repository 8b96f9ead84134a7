//! What a call returns to its caller.

ghost use Rattle.std.specs.Prelude.{◌≡◌};
ghost use Rattle.pnm_serial.specs.SerialRuns.{IsOfOneThread};
ghost use Rattle.pnm_memory.specs.CallAnswers.{refusal, run_answer, without_room as told_without_room};

use crate::codes::{ROOM, WELL, run_code, run_number};
use pnm_flow::{RunFault, Summary};

/// The outcome of a call, laid out as C lays it out.
#[repr(C)]
#[derive(Clone, Copy)]
pub struct Answer {
    /// 0, or what went wrong.
    pub code: u32,
    /// 0.
    pub reserved: u32,
    /// The stage of the chain's text or the tool that is at fault, from 1, or 0.
    pub number: usize,
    /// Whole images that were written.
    pub images: u64,
    /// Rows that were written.
    pub rows: u64,
    /// Bytes of results, even if the room is too small for them.
    pub size: usize,
    /// 0.
    pub reserved_1: u64,
    /// 0.
    pub reserved_2: u64,
}

/// Returns the answer of a call that ran nothing.
pub(crate) fn refused(code: u32, number: usize) -> Answer
    ensures { result ≡ refusal code number }
{
    Answer {
        code,
        reserved: 0,
        number,
        images: 0,
        rows: 0,
        size: 0,
        reserved_1: 0,
        reserved_2: 0,
    }
}

/// Returns the answer of a run that wrote `size` bytes.
pub(crate) fn answer_of(answer: Result<Summary, RunFault>, size: usize) -> Answer
    requires { IsOfOneThread answer }
    ensures { result ≡ run_answer answer size }
{
    match answer {
        Ok(summary) => Answer {
            images: summary.images,
            rows: summary.rows,
            size,
            ..refused(WELL, 0)
        },
        Err(fault) => Answer {
            size,
            ..refused(run_code(fault), run_number(fault))
        },
    }
}

/// Returns the answer if the room was too small for what a run wrote. Any other fault comes before that one.
pub(crate) fn without_room(answer: Answer) -> Answer
    ensures { result ≡ told_without_room answer }
{
    if answer.code == WELL {
        Answer {
            code: ROOM,
            ..answer
        }
    } else {
        answer
    }
}
