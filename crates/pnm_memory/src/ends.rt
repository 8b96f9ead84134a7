//! Where the first image of a text ends.

ghost use Rattle.pnm_memory.specs.CallAnswers.{IsEndTold};

use crate::codes::input_code;
use std::alloc::Global;

/// Finds where the image ends that the text begins with, or how many bytes are needed before more can be said, as
/// `image_end` of `pnm_read` does. Returns the number of the fault if the header has one or memory runs out.
pub fn image_end(alloc: Global, text: &[u8], is_first: bool) -> Result<usize, u32>
    ensures { IsEndTold is_first text.now result }
{
    match pnm_read::image_end(alloc, text, is_first) {
        Ok(end) => Ok(end),
        Err(fault) => Err(input_code(fault)),
    }
}
