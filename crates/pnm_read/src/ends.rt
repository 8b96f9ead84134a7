//! Where the first image of a text ends, if more of the text may follow.

ghost use Rattle.std.specs.Prelude.{◌≡◌, IfOk, IfErr, Ok, true};
ghost use Rattle.pnm_read.specs.declared.fault.InputFault.TheVariants.{Memory};
ghost use Rattle.pnm_read.specs.Said.{IsOutsideFault};
ghost use Rattle.pnm_read.specs.ImageEnds.{TellsEnd, IsDecided};

use crate::fault::InputFault;
use crate::open_reader::OpenReader;
use crate::sizes::{ImageSize, image_size};
use crate::source::Source;
use crate::spare_rows::SpareRows;
use std::alloc::Global;

/// Finds where the image ends that the text begins with, whatever follows the text. If that is beyond the end of the
/// text, returns how many bytes are needed before more can be said. A plain image may only come first. It is said to
/// end with the text in which it ends, since what follows it is ignored.
///
/// # Errors
///
/// The fault that is found in the header, whatever follows the text; or `Memory`.
pub fn image_end(alloc: Global, text: &[u8], is_first: bool) -> Result<usize, InputFault>
    ensures { TellsEnd is_first text.now result }
{
    match image_size(alloc, text, is_first)? {
        ImageSize::Raw(size) => Ok(size),
        ImageSize::HeaderCut => Ok(text.len() + 1),
        ImageSize::Plain => {
            let is_whole = is_decided(alloc, text)?;
            Ok(text.len() + usize::from(!is_whole))
        }
    }
}

/// Returns whether the text alone tells all that is said of a stream that begins with it.
///
/// # Errors
///
/// Only `Memory`.
fn is_decided(alloc: Global, text: &[u8]) -> Result<bool, InputFault>
    ensures decided { IfOk result (λ told. told ≡ true → IsDecided text.now) }
    ensures refused { IfErr result (λ fault. fault ≡ Memory) }
{
    let mut source = Source::new(alloc, OpenReader::new(text))?;
    let mut spares = SpareRows::none(alloc);
    for _ in 0..u64::MAX {
        match source.next(&mut spares) {
            Ok(Some(_)) => {}
            Ok(None) => return Ok(true),
            Err(fault) => return is_of_text(fault),
        }
    }
    Ok(false)
}

/// Returns whether the fault is the text's own, and not that of the reader, which has no more bytes.
///
/// # Errors
///
/// `Memory`, if the fault is `Memory`.
fn is_of_text(fault: InputFault) -> Result<bool, InputFault>
    ensures own { result ≡ Ok true → IsOutsideFault fault → ⊥ }
    ensures refused { IfErr result (λ fault. fault ≡ Memory) }
{
    match fault {
        InputFault::Memory => Err(InputFault::Memory),
        InputFault::ReadFailed => Ok(false),
        _ => Ok(true),
    }
}
