//! The buffers of a run.

ghost use Rattle.std.specs.Prelude.{◌≡◌, IfErr};
ghost use Rattle.pnm_read.specs.declared.fault.InputFault.TheVariants.{Memory};

use pnm_read::{InputFault, ReadBuffer};
use pnm_write::WriteBuffer;
use std::alloc::Global;

/// The most bytes that a run reads at a time. One read may bring several small images. Before each read the run takes
/// and writes the result of each image that was sent whole.
const READ_BYTES: usize = 65_536;

/// The fewest bytes that a read buffer has room for.
const LEAST_READ_BYTES: usize = 4096;

/// The buffers that a run reads into and encodes into. It makes both before it takes its reader and its writer, so that
/// a run for which there is no memory leaves these as they were.
#[derive(Drop)]
pub struct Buffers {
    pub read: ReadBuffer,
    pub write: WriteBuffer,
}

impl Buffers {
    /// Creates buffers that hold nothing yet. The only fault is `Memory`.
    pub fn new(alloc: Global) -> Result<Buffers, InputFault>
        ensures refused { IfErr result (λ fault. fault ≡ Memory) }
    {
        Buffers::for_input(alloc, READ_BYTES)
    }

    /// Creates buffers as `new` does, for an input of `length` bytes: if they are few, there is less room to read into.
    /// The only fault is `Memory`.
    pub(crate) fn for_input(alloc: Global, length: usize) -> Result<Buffers, InputFault>
        ensures refused { IfErr result (λ fault. fault ≡ Memory) }
    {
        let capacity = length.min(READ_BYTES).max(LEAST_READ_BYTES);
        let read = ReadBuffer::with_capacity(alloc, capacity)?;
        match WriteBuffer::new(alloc) {
            Ok(write) => Ok(Buffers { read, write }),
            Err(_) => Err(InputFault::Memory),
        }
    }
}
