//! A run in one thread, over filters that are given: read, pass through them, write.

ghost use Rattle.std.specs.Prelude.{◌≡◌, List, []};
ghost use Rattle.pnm_image.specs.declared.format.Form.{Form as FormValue};
ghost use Rattle.pnm_image.specs.declared.message.Message.{Message as MessageValue};
ghost use Rattle.pnm_read.specs.Sources.{reader_of, IsFreshSource as IsUnread};
ghost use Rattle.pnm_tools.specs.declared.tool.Tool.{Tool as ToolValue};
ghost use Rattle.pnm_tools.specs.Chains.{AreLawfulTools};
ghost use Rattle.pnm_serial.specs.FusedSinks.{output_of, HasTaken};
ghost use Rattle.pnm_serial.specs.Jobs.{job_of};
ghost use Rattle.pnm_serial.specs.Runs.{change};
ghost use Rattle.pnm_serial.specs.SerialRuns.{HasRunInOneThread};
ghost use Rattle.pnm_serial.specs.Internal.SerialRuns.{answer_by, IsFirstRefusal};
ghost use Rattle.pnm_serial.specs.SerialChains.{FiltersAt};
ghost use Rattle.pnm_serial.specs.Internal.SerialChains.{refusals_in};
ghost use Rattle.pnm_serial.specs.Internal.Feeding.{HasFed};

use crate::buffers::Buffers;
use crate::fault::RunFault;
use crate::fused_sink::FusedSink;
use crate::passing::feed_through;
use crate::summary::Summary;
use pnm_image::{BytesIn, BytesOut, Form};
use pnm_read::{InputFault, Source, SpareRows};
use pnm_tools::{Filter, FusedFilter, ToolFault};
use pnm_write::SinkFault;
use std::alloc::Global;

/// Reads the images of the reader, passes them through these filters, which have had no message yet, and writes the
/// results in the form, as `run_serial` does once it has made the filters. `length` is the input's length, or
/// `usize::MAX` if that isn't known. If it is small, so is the read buffer.
pub fn run_filters<R: BytesIn, F: Filter + Drop, W: BytesOut>(
    alloc: Global,
    reader: &mut R,
    writer: &mut W,
    stages: &mut [FusedFilter<F>],
    form: Form,
    length: usize,
) -> Result<Summary, RunFault>
    ensures ran { (tools : List ToolValue) → AreLawfulTools tools
        → FiltersAt F.at F.all_given F.stopped stages.old tools [] []
        → HasRunInOneThread (job_of tools form) result (change R.left R.failures reader.old reader.new)
        (change W.held W.failures writer.old writer.new) }
    ensures same_reader { R.same reader.old reader.new }
    ensures same_writer { W.same writer.old writer.new }
{
    let Buffers { read, write } = match Buffers::for_input(alloc, length) {
        Ok(buffers) => buffers,
        Err(fault) => return Err(RunFault::Input(fault)),
    };
    let mut source = Source::with_buffer(read, &mut *reader);
    let mut fused_sink = FusedSink::new(write, &mut *writer, form);
    let input = feed_all(alloc, &mut source, stages, &mut fused_sink);
    let read = source.into_reader();
    let (written, output) = fused_sink.finish();
    // No effect at run time. A proof learns from these uses what the two devices hold.
    let _ = &*read;
    let _ = &*written;
    answer(input, first_fault(stages), output)
}

/// The answer of a run.
fn answer(
    input: Result<(), InputFault>,
    refused: Option<(usize, ToolFault)>,
    output: Result<Summary, SinkFault>,
) -> Result<Summary, RunFault>
    ensures { result ≡ answer_by input refused output }
{
    match (input, refused, output) {
        (Err(fault), _, _) => Err(RunFault::Input(fault)),
        (Ok(()), Some((number, fault)), _) => Err(RunFault::Tool(number, fault)),
        (Ok(()), None, Err(fault)) => Err(RunFault::Output(fault)),
        (Ok(()), None, Ok(summary)) => Ok(summary),
    }
}

/// Returns the number and the fault of the first filter that has refused.
fn first_fault<F: Filter + Drop>(stages: &[FusedFilter<F>]) -> Option<(usize, ToolFault)>
    ensures { IsFirstRefusal (refusals_in stages.now) result }
{
    for (index, stage) in stages.iter().enumerate() {
        if let Some(fault) = stage.fault() {
            return Some((index + 1, fault));
        }
    }
    None
}

/// Passes on all packets of the source, up to its end or its fault. Returns `ReadFailed` after it has asked for
/// `u64::MAX` packets.
fn feed_all<R: BytesIn, F: Filter + Drop, W: BytesOut + Drop>(
    alloc: Global,
    source: &mut Source<R>,
    stages: &mut [FusedFilter<F>],
    fused_sink: &mut FusedSink<W>,
) -> Result<(), InputFault>
    requires unread { IsUnread (reader_of source.old) source.old }
    ensures fed { HasFed R.left R.failures F.at F.all_given F.stopped W.held W.failures
        source.old source.new result stages.old stages.new fused_sink.old fused_sink.new }
    ensures same_reader { R.same (reader_of source.old) (reader_of source.new) }
    ensures same_writer { W.same (output_of fused_sink.old) (output_of fused_sink.new) }
{
    let mut spares = SpareRows::none(alloc);
    for _ in 0..u64::MAX {
        flush_before_read(source, fused_sink);
        let next = source.next(&mut spares)?;
        match next {
            Some(packet) => feed_through(alloc, stages, packet, fused_sink),
            None => return Ok(()),
        }
    }
    Err(InputFault::ReadFailed)
}

/// Flushes the images that have ended, if the source may have to wait for its reader.
fn flush_before_read<R: BytesIn, W: BytesOut + Drop>(
    source: &Source<R>,
    fused_sink: &mut FusedSink<W>,
)
    ensures taken { (form : FormValue) (start : W) (messages : List MessageValue)
        → HasTaken W.held W.failures form start messages fused_sink.old
        → HasTaken W.held W.failures form start messages fused_sink.new }
    ensures same_device { W.same (output_of fused_sink.old) (output_of fused_sink.new) }
{
    if !source.holds_next() {
        fused_sink.flush_images();
    }
}
