//! Wrappers between the program's streams and a run: a buffer before the output, and calls that are repeated.

ghost use Rattle.std.specs.Prelude.{◌≡◌, ◌≢◌, ◌⊎◌, ◌≤◌, [], Some, IfSome};
ghost use Rattle.std.specs.Io.Buffered.{writer_buffer, writer_contents};
ghost use Rattle.std.specs.Io.KnownBytes.{Appends, Keeps};
ghost use Rattle.pnm_image.specs.Devices.{AppendsPrefix, Failed};
ghost use Rattle.pnm_command_line.specs.NamedRuns.{HasRunOverStreams, HasRunTools, known};
ghost use Rattle.pnm_command_line.specs.Streams.{given_at_end};
ghost use Rattle.pnm_serial.specs.Jobs.{job_of};
ghost use Rattle.pnm_serial.specs.Runs.{change};
ghost use Rattle.pnm_lanes.specs.LaneLimits.{IsLaneCount};
ghost use Rattle.pnm_stages.specs.RingLimits.{IsRingCapacity};
ghost use Rattle.pnm_tools.specs.Chains.{IsChain};

use crate::fault_line::{print_run_fault, print_want_of_memory};
use crate::named_run::{COMMAND_LINE_FAULT, RUN_FAULT, WELL};
use crate::runner::Runner;
use pnm_image::{BytesIn, BytesOut, Device, Form, write_all};
use pnm_serial::RunFault;
use pnm_streams::{BypassWriter, Retry};
use pnm_tools::Tool;
use pnm_write::SinkFault;
use std::alloc::Global;
use std::io::{BufWriter, Read, Write};
use std::sync::Wait;
use std::thread::Threads;

/// How many bytes the output keeps back, since each write to it is a system call.
const OUTPUT_CAPACITY: usize = 65_536;

/// How the program ended: its status, its streams, and what wasn't written.
#[derive(Debug, Drop)]
pub struct Ended<R, W> {
    /// The status.
    pub status: u8,
    /// What it read from.
    pub input: R,
    /// What it wrote to; `None` if there was no memory for the buffer before it.
    pub output: Option<W>,
    /// The bytes that were kept back when a write failed. They come behind what was written.
    pub unwritten: Vec<u8>,
}

impl<R, W> Ended<R, W> {
    /// Creates an end with nothing unwritten.
    pub(crate) fn new(alloc: Global, status: u8, input: R, output: W) -> Ended<R, W>
        ensures status { result.status ≡ status }
        ensures input { result.input ≡ input }
        ensures output { result.output ≡ Some output }
        ensures whole { result.unwritten.items ≡ [] }
    {
        Ended {
            status,
            input,
            output: Some(output),
            unwritten: Vec::new(alloc),
        }
    }
}

/// Writes the text to the stream.
pub(crate) fn tell<W: Write>(output: W, text: &str) -> W
    ensures { AppendsPrefix (W.contents output) (W.contents result) text.now }
{
    let mut output = Device::new(Retry::new(output));
    print_text(&mut output, text);
    output.into_inner().into_inner()
}

/// Writes the text, up to a failed write.
pub fn print_text<W: BytesOut>(output: &mut W, text: &str)
    ensures prefix { AppendsPrefix (W.held output.old) (W.held output.new) text.now }
    ensures whole { Appends (W.held output.old) (W.held output.new) text.now
        ⊎ Failed (W.failures output.old) (W.failures output.new) }
{
    if let Ok(()) = write_all(output, text.as_bytes()) {
        let _ = output.flush();
    }
}

/// Runs the tools over the streams, and prints the run's fault. A long write bypasses the buffer before the output.
pub(crate) fn run_over_streams<
    A: Runner,
    H: AllocGlobal + Threads + Wait + Sync,
    R: Read,
    W: Write + Drop,
    E: Write,
>(
    rt: &H,
    runner: &A,
    tools: &[Tool],
    ring: u16,
    lanes: u8,
    form: Form,
    input: R,
    output: W,
    errors: &mut E,
) -> Ended<R, W>
    requires chain { IsChain tools.now }
    requires ring { IsRingCapacity ring }
    requires lanes { IsLaneCount lanes }
    ensures status { result.status ≤ 2 }
    ensures untouched { result.status ≡ 2 → (result.input ≡ input) × IfSome result.output (λ w. w ≡ output) }
    ensures whole { result.status ≢ 1 → result.unwritten.items ≡ [] }
    ensures ran { result.status ≢ 2 → HasRunOverStreams A.has_run lanes (job_of tools.now form) result.status
        (known (R.remaining input) (R.remaining result.input))
        (known (W.contents output) (given_at_end W.contents result)) }
    ensures silent { result.status ≡ 0 → errors.new ≡ errors.old }
{
    let alloc = rt.alloc();
    let Ok(buffered) = BufWriter::with_capacity(alloc, OUTPUT_CAPACITY, Retry::new(output)) else {
        print_want_of_memory(errors);
        return Ended {
            status: COMMAND_LINE_FAULT,
            input,
            output: None,
            unwritten: Vec::new(alloc),
        };
    };
    let mut reader = Device::new(Retry::new(input));
    let mut writer = Device::new(BypassWriter::new(buffered));
    let status = run_tools(
        rt,
        runner,
        tools,
        ring,
        lanes,
        form,
        &mut reader,
        &mut writer,
        errors,
    );
    let mut buffered = writer.into_inner().into_inner();
    let status = flush_after(status, &mut buffered, errors);
    // If the buffer were dropped, it would write what is left after a failed write.
    let (output, unwritten) = buffered.into_parts();
    Ended {
        status,
        input: reader.into_inner().into_inner(),
        output: Some(output.into_inner()),
        unwritten,
    }
}

/// Flushes the output if this status is that of a run that ended well, and returns the status after the flush. Such a
/// run has flushed already, so nothing is left to write.
fn flush_after<W: Write + Drop, E: Write>(
    status: u8,
    output: &mut BufWriter<W>,
    errors: &mut E,
) -> u8
    requires { status ≤ 1 }
    ensures status { (result ≡ status) ⊎ ((status ≡ 0) × (result ≡ 1)) }
    ensures kept { Keeps (writer_contents W.contents output.old) (writer_contents W.contents output.new) }
    ensures whole { result ≢ 1 → writer_buffer output.new ≡ [] }
    ensures silent { result ≡ 0 → errors.new ≡ errors.old }
{
    if status != WELL {
        return status;
    }
    if let Ok(()) = output.flush() {
        return WELL;
    }
    print_run_fault(errors, RunFault::Output(SinkFault::WriteFailed));
    RUN_FAULT
}

/// Runs the tools over the input, with rings for `ring` packets between them and each row-wise tool over `lanes` lanes,
/// writes the results in the form, and prints the run's fault. Like the code that reads the words it has a stack frame
/// of its own, so that the words take no stack while the tools run.
#[inline(never)]
fn run_tools<A: Runner, H: AllocGlobal + Threads + Wait + Sync, R: BytesIn, W: BytesOut, E: Write>(
    rt: &H,
    runner: &A,
    tools: &[Tool],
    ring: u16,
    lanes: u8,
    form: Form,
    input: &mut R,
    output: &mut W,
    errors: &mut E,
) -> u8
    requires chain { IsChain tools.now }
    requires ring { IsRingCapacity ring }
    requires lanes { IsLaneCount lanes }
    ensures status { result ≤ 1 }
    ensures ran { HasRunTools A.has_run lanes (job_of tools.now form) result
        (change R.left R.failures input.old input.new) (change W.held W.failures output.old output.new) }
    ensures silent { result ≡ 0 → errors.new ≡ errors.old }
{
    let capacity = usize::from(ring);
    let lanes = usize::from(lanes);
    match runner.run(rt, input, output, tools, form, capacity, lanes) {
        Ok(_) => WELL,
        Err(fault) => {
            print_run_fault(errors, fault);
            RUN_FAULT
        }
    }
}
