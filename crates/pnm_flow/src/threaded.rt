//! A run over threads: the caller reads and writes, and each tool works in a thread of its own, or over lanes in
//! several.

ghost use Rattle.std.specs.Prelude.{◌≡◌, ◌≢◌, ◌⊎◌, ◌≤◌, ◌+◌, ℕ, [], length, Some, Err, IfSome};
ghost use Rattle.std.specs.Thread.{IsSync};
ghost use Rattle.pnm_stages.specs.Rings.{sent, received, IsPair, SameSender, SameReceiver};
ghost use Rattle.pnm_image.specs.declared.format.Form.{Form as FormValue};
ghost use Rattle.pnm_tools.specs.declared.limits.TheConstants.{MAX_TOOLS};
ghost use Rattle.pnm_read.specs.declared.source.Source.{Source as SourceValue};
ghost use Rattle.pnm_read.specs.Sources.{reader_of};
ghost use Rattle.pnm_tools.specs.Chains.{AreLawfulTools, IsChain};
ghost use Rattle.pnm_lanes.specs.LaneLimits.{IsLaneCount};
ghost use Rattle.pnm_stages.specs.RingLimits.{IsRingCapacity};
ghost use Rattle.pnm_serial.specs.declared.fault.RunFault.TheVariants.{NoStart as NotStarted};
ghost use Rattle.pnm_io_loop.specs.Egresses.{IsEgress};
ghost use Rattle.pnm_serial.specs.FusedSinks.{output_of};
ghost use Rattle.pnm_io_loop.specs.Ingresses.{IsIngress};
ghost use Rattle.pnm_serial.specs.Jobs.{Job};
ghost use Rattle.pnm_serial.specs.Runs.{change, HasRun};
ghost use Rattle.pnm_io_loop.specs.IoLoop.{HaveStepped};
ghost use Rattle.pnm_flow.specs.ChainRuns.{HasRunChain};
ghost use Rattle.pnm_flow.specs.ThreadedRuns.{fault_of_end, first_fault_from};
ghost use Rattle.pnm_flow.specs.Internal.ThreadedRuns.{answer_over};

use crate::chain::{ChainDone, run_chain_beside};
use pnm_image::{BytesIn, BytesOut, Form};
use pnm_io_loop::{Egress, Ingress, IoLoop};
use pnm_read::{InputFault, Source};
use pnm_serial::{Buffers, RunFault, Summary};
use pnm_stages::{Gate, Receiver, Sender, StageEnd, new_ring};
use pnm_tools::Tool;
use pnm_write::SinkFault;
use std::alloc::Global;
use std::sync::Wait;
use std::thread::Threads;

/// Reads the images of the reader, passes them through the tools and writes what comes out in the form, with the
/// answers and the bytes of `run_serial`. This thread reads and writes, and each tool works in a thread of its own,
/// which passes the gate with its number, from 1, and lane 0. If there are several `lanes`, 8 at most, each row-wise
/// tool has a thread for each lane, which passes the gate with the tool's number and its lane, from 0, and two more
/// threads, which deal the rows and gather them. Each ring holds `capacity` packets, 1 to 1,024.
///
/// Returns `NoStart` if there is no memory for a ring or a list, if a ring's wakers have too many owners, or if a
/// thread can't be started; and `Input(Memory)`, with nothing read, if there is no memory for the buffers. Before the
/// source waits for its reader, all that has come from the last tool by then is written.
pub fn run<H: Threads + Wait + Sync, R: BytesIn, W: BytesOut, G: Gate>(
    rt: &H,
    alloc: Global,
    reader: &mut R,
    writer: &mut W,
    tools: &[Tool],
    form: Form,
    capacity: usize,
    lanes: usize,
    gate: &G,
) -> Result<Summary, RunFault>
    requires chain { IsChain tools.now }
    requires capacity { IsRingCapacity capacity }
    requires lanes { IsLaneCount lanes }
    ensures ran { (result ≡ Err NotStarted) ⊎ HasRun lanes ⊥ (record { tools = tools.now; form = form }) result
        (change R.left R.failures reader.old reader.new) (change W.held W.failures writer.old writer.new) }
    // If no chain came back, what it held didn't either.
    ensures same_reader { result ≢ Err NotStarted → R.same reader.old reader.new }
    ensures same_writer { result ≢ Err NotStarted → W.same writer.old writer.new }
{
    let (Some((to_chain, input)), Some((mut output, from_chain))) = (
        new_ring(alloc, capacity),
        new_ring(alloc, capacity),
    ) else {
        return Err(RunFault::NoStart);
    };
    if !output.set_home(&to_chain) {
        return Err(RunFault::NoStart);
    }
    let Buffers { read, write } = match Buffers::new(alloc) {
        Ok(buffers) => buffers,
        Err(fault) => return Err(RunFault::Input(fault)),
    };
    let source = Source::with_buffer(read, &mut *reader);
    let ingress = Ingress::new(source, to_chain);
    let egress = Egress::new(from_chain, write, &mut *writer, form);
    let both = beside_chain(
        rt, alloc, tools, capacity, lanes, gate, input, output, ingress, egress,
    );
    let Some((chain, ingress, egress)) = both else {
        return Err(RunFault::NoStart);
    };
    let (read, written, answer) = conclude(chain, ingress, egress);
    // No effect at run time. The proof reads from these uses what the two devices hold.
    let _ = &*read;
    let _ = &*written;
    answer
}

/// Runs the chain, and the caller's loop beside it, once each of its threads is started; none where one can't be.
fn beside_chain<H: Threads + Wait + Sync, R: BytesIn + Drop, W: BytesOut + Drop, G: Gate>(
    rt: &H,
    alloc: Global,
    tools: &[Tool],
    capacity: usize,
    lanes: usize,
    gate: &G,
    input: Receiver,
    output: Sender,
    ingress: Ingress<R>,
    egress: Egress<W>,
) -> Option<(ChainDone, Ingress<R>, Egress<W>)>
    requires shared { IsSync H.row × IsSync G.row }
    requires chain { IsChain tools.now }
    requires capacity { IsRingCapacity capacity }
    requires lanes { IsLaneCount lanes }
    ensures input { IfSome result (λ r. SameReceiver input r.0.input) }
    ensures output { IfSome result (λ r. SameSender output r.0.output) }
    ensures ran { IfSome result (λ r. HasRunChain lanes tools.now r.0.ends.items r.0.links.items
        (received input) (received r.0.input) (sent output) (sent r.0.output)) }
    ensures stepped { IfSome result
        (λ r. HaveStepped R.left R.failures R.same W.held W.failures W.same ingress egress r.1 r.2) }
{
    let io_loop = IoLoop::new(rt, alloc, ingress, egress)?;
    let all = match run_chain_beside(
        rt, alloc, tools, capacity, lanes, gate, input, output, io_loop,
    ) {
        Ok(all) => all,
        Err(_) => return None,
    };
    let (chain, stepped) = all;
    let (ingress, egress) = stepped;
    Some((chain, Box::into_inner(ingress), Box::into_inner(egress)))
}

/// The two devices once all have ended, and the answer of the run.
#[inline(never)]
fn conclude<R: BytesIn + Drop, W: BytesOut + Drop>(
    chain: ChainDone,
    ingress: Ingress<R>,
    egress: Egress<W>,
) -> (R, W, Result<Summary, RunFault>)
    requires rings { IsPair ingress.output chain.input × IsPair chain.output egress.input }
    requires ends { length chain.ends.items ≤ MAX_TOOLS }
    requires taken { (form : FormValue) × (start : W) × IsEgress W.held W.failures form start [] egress }
    ensures ran { (first : SourceValue R) (start : W) (lanes : ℕ) (job : Job) → AreLawfulTools job.tools
        → IsIngress R.left R.failures first [] ingress → IsEgress W.held W.failures job.form start [] egress
        → HasRunChain lanes job.tools chain.ends.items chain.links.items [] (received chain.input) []
        (sent chain.output)
        → HasRun lanes ⊥ job result.2 (change R.left R.failures (reader_of first) result.0)
        (change W.held W.failures start result.1) }
    ensures started { result.2 ≢ Err NotStarted }
    ensures reader { result.0 ≡ reader_of ingress.source }
    ensures same_writer { W.same (output_of egress.fused_sink) result.1 }
{
    let ChainDone {
        mut input,
        mut output,
        ends,
        ..
    } = chain;
    let (reader, mut sender, fed) = ingress.into_parts();
    // What was sent and not received is known now.
    input.look_beside(&mut sender);
    let mut egress = egress;
    egress.receive_rest(&mut output);
    let (fused_sink, has_ended) = egress.into_parts();
    let (writer, written) = fused_sink.finish();
    let answer = answer(fed, ends.as_slice(), has_ended, written);
    (reader, writer, answer)
}

/// The answer of a run: the first of the faults in their order.
fn answer(
    input: Option<Result<(), InputFault>>,
    ends: &[StageEnd],
    has_ended: bool,
    output: Result<Summary, SinkFault>,
) -> Result<Summary, RunFault>
    requires { length ends.now ≤ MAX_TOOLS }
    ensures { result ≡ answer_over input (first_fault_from 1 ends.now) has_ended (length ends.now + 1) output }
{
    match input {
        None => return Err(RunFault::PeerGone(0)),
        Some(Err(fault)) => return Err(RunFault::Input(fault)),
        Some(Ok(())) => {}
    }
    if let Some(fault) = first_fault(ends) {
        return Err(fault);
    }
    if !has_ended {
        return Err(RunFault::PeerGone(ends.len() + 1));
    }
    match output {
        Ok(summary) => Ok(summary),
        Err(fault) => Err(RunFault::Output(fault)),
    }
}

/// The fault of the first stage that has one, or that saw a ring's other end dropped.
fn first_fault(ends: &[StageEnd]) -> Option<RunFault>
    ensures { result ≡ first_fault_from 1 ends.now }
{
    for (index, end) in ends.iter().enumerate() {
        if let Some(fault) = fault_of(*end, index + 1) {
            return Some(fault);
        }
    }
    None
}

/// The run's fault for this end of the stage with this number. Returns `None` if the end is no fault.
fn fault_of(end: StageEnd, number: usize) -> Option<RunFault>
    ensures { result ≡ fault_of_end number end }
{
    match end {
        StageEnd::Well | StageEnd::Broken => None,
        StageEnd::Fault(fault) => Some(RunFault::Tool(number, fault)),
        StageEnd::PeerGone => Some(RunFault::PeerGone(number)),
    }
}
