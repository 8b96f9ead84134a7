//! A run in one thread: read, pass through the tools, write.

ghost use Rattle.std.specs.Prelude.{◌≡◌, ◌⊎◌, Err, IfOk, IfErr};
ghost use Rattle.pnm_tools.specs.declared.fault.ToolFault.TheVariants.{Memory as NoMemory};
ghost use Rattle.pnm_tools.specs.Chains.{AreLawfulTools, IsChain};
ghost use Rattle.pnm_serial.specs.Jobs.{job_of};
ghost use Rattle.pnm_serial.specs.Runs.{change};
ghost use Rattle.pnm_serial.specs.SerialRuns.{HasRunInOneThread};
ghost use Rattle.pnm_serial.specs.declared.fault.RunFault.TheVariants.{Tool as OfTool};
ghost use Rattle.pnm_flow.specs.Internal.SerialTools.{AreFresh};

use pnm_filters::{ToolState, filter_of};
use pnm_image::{BytesIn, BytesOut, Form};
use pnm_serial::{RunFault, Summary, run_filters};
use pnm_tools::{FusedFilter, Tool, ToolFault};
use std::alloc::Global;

/// Reads the images of the reader, passes them through the tools and writes the results in the form. If there are
/// several faults, returns the first in this order: the input's, those of the tools in their order, the output's. The
/// output's fault is the writer's, or that the form can't hold the results. After a fault of a tool or of the output it
/// reads on, since a fault that comes earlier in this order may still follow. It also does so if there is no memory for
/// one of the tools. If there is no memory for the list of the tools, it reads nothing, and the fault is that of tool
/// 1. After `u64::MAX` messages, or rows that pass together, it returns `ReadFailed`.
pub fn run_serial<R: BytesIn, W: BytesOut>(
    alloc: Global,
    reader: &mut R,
    writer: &mut W,
    tools: &[Tool],
    form: Form,
) -> Result<Summary, RunFault>
    requires { IsChain tools.now }
    ensures ran { HasRunInOneThread (job_of tools.now form) result (change R.left R.failures reader.old reader.new)
        (change W.held W.failures writer.old writer.new)
        ⊎ ((result ≡ Err (OfTool 1 NoMemory)) × (reader.new ≡ reader.old) × (writer.new ≡ writer.old)) }
    ensures same_reader { R.same reader.old reader.new }
    ensures same_writer { W.same writer.old writer.new }
{
    run_serial_over(alloc, reader, writer, tools, form, usize::MAX)
}

/// Runs as `run_serial` does, over an input that has `length` bytes, as far as is known. For a small input it reads
/// fewer bytes at a time, and takes less memory. The length changes no answer, even if the input has more bytes or
/// fewer.
pub fn run_serial_over<R: BytesIn, W: BytesOut>(
    alloc: Global,
    reader: &mut R,
    writer: &mut W,
    tools: &[Tool],
    form: Form,
    length: usize,
) -> Result<Summary, RunFault>
    requires { IsChain tools.now }
    ensures ran { HasRunInOneThread (job_of tools.now form) result (change R.left R.failures reader.old reader.new)
        (change W.held W.failures writer.old writer.new)
        ⊎ ((result ≡ Err (OfTool 1 NoMemory)) × (reader.new ≡ reader.old) × (writer.new ≡ writer.old)) }
    ensures same_reader { R.same reader.old reader.new }
    ensures same_writer { W.same writer.old writer.new }
{
    let mut stages = match filters_of(alloc, tools) {
        Ok(stages) => stages,
        Err(fault) => return Err(RunFault::Tool(1, fault)),
    };
    run_filters(alloc, reader, writer, stages.as_mut_slice(), form, length)
}

/// Fuses each tool at work. A tool for which there is no memory has refused. The only fault is `Memory`, if there is no
/// memory for the list.
fn filters_of(alloc: Global, tools: &[Tool]) -> Result<Vec<FusedFilter<ToolState>>, ToolFault>
    requires { AreLawfulTools tools.now }
    ensures fresh { IfOk result (λ stages. AreFresh stages.items tools.now) }
    ensures refused { IfErr result (λ fault. fault ≡ NoMemory) }
{
    let mut stages = Vec::with_capacity(alloc, tools.len())?;
    for tool in tools {
        stages.push(filter_of(alloc, tool))?;
    }
    Ok(stages)
}
