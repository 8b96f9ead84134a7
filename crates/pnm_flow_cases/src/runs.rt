//! Runs over an input and its prefixes, and what they answer and write.

ghost use Rattle.pnm_tools.specs.Chains.{IsChain};

use super::failing::{Calls, Devices};
use super::ways::{WAYS, Way, run_by};
use pnm_chain::parse_chain;
use pnm_flow::{RunFault, Summary};
use pnm_image::{BytesOut, Device, Form};
use pnm_test_support::{Drips, FailsOnce, NeverFlushes, Sips, Unmade, write_change, write_text};
use pnm_tools::Tool;
use std::alloc::{AllocError, Global};
use std::io::BufWriter;
use std::sync::Wait;
use std::thread::Threads;

/// The text of a chain, the form in which its runs write, their input, and their devices.
#[derive(Clone, Copy)]
pub struct Job<'a> {
    pub chain: &'a str,
    pub form: Form,
    pub input: &'a [u8],
    pub devices: Devices,
}

/// Adds what runs over this input answer and write.
pub fn write_input<R: Threads + Wait + Sync>(
    rt: &R,
    alloc: Global,
    job: Job<'_>,
    out: &mut String,
) -> Result<(), Unmade> {
    match parse_chain(alloc, job.chain) {
        Ok(tools) => write_ways(rt, alloc, tools.as_slice(), job, out),
        Err(_) => Err(Unmade),
    }
}

/// How runs one after another differ.
#[derive(Clone, Copy)]
pub enum Changes<'a> {
    /// The input is cut after 0 bytes, 1 and so on.
    Input,
    /// The failing call of this name is 0 calls later, 1 and so on.
    Calls(&'a [u8], Calls),
    /// The writer has room for 0 bytes behind a buffer, 1 and so on.
    Room,
}

impl Changes<'_> {
    /// Returns the job with change `number`.
    fn job(self, job: Job<'_>, number: usize) -> Job<'_> {
        let mut changed = job;
        match self {
            Changes::Input => changed.input = job.input.get(..number).unwrap_or(job.input),
            Changes::Calls(name, calls) => {
                changed.devices = Devices::Failing(calls.later(name, number));
            }
            Changes::Room => changed.devices = Devices::Buffered(number),
        }
        changed
    }
}

/// Adds what `count` runs that change so answer and write. Each answer has the number of the first run that gives it.
pub fn write_changes<R: Threads + Wait + Sync>(
    rt: &R,
    alloc: Global,
    changes: Changes<'_>,
    count: usize,
    job: Job<'_>,
    out: &mut String,
) -> Result<(), Unmade> {
    let mut before = String::new(alloc);
    for number in 0..count {
        let mut answers = String::new(alloc);
        write_input(rt, alloc, changes.job(job, number), &mut answers)?;
        write_change(out, number, &mut before, answers)?;
    }
    Ok(())
}

/// Adds what a run of these tools answers and writes, and what runs in other ways do, where that differs.
fn write_ways<R: Threads + Wait + Sync>(
    rt: &R,
    alloc: Global,
    tools: &[Tool],
    job: Job<'_>,
    out: &mut String,
) -> Result<(), Unmade>
    requires { IsChain tools.now }
{
    write_run(rt, alloc, Way::OneThread, tools, job, out)?;
    for way in WAYS {
        let mut again = String::new(alloc);
        write_run(rt, alloc, way, tools, job, &mut again)?;
        write_other(out, way, again.as_str())?;
    }
    Ok(())
}

/// Adds what a run in another way answers and writes, if that differs from `out`.
fn write_other(out: &mut String, way: Way, again: &str) -> Result<(), AllocError> {
    if again != out.as_str() {
        write!(out, " but by {way:?}")?;
        out.push_str(again)?;
    }
    Ok(())
}

/// Adds what a run in this way answers and writes.
fn write_run<R: Threads + Wait + Sync>(
    rt: &R,
    alloc: Global,
    way: Way,
    tools: &[Tool],
    job: Job<'_>,
    out: &mut String,
) -> Result<(), Unmade>
    requires { IsChain tools.now }
{
    match job.devices {
        Devices::Whole => {
            let mut writer = Device::new(Vec::new(alloc));
            let answer = run_over(rt, alloc, way, tools, job, &mut writer)?;
            write_answer(out, answer, writer.into_inner().as_slice())
        }
        Devices::Failing(calls) => write_failing_run(rt, alloc, way, tools, job, calls, out),
        Devices::NeverFlushes => {
            let mut writer = Device::new(NeverFlushes::new(alloc));
            let answer = run_over(rt, alloc, way, tools, job, &mut writer)?;
            write_answer(out, answer, writer.into_inner().held())
        }
        Devices::Room(size) => write_run_in_room(rt, alloc, way, tools, job, size, out),
        Devices::Buffered(size) => write_buffered_run(rt, alloc, way, tools, job, size, out),
    }
}

/// Runs a job in this way, over its whole input and this writer.
fn run_over<R: Threads + Wait + Sync, W: BytesOut>(
    rt: &R,
    alloc: Global,
    way: Way,
    tools: &[Tool],
    job: Job<'_>,
    writer: &mut W,
) -> Result<Result<Summary, RunFault>, Unmade>
    requires { IsChain tools.now }
{
    let mut reader = Device::new(job.input);
    run_by(rt, alloc, way, &mut reader, writer, tools, job.form)
}

/// Adds what a run in this way answers if its writer has room for `size` bytes, and all of these bytes.
fn write_run_in_room<R: Threads + Wait + Sync>(
    rt: &R,
    alloc: Global,
    way: Way,
    tools: &[Tool],
    job: Job<'_>,
    size: usize,
    out: &mut String,
) -> Result<(), Unmade>
    requires { IsChain tools.now }
{
    let mut target = Vec::from_elem(alloc, 0, size)?;
    let mut writer = Device::new(target.as_mut_slice());
    let answer = run_over(rt, alloc, way, tools, job, &mut writer)?;
    write_answer(out, answer, target.as_slice())
}

/// Adds the same for a writer behind a buffer, which keeps the bytes back until a flush, as before the program's
/// standard output.
fn write_buffered_run<R: Threads + Wait + Sync>(
    rt: &R,
    alloc: Global,
    way: Way,
    tools: &[Tool],
    job: Job<'_>,
    size: usize,
    out: &mut String,
) -> Result<(), Unmade>
    requires { IsChain tools.now }
{
    let mut target = Vec::from_elem(alloc, 0, size)?;
    let buffer = BufWriter::with_capacity(alloc, 64, target.as_mut_slice())?;
    let mut writer = Device::new(buffer);
    let answer = run_over(rt, alloc, way, tools, job, &mut writer)?;
    // What is left in the buffer isn't written.
    let _ = writer.into_inner().into_parts();
    write_answer(out, answer, target.as_slice())
}

/// Adds what a run in this way answers and writes if its devices make these calls.
fn write_failing_run<R: Threads + Wait + Sync>(
    rt: &R,
    alloc: Global,
    way: Way,
    tools: &[Tool],
    job: Job<'_>,
    calls: Calls,
    out: &mut String,
) -> Result<(), Unmade>
    requires { IsChain tools.now }
{
    let drips = Drips::new(job.input, calls.read_size, FailsOnce::after(calls.reads));
    let (writes, flushes) = (
        FailsOnce::after(calls.writes),
        FailsOnce::after(calls.flushes),
    );
    let mut reader = Device::new(drips);
    let mut writer = Device::new(Sips::new(alloc, calls.write_size, writes, flushes));
    let answer = run_by(rt, alloc, way, &mut reader, &mut writer, tools, job.form)?;
    write_answer(out, answer, writer.into_inner().held())
}

/// Adds what a run answered, and what it wrote.
fn write_answer(
    out: &mut String,
    answer: Result<Summary, RunFault>,
    written: &[u8],
) -> Result<(), Unmade> {
    match answer {
        Ok(summary) => write_summary(out, summary)?,
        Err(fault) => write_fault(out, fault)?,
    }
    Ok(write_text(out, written)?)
}

/// Adds what was written.
fn write_summary(out: &mut String, summary: Summary) -> Result<(), AllocError> {
    let (images, rows) = (summary.images, summary.rows);
    write!(out, " {images} images {rows} rows")
}

/// Adds whose fault it is, and the fault.
fn write_fault(out: &mut String, fault: RunFault) -> Result<(), AllocError> {
    match fault {
        RunFault::NoStart => out.push_str(" NoStart"),
        RunFault::Input(fault) => write!(out, " input {fault}"),
        RunFault::Tool(number, fault) => write!(out, " tool {number} {fault}"),
        RunFault::Output(fault) => write!(out, " output {fault}"),
        RunFault::PeerGone(number) => write!(out, " tool {number} PeerGone"),
    }
}
