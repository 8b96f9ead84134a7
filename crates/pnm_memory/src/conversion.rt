//! A run over a text that lies in memory.

ghost use Rattle.std.specs.Prelude.{◌≡◌};
ghost use Rattle.pnm_serial.specs.Jobs.{job_of};
ghost use Rattle.pnm_tools.specs.Chains.{IsChain};
ghost use Rattle.pnm_memory.specs.Conversions.{HasConverted};

use crate::devices::{TextReader, VecWriter};
use pnm_flow::{RunFault, Summary, run_serial_over};
use pnm_image::Form;
use pnm_tools::Tool;
use std::alloc::Global;

/// The outcome of a run, and the bytes that it wrote, even before a fault.
#[derive(Drop)]
pub struct Converted {
    /// The run's answer.
    pub answer: Result<Summary, RunFault>,
    /// What it wrote.
    pub written: Vec<u8>,
}

/// Passes the images of the text through the tools, and keeps the results in the form. If memory runs out while it
/// keeps results, the answer is a failed write.
pub fn convert(alloc: Global, tools: &[Tool], form: Form, text: &[u8]) -> Converted
    requires { IsChain tools.now }
    ensures { HasConverted text.now (job_of tools.now form) result.answer result.written.items }
{
    let mut reader = TextReader::new(text);
    let mut writer = VecWriter::new(alloc);
    let answer = run_serial_over(alloc, &mut reader, &mut writer, tools, form, text.len());
    Converted {
        answer,
        written: writer.into_inner(),
    }
}
