//! How the program runs the tools: a thread for each.

ghost use Rattle.pnm_command_line.specs.ProgramFacts.{over_threads};

use pnm_command_line::Runner;
use pnm_flow::{OpenGate, RunFault, Summary, run};
use pnm_image::{BytesIn, BytesOut, Form};
use pnm_tools::Tool;
use std::sync::Wait;
use std::thread::Threads;

/// Runs the tools over threads of this process.
#[derive(Clone, Copy)]
pub struct OverThreads;

impl Runner for OverThreads {
    ghost has_run = { over_threads };

    fn run<H: AllocGlobal + Threads + Wait + Sync, R: BytesIn, W: BytesOut>(
        &self,
        rt: &H,
        reader: &mut R,
        writer: &mut W,
        tools: &[Tool],
        form: Form,
        capacity: usize,
        lanes: usize,
    ) -> Result<Summary, RunFault> {
        run(
            rt,
            rt.alloc(),
            reader,
            writer,
            tools,
            form,
            capacity,
            lanes,
            &OpenGate,
        )
    }
}
