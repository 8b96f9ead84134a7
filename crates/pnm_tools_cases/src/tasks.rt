//! Tools at work. Only one function holds such a tool, since each function that does takes long to prove.

use super::steps::{Step, go};
use super::sweeps;
use pnm_filters::{ToolState, start_tool};
use pnm_image::{SampleWidth, Shape};
use pnm_test_support::{Sweep, Unmade};
use pnm_tools::{Filter, Tool};
use std::alloc::Global;

/// What a tool at work is to do.
#[derive(Clone, Copy)]
pub enum Task<'a> {
    /// These steps, how they pass messages on, and whether rows are in few bits rather than in words.
    Steps(&'a [u8], Step, bool),
    /// Made images of these sizes.
    Stream(&'a [u8]),
    /// A made image, the width in which its samples are held, and whether the end of the stream follows.
    Image(Shape, SampleWidth, bool),
}

impl Task<'_> {
    fn solve<F: Filter>(
        self,
        alloc: Global,
        state: &mut F,
        out: &mut String,
    ) -> Result<(), Unmade> {
        match self {
            Task::Steps(text, step, is_narrow) => go(alloc, state, text, step, is_narrow, out),
            Task::Stream(text) => sweeps::write_stream(alloc, state, text, out),
            Task::Image(shape, held, is_ended) => {
                sweeps::feed_image(alloc, state, shape, held, out)?;
                sweeps::feed_end(alloc, state, is_ended, out)
            }
        }
    }
}

/// Returns the tool, which must be lawful, at work.
fn start(alloc: Global, tool: &Tool) -> Result<ToolState, Unmade> {
    if !tool.is_lawful() {
        return Err(Unmade);
    }
    match start_tool(alloc, tool) {
        Ok(state) => Ok(state),
        Err(_) => Err(Unmade),
    }
}

/// Adds what a tool gives at its task.
pub fn write_at_work(
    alloc: Global,
    tool: &Tool,
    task: Task<'_>,
    out: &mut String,
) -> Result<(), Unmade> {
    let mut state = start(alloc, tool)?;
    task.solve(alloc, &mut state, out)
}

/// Adds what a tool gives at its task to a sweep.
pub fn add_answers(
    alloc: Global,
    sweep: &mut Sweep,
    tool: &Tool,
    task: Task<'_>,
) -> Result<(), Unmade> {
    let mut out = String::new(alloc);
    write_at_work(alloc, tool, task, &mut out)?;
    sweep.add(out.as_str());
    Ok(())
}
