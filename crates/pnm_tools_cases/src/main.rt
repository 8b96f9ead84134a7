//! Prints what tools make of written messages, and which tools the texts of chains name. A line of standard input is a
//! word, and what it is about. Escapes, and the form of messages, are those of `pnm_test_support`. A line that begins
//! with `#` is printed as it is.
//!
//! - `judge TOOL`: whether the tool is lawful, and whether row-wise
//! - `copy TOOL`: the tool, and a copy of it
//! - `tool TOOL`: what `judge` prints. The lines that follow are about this tool and all others since the last `none`
//! - `head HEAD`: the head of the result
//! - `run STEPS`: what the tool gives for each step (`steps`), however wide rows are held
//! - `lane STEPS`: what the tool gives for each step in a lane
//! - `held STEPS`: how the tool holds the rows that it gives, if it is fed rows in as few bits as hold their samples
//! - `images SIZES`: a sweep over made images of these sizes in one stream (`sweeps`)
//! - `types FIRST-LAST WIDTH-WIDTHxHEIGHT-HEIGHT`: a sweep over made images of these types and sizes, each by itself
//! - `axis LENGTH START END SIZE`: what a cut with these options keeps of `LENGTH` columns, and of `LENGTH` rows
//! - `axes`: a sweep over the cuts of short images by each of the options so far across and down
//! - `chain TEXT`: the tools that the text of a chain names, or the number of the stage at fault and the fault
//! - `names tools`, `names chain`: the printed faults of tools, and of texts of chains
//!
//! For several tools, answers are printed whenever they change, with the number of the first tool that gives them. For
//! a sweep, the number of images and a CRC-32 are printed.
#![tactic(auto)]

mod chains;
mod cuts;
mod steps;
mod sweeps;
mod tasks;
mod tools;

use cuts::Axis;
use pnm_test_support::{Solver, Unmade, named, write_all, write_change, write_lines};
use pnm_tools::{Tool, ToolFault};
use std::alloc::{AllocError, Global};
use steps::Step;
use tasks::{Task, write_at_work};
use tools::tool_of;

/// What a line is about.
#[derive(Clone, Copy)]
enum How {
    Judge,
    Copy,
    Tool,
    None,
    Head,
    Run,
    Lane,
    Held,
    Images,
    Types,
    Axis,
    Axes,
    Chain,
    Names,
}

const WORDS: &[(&[u8], How)] = &[
    (b"judge", How::Judge),
    (b"copy", How::Copy),
    (b"tool", How::Tool),
    (b"none", How::None),
    (b"head", How::Head),
    (b"run", How::Run),
    (b"lane", How::Lane),
    (b"held", How::Held),
    (b"images", How::Images),
    (b"types", How::Types),
    (b"axis", How::Axis),
    (b"axes", How::Axes),
    (b"chain", How::Chain),
    (b"names", How::Names),
];

const FAULTS: &[ToolFault] = &[
    ToolFault::CutOutside,
    ToolFault::ChannelOutside,
    ToolFault::TooLarge,
    ToolFault::OutOfOrder,
    ToolFault::Memory,
];

/// The solver of these cases, with the tools that the lines so far have named.
#[derive(Drop)]
struct Named {
    tools: Vec<Tool>,
    axes: Vec<Axis>,
}

fn main(rt: HostRuntime) -> Result<(), Unmade> {
    let alloc = rt.alloc();
    let mut named = Named {
        tools: Vec::new(alloc),
        axes: Vec::new(alloc),
    };
    write_lines(&rt, &mut named)
}

impl Solver for Named {
    fn solve(
        &mut self,
        alloc: Global,
        word: &[u8],
        text: &[u8],
        out: &mut String,
    ) -> Result<(), Unmade> {
        match named(WORDS, word) {
            Some(how) => solve(alloc, how, text, self, out),
            None => Err(Unmade),
        }
    }
}

fn solve(
    alloc: Global,
    how: How,
    text: &[u8],
    named: &mut Named,
    out: &mut String,
) -> Result<(), Unmade> {
    match how {
        How::Judge | How::Copy | How::Tool => {
            let tool = tool_of(alloc, text)?;
            write_tool(alloc, how, tool, named, out)
        }
        How::None => {
            named.tools.clear();
            Ok(())
        }
        How::Axis => {
            let axis = Axis::of(text);
            cuts::write_axis(alloc, axis, out)?;
            Ok(named.axes.push(axis)?)
        }
        How::Axes => cuts::write_axes(alloc, named.axes.as_slice(), out),
        How::Chain => chains::write_chain(alloc, text, out),
        How::Names => Ok(write_names(text, out)?),
        _ => write_each(alloc, how, text, named.tools.as_slice(), out),
    }
}

/// Adds whether a tool is lawful and row-wise, or the tool and its copy. Keeps the tool named if `how` is `Tool`.
fn write_tool(
    alloc: Global,
    how: How,
    tool: Tool,
    named: &mut Named,
    out: &mut String,
) -> Result<(), Unmade> {
    if matches!(how, How::Copy) {
        return tools::write_copy(alloc, &tool, out);
    }
    tools::write_judged(&tool, out)?;
    if matches!(how, How::Tool) {
        named.tools.push(tool)?;
    }
    Ok(())
}

/// Adds the answers of each tool.
fn write_each(
    alloc: Global,
    how: How,
    text: &[u8],
    tools: &[Tool],
    out: &mut String,
) -> Result<(), Unmade> {
    let mut before = String::new(alloc);
    for (number, tool) in tools.iter().enumerate() {
        let mut answers = String::new(alloc);
        write_of_tool(alloc, how, text, tool, &mut answers)?;
        if tools.len() == 1 {
            out.push_str(answers.as_str())?;
        } else {
            write_change(out, number, &mut before, answers)?;
        }
    }
    Ok(())
}

/// Adds the answers of a tool.
fn write_of_tool(
    alloc: Global,
    how: How,
    text: &[u8],
    tool: &Tool,
    out: &mut String,
) -> Result<(), Unmade> {
    if !tool.is_lawful() {
        return Ok(out.push_str(" unlawful")?);
    }
    match how {
        How::Head => tools::write_head_of(alloc, tool, text, out),
        How::Lane => steps::write_lane(alloc, tool, text, out),
        How::Held => write_at_work(alloc, tool, Task::Steps(text, Step::Widths, true), out),
        How::Images => write_at_work(alloc, tool, Task::Stream(text), out),
        How::Types => sweeps::write_types(alloc, tool, text, out),
        _ => steps::write_run(alloc, tool, text, out),
    }
}

/// Adds the names of the faults of texts of chains, or of tools.
fn write_names(text: &[u8], out: &mut String) -> Result<(), AllocError> {
    if text == b"chain".as_slice() {
        return write_all(out, chains::KINDS);
    }
    write_all(out, FAULTS)
}
