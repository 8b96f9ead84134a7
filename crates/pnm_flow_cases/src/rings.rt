//! Work at rings that hold all messages before it begins: a stage, the dealing to lanes, the gathering from them, and a
//! chain over lanes. Messages between braces lie in a ring together.

ghost use Rattle.std.specs.Prelude.{IfOk};
ghost use Rattle.pnm_tools.specs.Chains.{IsChain};

use pnm_chain::parse_chain;
use pnm_flow::{
    MAX_LANES, OpenGate, Receiver, Sender, StageEnd, deal, gather, new_ring, run_chain, run_stage,
};
use pnm_lanes::dealt_height;
use pnm_test_support::{Unmade, cut_at, cut_number, cut_word, number_of, packets_of, write_packet};
use pnm_tools::Tool;
use std::alloc::{AllocError, Global};
use std::str;
use std::sync::Wait;
use std::thread::Threads;

/// How many packets a ring has room for.
const CAPACITY: usize = 8;

/// Makes a ring for `capacity` packets.
fn ring(alloc: Global, capacity: usize) -> Result<(Sender, Receiver), Unmade> {
    new_ring(alloc, capacity).ok_or(Unmade)
}

/// Makes a ring that holds written messages. Returns it with its sending end, unless that was dropped.
fn holding<R: Wait>(
    rt: &R,
    alloc: Global,
    text: &[u8],
    is_gone: bool,
) -> Result<(Option<Sender>, Receiver), Unmade> {
    let (mut sender, receiver) = ring(alloc, CAPACITY)?;
    for packet in packets_of(alloc, text, true)? {
        if !sender.has_room() || !sender.send(rt, packet) {
            return Err(Unmade);
        }
    }
    if is_gone {
        drop(sender);
        return Ok((None, receiver));
    }
    Ok((Some(sender), receiver))
}

/// Makes a ring for `capacity` packets. Returns its sending end, and its receiving end unless that was dropped.
fn taking(
    alloc: Global,
    capacity: usize,
    is_gone: bool,
) -> Result<(Sender, Option<Receiver>), Unmade> {
    let (sender, receiver) = ring(alloc, capacity)?;
    if is_gone {
        drop(receiver);
        return Ok((sender, None));
    }
    Ok((sender, Some(receiver)))
}

/// Adds the word and all that the ring holds, or nothing if it holds nothing.
fn write_ring(
    alloc: Global,
    word: &str,
    input: &mut Receiver,
    out: &mut String,
) -> Result<(), AllocError> {
    if input.has_message() {
        out.push_str(word)?;
    }
    for _ in 0..CAPACITY {
        if input.has_message() {
            write_packet(alloc, out, &input.receive_known())?;
        }
    }
    Ok(())
}

/// Adds how a thread at rings has ended.
fn write_end(end: StageEnd, out: &mut String) -> Result<(), AllocError> {
    write!(out, " {end:?}")
}

/// Returns the tools that a text names.
fn tools_of(alloc: Global, text: &[u8]) -> Result<Vec<Tool>, Unmade>
    ensures { IfOk result (λ tools. IsChain tools.items) }
{
    let Ok(chain) = str::from_utf8(text) else {
        return Err(Unmade);
    };
    match parse_chain(alloc, chain) {
        Ok(tools) => Ok(tools),
        Err(_) => Err(Unmade),
    }
}

/// Adds how a stage of a tool ends, or each tool of a chain over lanes; what is left of the input; and what is sent.
pub fn write_tools<R: Threads + Wait + Sync>(
    rt: &R,
    alloc: Global,
    is_chain: bool,
    text: &[u8],
    out: &mut String,
) -> Result<(), Unmade> {
    let (number, rest) = cut_number(text);
    let (before, rest) = cut_at(rest, b'(');
    let (gone, _) = cut_word(before);
    let (chain, takes) = cut_at(rest, b')');
    let capacity = if is_chain { CAPACITY } else { number };
    let tools = tools_of(alloc, chain)?;
    let (_sender, input) = holding(rt, alloc, takes, gone == b"input".as_slice())?;
    let (output, receiver) = taking(alloc, capacity, gone == b"output".as_slice())?;
    if is_chain {
        write_chain(rt, alloc, tools.as_slice(), number, input, output, out)?;
    } else {
        write_stage(rt, alloc, tools.as_slice(), input, output, out)?;
    }
    write_sent(alloc, receiver, out)
}

/// Adds how a stage of the first of these tools ends, and what it leaves. The tool has to be lawful.
fn write_stage<R: Wait>(
    rt: &R,
    alloc: Global,
    tools: &[Tool],
    input: Receiver,
    output: Sender,
    out: &mut String,
) -> Result<(), Unmade> {
    match tools.first() {
        Some(tool) if tool.is_lawful() => {
            let done = run_stage(rt, alloc, tool, 1, &OpenGate, input, output);
            Ok(write_done(alloc, done.end, done.input, out)?)
        }
        _ => Err(Unmade),
    }
}

/// Adds how a thread at rings has ended, and what it leaves.
fn write_done(
    alloc: Global,
    end: StageEnd,
    input: Receiver,
    out: &mut String,
) -> Result<(), AllocError> {
    write_end(end, out)?;
    write_left(alloc, input, out)
}

/// Adds what is left of the input.
fn write_left(alloc: Global, input: Receiver, out: &mut String) -> Result<(), AllocError> {
    let mut input = input;
    write_ring(alloc, " left", &mut input, out)
}

/// Adds how each tool of a chain over `lanes` lanes ends, and what the first one leaves.
fn write_chain<R: Threads + Wait + Sync>(
    rt: &R,
    alloc: Global,
    tools: &[Tool],
    lanes: usize,
    input: Receiver,
    output: Sender,
    out: &mut String,
) -> Result<(), Unmade>
    requires { IsChain tools.now }
{
    if lanes < 1 || lanes > MAX_LANES {
        return Err(Unmade);
    }
    match run_chain(rt, alloc, tools, CAPACITY, lanes, &OpenGate, input, output) {
        Ok(done) => {
            write_ends(done.ends.as_slice(), out)?;
            Ok(write_left(alloc, done.input, out)?)
        }
        Err(_) => Err(Unmade),
    }
}

/// Adds how threads at rings have ended.
fn write_ends(ends: &[StageEnd], out: &mut String) -> Result<(), AllocError> {
    for end in ends {
        write_end(*end, out)?;
    }
    Ok(())
}

/// Adds what was sent, if there is a receiving end.
fn write_sent(alloc: Global, receiver: Option<Receiver>, out: &mut String) -> Result<(), Unmade> {
    if let Some(mut receiver) = receiver {
        write_ring(alloc, " sent", &mut receiver, out)?;
    }
    Ok(())
}

/// Makes `count` rings. Of a lane that hung up, there is only the sending end, with room for the head.
fn lanes_but(
    alloc: Global,
    count: usize,
    gone: Option<usize>,
) -> Result<(Vec<Sender>, Vec<Receiver>), Unmade> {
    let mut outputs = Vec::new(alloc);
    let mut inputs = Vec::new(alloc);
    for lane in 0..count {
        let is_gone = gone == Some(lane);
        let (output, input) = taking(alloc, if is_gone { 1 } else { CAPACITY }, is_gone)?;
        outputs.push(output)?;
        if let Some(input) = input {
            inputs.push(input)?;
        }
    }
    Ok((outputs, inputs))
}

/// Returns the number of a lane, or `None` if the word names no lane.
fn lane_of(word: &[u8]) -> Option<usize> {
    match word.first() {
        Some(b'0'..=b'9') => {
            let (lane, _) = cut_number(word);
            Some(lane)
        }
        _ => None,
    }
}

/// Adds how the dealing to lanes ends, what it leaves, and what each lane is sent.
pub fn write_dealt<R: Wait>(
    rt: &R,
    alloc: Global,
    text: &[u8],
    out: &mut String,
) -> Result<(), Unmade> {
    let (count, rest) = cut_number(text);
    let (gone, takes) = cut_word(rest);
    let (_sender, input) = holding(rt, alloc, takes, gone == b"input".as_slice())?;
    let (outputs, mut lanes) = lanes_but(alloc, count, lane_of(gone))?;
    if outputs.is_empty() || outputs.len() > MAX_LANES {
        return Err(Unmade);
    }
    let done = deal(rt, alloc, input, outputs);
    write_done(alloc, done.end, done.input, out)?;
    Ok(write_rings(alloc, (" |", ""), lanes.as_mut_slice(), out)?)
}

/// Adds all that the rings hold, each after the first of these words, and after the other one too if the ring holds
/// something.
fn write_rings(
    alloc: Global,
    (word, word_of_some): (&str, &str),
    inputs: &mut [Receiver],
    out: &mut String,
) -> Result<(), AllocError> {
    for input in inputs.iter_mut() {
        out.push_str(word)?;
        write_ring(alloc, word_of_some, input, out)?;
    }
    Ok(())
}

/// Makes rings that hold what the lanes give. In the text, bars stand between the lanes. Returns them with their
/// sending ends, unless these were dropped.
fn giving<R: Wait>(
    rt: &R,
    alloc: Global,
    text: &[u8],
    are_gone: bool,
) -> Result<(Vec<Option<Sender>>, Vec<Receiver>), Unmade> {
    let mut senders = Vec::new(alloc);
    let mut inputs = Vec::new(alloc);
    let mut rest = text;
    for _ in 0..MAX_LANES {
        if rest.is_empty() {
            break;
        }
        let (gives, after) = cut_at(rest, b'|');
        let (sender, input) = holding(rt, alloc, gives, are_gone)?;
        senders.push(sender)?;
        inputs.push(input)?;
        rest = after;
    }
    Ok((senders, inputs))
}

/// Adds how the gathering from lanes ends, what it leaves, and what is sent.
pub fn write_gathered<R: Wait>(
    rt: &R,
    alloc: Global,
    text: &[u8],
    out: &mut String,
) -> Result<(), Unmade> {
    let (capacity, rest) = cut_number(text);
    let (gone, gives) = cut_word(rest);
    let (_senders, inputs) = giving(rt, alloc, gives, gone == b"inputs".as_slice())?;
    let (output, receiver) = taking(alloc, capacity, gone == b"output".as_slice())?;
    if inputs.is_empty() || inputs.len() > MAX_LANES {
        return Err(Unmade);
    }
    let mut done = gather(rt, alloc, inputs, output);
    write_end(done.end, out)?;
    write_rings(alloc, ("", " left"), done.inputs.as_mut_slice(), out)?;
    write_sent(alloc, receiver, out)
}

/// Adds how many rows of an image each lane gets, for a number of lanes and a height.
pub fn write_heights(text: &[u8], out: &mut String) -> Result<(), AllocError> {
    let (lanes, rest) = cut_number(text);
    let (height, _) = cut_number(rest);
    let lanes = number_of(lanes);
    for lane in 0..lanes {
        let rows = dealt_height(number_of(height), lane, lanes);
        write!(out, " {rows}")?;
    }
    Ok(())
}
