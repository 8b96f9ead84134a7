//! `pnm_chain` and `pnm_command_line`: the text of a chain, and the program.

use super::same;
use pnm_command_line::{Ended, Runner, command, print_text};
use pnm_flow::{BytesIn, BytesOut, Form, OpenGate, RunFault, Summary, Tool, run};
use pnm_image::Device;
use std::alloc::{AllocError, Global};
use std::process::Abort;
use std::sync::Wait;
use std::thread::Threads;

/// Runs the tools over threads, as the program does.
#[derive(Clone, Copy)]
struct OverThreads;

impl Runner for OverThreads {
    ghost has_run = { λ _ _ _ _ _. Unit {0} };

    fn run<H: AllocGlobal + Threads + Wait + Sync, R: BytesIn, W: BytesOut>(
        &self,
        rt: &H,
        reader: &mut R,
        writer: &mut W,
        tools: &[Tool],
        form: Form,
        capacity: usize,
        lanes: usize,
    ) -> Result<Summary, RunFault> {
        run(
            rt,
            rt.alloc(),
            reader,
            writer,
            tools,
            form,
            capacity,
            lanes,
            &OpenGate,
        )
    }
}

/// The words of a command line.
fn words_of(alloc: Global, texts: &[&str]) -> Result<Vec<String>, AllocError> {
    let mut words = Vec::new(alloc);
    for text in texts {
        words.push(String::from_str(alloc, text)?)?;
    }
    Ok(words)
}

/// How the program ends with these words, and what it prints.
fn answer_of<'a, H: AllocGlobal + Threads + Wait + Abort + Sync>(
    rt: &H,
    texts: &[&str],
    text: &'a [u8],
) -> (Ended<&'a [u8], Vec<u8>>, Vec<u8>) {
    let words = words_of(rt.alloc(), texts).expect(rt, "words");
    let output = Vec::new(rt.alloc());
    let mut errors = Vec::new(rt.alloc());
    let ended = command(
        rt,
        &OverThreads,
        words.as_slice(),
        text,
        output,
        &mut errors,
    );
    (ended, errors)
}

/// The program with these words answers so, and keeps nothing back.
fn answers<H: AllocGlobal + Threads + Wait + Abort + Sync>(
    rt: &H,
    texts: &[&str],
    want: u8,
    writes: &[u8],
    prints: &[u8],
) {
    let (ended, printed) = answer_of(rt, texts, b"P5\n2 1\n122\nAB");
    let written = ended.output.expect(rt, "memory for the buffer");
    same(rt, &ended.status, &want, &texts);
    same(rt, &written.as_slice(), &writes, &texts);
    same(rt, &ended.unwritten.len(), &0, &texts);
    same(rt, &printed.as_slice(), &prints, &texts);
}

/// A run that ends well, one that doesn't, and words that name none.
#[test]
fn commands_answer(rt: HostRuntime) {
    let name = "pnmpipe";
    answers(&rt, &[name, "pnminvert"], 0, b"P5\n2 1\n122\n98", b"");
    let line = b"pnmpipe: tool 1: ChannelOutside\n".as_slice();
    answers(&rt, &[name, "pamchannel 1"], 1, b"", line);
    let line = b"pnmpipe: chain: stage 1: UnknownTool\n".as_slice();
    answers(&rt, &[name, "x"], 2, b"", line);
}

/// A text goes to a device.
#[test]
fn texts_are_written(rt: HostRuntime) {
    let mut output = Device::new(Vec::new(rt.alloc()));
    print_text(&mut output, "text\n");
    let written = output.into_inner();
    same(&rt, &written.as_slice(), &b"text\n".as_slice(), &"a text");
}
