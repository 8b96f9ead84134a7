//! The lines that are printed for faults.

use super::is_so;
use pnm_chain::{ChainFault, ChainKind};
use pnm_command_line::{print_chain_fault, print_run_fault, print_usage, print_want_of_memory};
use pnm_flow::{InputFault, RunFault, SinkFault, ToolFault};
use std::alloc::Global;
use std::io;
use std::io::{ErrorKind, Write};
use std::process::Abort;

/// A writer that takes a single write, so that it holds the line only if that came in one write.
#[derive(Drop)]
struct OneWrite {
    written: Vec<u8>,
    is_over: bool,
}

impl OneWrite {
    fn new(alloc: Global) -> OneWrite {
        OneWrite {
            written: Vec::new(alloc),
            is_over: false,
        }
    }
}

impl Write for OneWrite {
    fn write(&mut self, bytes: &[u8]) -> io::Result<usize> {
        if self.is_over {
            return Err(io::Error::from(ErrorKind::BrokenPipe));
        }
        self.is_over = true;
        self.written.write(bytes)
    }

    fn flush(&mut self) -> io::Result<()> {
        Ok(())
    }
}

/// What is printed is this line, in one write.
fn is_line(rt: &impl Abort, errors: &OneWrite, want: &str) {
    let is_right = errors.written.as_slice() == want.as_bytes();
    is_so(rt, is_right, &want);
}

/// Faults of a chain's text, and the line that each is printed as.
const CHAIN_FAULTS: &[(usize, ChainKind, &str)] = &[
    (0, ChainKind::Memory, "pnmpipe: chain: Memory\n"),
    (
        1,
        ChainKind::UnknownTool,
        "pnmpipe: chain: stage 1: UnknownTool\n",
    ),
    (
        64,
        ChainKind::UnknownTool,
        "pnmpipe: chain: stage 64: UnknownTool\n",
    ),
    (
        usize::MAX,
        ChainKind::UnknownTool,
        "pnmpipe: chain: stage 18446744073709551615: UnknownTool\n",
    ),
];

/// A fault of a chain's text is printed with the number of its stage, if it has one.
#[test]
fn names_stages(rt: HostRuntime) {
    for (stage, kind, want) in CHAIN_FAULTS {
        let mut errors = OneWrite::new(rt.alloc());
        let fault = ChainFault {
            stage: *stage,
            kind: *kind,
        };
        print_chain_fault(&mut errors, fault);
        is_line(&rt, &errors, want);
    }
}

/// Faults of a run, and the line that each is printed as.
const FAULTS: &[(RunFault, &str)] = &[
    (
        RunFault::Tool(1, ToolFault::CutOutside),
        "pnmpipe: tool 1: CutOutside\n",
    ),
    (
        RunFault::Tool(2, ToolFault::ChannelOutside),
        "pnmpipe: tool 2: ChannelOutside\n",
    ),
    (
        RunFault::Tool(10, ToolFault::TooLarge),
        "pnmpipe: tool 10: TooLarge\n",
    ),
    (
        RunFault::Tool(64, ToolFault::Memory),
        "pnmpipe: tool 64: Memory\n",
    ),
    (RunFault::NoStart, "pnmpipe: NoStart\n"),
    (RunFault::PeerGone(2), "pnmpipe: tool 2: PeerGone\n"),
    (
        RunFault::Input(InputFault::RasterCut),
        "pnmpipe: input: RasterCut\n",
    ),
    (
        RunFault::Output(SinkFault::WriteFailed),
        "pnmpipe: output: WriteFailed\n",
    ),
    (
        RunFault::Output(SinkFault::SecondPlain),
        "pnmpipe: output: SecondPlain\n",
    ),
    (
        RunFault::Output(SinkFault::PlainPam),
        "pnmpipe: output: PlainPam\n",
    ),
];

/// A tool's fault has the tool's number.
#[test]
fn names_tools(rt: HostRuntime) {
    for (fault, want) in FAULTS {
        let mut errors = OneWrite::new(rt.alloc());
        print_run_fault(&mut errors, *fault);
        is_line(&rt, &errors, want);
    }
}

/// Want of memory before a chain is known is the command line's.
#[test]
fn names_want_of_memory(rt: HostRuntime) {
    let mut errors = OneWrite::new(rt.alloc());
    print_want_of_memory(&mut errors);
    is_line(&rt, &errors, "pnmpipe: command line: Memory\n");
}

/// Words that name no run get the usage line, the longest of all.
#[test]
fn names_usage(rt: HostRuntime) {
    let mut errors = OneWrite::new(rt.alloc());
    print_usage(&mut errors);
    let want = "pnmpipe: usage: pnmpipe [--ring N] [--lanes K] [--plain] CHAIN\n";
    is_line(&rt, &errors, want);
}
