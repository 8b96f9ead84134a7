//! The lines that are printed for faults.

use crate::command_line::USAGE;
use arrayvec::ArrayString;
use itoa::Buffer;
use pnm_chain::ChainFault;
use pnm_serial::RunFault;
use std::fmt::{Display, Write as _};
use std::io::Write;

/// The room for a line. The longest, of usage, has 63 bytes.
const LINE_ROOM: usize = 128;

/// Prints the usage line, for wrong words. A failed write is ignored.
pub fn print_usage<E: Write>(errors: &mut E) {
    print_fault(errors, "usage", &USAGE);
}

/// Prints the line for want of memory before the chain is read. A failed write is ignored.
pub fn print_want_of_memory<E: Write>(errors: &mut E) {
    print_fault(errors, "command line", &"Memory");
}

/// Prints the line for a text that isn't a chain: the number of the stage, unless that is 0, and the kind of the fault.
/// A failed write is ignored.
pub fn print_chain_fault<E: Write>(errors: &mut E, fault: ChainFault) {
    let ChainFault { stage, kind } = fault;
    if stage == 0 {
        print_fault(errors, "chain", &kind);
    } else {
        print_numbered_fault(errors, "chain: stage", stage, &kind);
    }
}

/// Prints the line for a run that ended in a fault. A failed write is ignored.
pub fn print_run_fault<E: Write>(errors: &mut E, fault: RunFault) {
    match fault {
        RunFault::NoStart => print_line(errors, "NoStart"),
        RunFault::Input(fault) => print_fault(errors, "input", &fault),
        RunFault::Tool(number, fault) => print_numbered_fault(errors, "tool", number, &fault),
        RunFault::Output(fault) => print_fault(errors, "output", &fault),
        RunFault::PeerGone(number) => print_numbered_fault(errors, "tool", number, &"PeerGone"),
    }
}

/// Prints a line about a place's fault.
fn print_fault<E: Write, F: Display>(errors: &mut E, place: &str, fault: &F) {
    print_line(errors, format_args!("{place}: {fault}"));
}

/// Prints a line about the fault of the place with this number.
fn print_numbered_fault<E: Write, F: Display>(
    errors: &mut E,
    place: &str,
    number: usize,
    fault: &F,
) {
    let mut digits = Buffer::new();
    let number = digits.format(number);
    print_line(errors, format_args!("{place} {number}: {fault}"));
}

/// Prints this text as a line in one write, so that the lines of programs that share standard error don't mix. The line
/// is put together on the stack, since it may say that memory ran out.
#[inline(never)]
fn print_line<E: Write, T: Display + Drop>(errors: &mut E, text: T) {
    let mut line = ArrayString::<LINE_ROOM>::new();
    let _ = writeln!(line, "pnmpipe: {text}");
    let _ = errors.write_all(line.as_str().as_bytes());
}
