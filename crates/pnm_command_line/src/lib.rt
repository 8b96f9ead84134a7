//! The words of the command line, as `clap` reads them, the help text and the version; the lines for faults; and what
//! the program does with its words, whatever runs the tools.
#![tactic(auto)]

mod command_line;
mod fault_line;
pub mod laws;
mod named_run;
mod runner;
mod streams;

pub use command_line::{CommandLine, CommandLineFault, VERSION_LINE, read_words};
pub use fault_line::{print_chain_fault, print_run_fault, print_usage, print_want_of_memory};
pub use named_run::{COMMAND_LINE_FAULT, command};
pub use runner::Runner;
pub use streams::{Ended, print_text};
