//! What the program does with its words, whatever runs the tools.

ghost use Rattle.std.specs.Prelude.{◌≡◌, ◌≢◌, ◌⊎◌, ◌≤◌, ℕ, List, [], map, string_bytes, IfSome};
ghost use Rattle.std.specs.Io.KnownBytes.{Appends};
ghost use Rattle.pnm_image.specs.Devices.{AppendsPrefix};
ghost use Rattle.pnm_command_line.specs.CommandLine.{AsksForHelp, AsksForVersion};
ghost use Rattle.pnm_command_line.specs.NamedRuns.{HasRunWords, known};
ghost use Rattle.pnm_command_line.specs.Streams.{held_at_end, given_at_end};

use crate::command_line::{CommandLineFault, VERSION_LINE, read_words};
use crate::fault_line::{print_chain_fault, print_usage, print_want_of_memory};
use crate::runner::Runner;
use crate::streams::{Ended, run_over_streams, tell};
use pnm_chain::parse_chain;
use std::io::{Read, Write};
use std::sync::Wait;
use std::thread::Threads;

/// The status of a run that ended well, and of help and the version.
pub(crate) const WELL: u8 = 0;

/// The status of a run that ended in a fault.
pub(crate) const RUN_FAULT: u8 = 1;

/// The status of words that name no run.
pub const COMMAND_LINE_FAULT: u8 = 2;

/// Runs the program: `words` are its own name, options and the chain. It has the runner read the images of `input` and
/// write the results to `output`, in the form that the words ask for. It buffers what it writes, and repeats a call
/// that a signal has interrupted. If the words ask for help or the version, it writes that to `output` and reads
/// nothing. At a fault it prints one line to `errors`. If that can't be written, nothing else changes.
///
/// The status is 0 if all went well, or if the words ask for help or the version; 1 after a fault of the run; and 2 if
/// the words name no chain, or if memory ran out before the run. With status 2 nothing is read or written.
pub fn command<
    A: Runner,
    H: AllocGlobal + Threads + Wait + Sync,
    R: Read,
    W: Write + Drop,
    E: Write,
>(rt: &H, runner: &A, words: &[String], input: R, output: W, errors: &mut E) -> Ended<R, W>
    ensures status { result.status ≤ 2 }
    ensures untouched { result.status ≡ 2 → (result.input ≡ input) × IfSome result.output (λ w. w ≡ output) }
    // What was kept back stays unwritten only after a fault of the run.
    ensures whole { result.status ≢ 1 → result.unwritten.items ≡ [] }
    // Help reads nothing, and fails only for want of memory, even if its text can't be written.
    ensures help { AsksForHelp (map string_bytes words.now) → (result.status ≢ 1) × (result.input ≡ input) }
    ensures helped { AsksForHelp (map string_bytes words.now) → result.status ≡ 0
        → (text : List ℕ) × Appends (W.contents output) (held_at_end W.contents result) text }
    // The version is one line, cut short only if a write failed.
    ensures version { AsksForVersion (map string_bytes words.now) → (result.status ≢ 1) × (result.input ≡ input) }
    ensures versioned { AsksForVersion (map string_bytes words.now) → result.status ≡ 0
        → AppendsPrefix (W.contents output) (held_at_end W.contents result) VERSION_LINE.now }
    ensures ran { result.status ≢ 2 → AsksForHelp (map string_bytes words.now)
        ⊎ AsksForVersion (map string_bytes words.now)
        ⊎ HasRunWords A.has_run (map string_bytes words.now) result.status
        (known (R.remaining input) (R.remaining result.input))
        (known (W.contents output) (given_at_end W.contents result)) }
    ensures silent { result.status ≡ 0 → errors.new ≡ errors.old }
{
    let alloc = rt.alloc();
    let line = match read_words(alloc, words) {
        Ok(line) => line,
        Err(CommandLineFault::Help(text)) => {
            let output = tell(output, text.as_str());
            return Ended::new(alloc, WELL, input, output);
        }
        Err(CommandLineFault::Version) => {
            let output = tell(output, VERSION_LINE);
            return Ended::new(alloc, WELL, input, output);
        }
        Err(CommandLineFault::Usage) => {
            print_usage(errors);
            return Ended::new(alloc, COMMAND_LINE_FAULT, input, output);
        }
        Err(CommandLineFault::Memory) => {
            print_want_of_memory(errors);
            return Ended::new(alloc, COMMAND_LINE_FAULT, input, output);
        }
    };
    match parse_chain(alloc, line.chain) {
        Ok(tools) => run_over_streams(
            rt,
            runner,
            tools.as_slice(),
            line.ring,
            line.lanes,
            line.form,
            input,
            output,
            errors,
        ),
        Err(fault) => {
            print_chain_fault(errors, fault);
            Ended::new(alloc, COMMAND_LINE_FAULT, input, output)
        }
    }
}
