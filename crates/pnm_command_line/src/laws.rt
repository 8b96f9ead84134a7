//! Laws of command lines. Each is about the definitions alone, as the contract of a function that does nothing.

ghost use Rattle.pnm_command_line.specs.CommandLineExamples.{CommandLinesHold};
ghost use Rattle.pnm_command_line.specs.ProgramFacts.{GivenIsDue, Status0IsAllWritten};

/// A word alone is the chain unless it begins with a dash. No words ask both for help and for the version. And what the
/// definitions make of small command lines: what they give, or why they are refused.
pub fn command_lines_hold()
    ensures { CommandLinesHold }
{}

/// If words name a run over threads, and its status is 0, the input spells images, no tool of the chain refuses one of
/// them, the form that was asked for can hold their results, and the output was given the encoding of these.
pub fn status_0_is_all_written()
    ensures { Status0IsAllWritten }
{}

/// If words name a run over threads, the output was given a prefix of what is due for the input, whatever the status,
/// unless the run couldn't be started.
pub fn given_is_due()
    ensures { GivenIsDue }
{}
