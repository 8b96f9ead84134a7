//! The numbers of faults. They never change; new ones may be added.

ghost use Rattle.std.specs.Prelude.{◌≡◌, Err};
ghost use Rattle.pnm_serial.specs.declared.summary.Summary.{Summary as RunSummary};
ghost use Rattle.pnm_serial.specs.SerialRuns.{IsOfOneThread};
ghost use Rattle.pnm_memory.specs.Codes.{chain_code as code_of_chain, input_code as code_of_input};
ghost use Rattle.pnm_memory.specs.Codes.{tool_code as code_of_tool, output_code as code_of_output, code_of, number_of};

use pnm_chain::ChainKind;
use pnm_flow::RunFault;
use pnm_read::InputFault;
use pnm_tools::ToolFault;
use pnm_write::SinkFault;

/// All went well.
pub const WELL: u32 = 0;

/// The form isn't one of the two.
pub const BAD_FORM: u32 = 1;

/// The text of the chain isn't UTF-8.
pub const BAD_TEXT: u32 = 2;

/// The room for the results is too small.
pub const ROOM: u32 = 3;

/// Returns the number of a fault of a chain's text.
pub(crate) fn chain_code(kind: ChainKind) -> u32
    ensures { result ≡ code_of_chain kind }
{
    match kind {
        ChainKind::Empty => 101,
        ChainKind::TooLong => 102,
        ChainKind::TooMany => 103,
        ChainKind::EmptyStage => 104,
        ChainKind::UnknownTool => 105,
        ChainKind::UnknownOption => 106,
        ChainKind::MissingValue => 107,
        ChainKind::BadValue => 108,
        ChainKind::Conflict => 109,
        ChainKind::MissingArgument => 110,
        ChainKind::ExtraArgument => 111,
        ChainKind::Memory => 501,
    }
}

/// Returns the number of a fault of a run in memory, which is in one thread.
pub(crate) fn run_code(fault: RunFault) -> u32
    requires { IsOfOneThread {A = RunSummary} (Err fault) }
    ensures { result ≡ code_of fault }
{
    match fault {
        RunFault::Input(fault) => input_code(fault),
        RunFault::Tool(_, fault) => tool_code(fault),
        RunFault::Output(fault) => output_code(fault),
        RunFault::NoStart | RunFault::PeerGone(_) => unreachable!(),
    }
}

/// Returns the number of the tool that is at fault.
pub(crate) fn run_number(fault: RunFault) -> usize
    ensures { result ≡ number_of fault }
{
    match fault {
        RunFault::NoStart | RunFault::Input(_) | RunFault::Output(_) => 0,
        RunFault::Tool(number, _) | RunFault::PeerGone(number) => number,
    }
}

/// Returns the number of a fault of the input.
pub(crate) fn input_code(fault: InputFault) -> u32
    ensures { result ≡ code_of_input fault }
{
    match fault {
        InputFault::EmptyInput => 201,
        InputFault::BadMagic => 202,
        InputFault::HeaderCut => 203,
        InputFault::TooLong => 204,
        InputFault::BadNumber => 205,
        InputFault::ZeroSize => 206,
        InputFault::TooLarge => 207,
        InputFault::BadMaxval => 208,
        InputFault::BadPamLine => 209,
        InputFault::DuplicateField => 210,
        InputFault::MissingField => 211,
        InputFault::RasterCut => 212,
        InputFault::SampleAboveMaxval => 213,
        InputFault::BadSample => 214,
        InputFault::PlainInStream => 215,
        InputFault::ReadFailed => 216,
        InputFault::Memory => 502,
    }
}

fn tool_code(fault: ToolFault) -> u32
    ensures { result ≡ code_of_tool fault }
{
    match fault {
        ToolFault::CutOutside => 301,
        ToolFault::ChannelOutside => 302,
        ToolFault::TooLarge => 303,
        ToolFault::OutOfOrder => 304,
        ToolFault::Memory => 503,
    }
}

// A failed write is want of memory for the results.
fn output_code(fault: SinkFault) -> u32
    ensures { result ≡ code_of_output fault }
{
    match fault {
        SinkFault::WriteFailed => 504,
        SinkFault::OutOfOrder => 402,
        SinkFault::Broken => 403,
        SinkFault::SecondPlain => 404,
        SinkFault::PlainPam => 405,
    }
}
