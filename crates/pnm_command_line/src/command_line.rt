//! The words of the command line, the help text and the version.

ghost use Rattle.std.specs.Prelude.{◌≡◌, IfOk, IfErr, map, string_bytes};
ghost use Rattle.clap.specs.Words.{app_of, kind_of, rule_of};
ghost use Rattle.pnm_command_line.specs.CommandLine.{chain_rule, lanes_rule, named, plain_rule, program};
ghost use Rattle.pnm_command_line.specs.Internal.CommandLine.{form_by};
ghost use Rattle.pnm_command_line.specs.CommandLine.{ring_rule, value_rule};
ghost use Rattle.pnm_command_line.specs.Internal.CommandLine.{FitsKind};
ghost use Rattle.pnm_command_line.specs.CommandLine.{GivesChain, GivesForm, GivesLanes, GivesRing, IsFaultOfWords};
ghost use Rattle.pnm_command_line.specs.declared.command_line.CommandLineFault.TheVariants.{Memory};

use clap::builder::ValueParser;
use clap::error::ErrorKind;
use clap::{Arg, ArgAction, Command, value_parser};
use pnm_image::Form;
use pnm_lanes::MAX_LANES;
use pnm_stages::MAX_RING_CAPACITY;
use std::alloc::{AllocError, Global};

/// The version, as in the file VERSION.
const VERSION: &str = "0.1.0";

/// The line that `--version` prints.
pub const VERSION_LINE: &str = "pnmpipe 0.1.0\n";

/// How the program is called.
pub(crate) const USAGE: &str = "pnmpipe [--ring N] [--lanes K] [--plain] CHAIN";

const ABOUT: &str = "Passes a stream of PBM, PGM, PPM or PAM images through a chain of tools, as in
  pnmpipe 'pamcut -width 640 | pamflip -lr' < a.ppm > b.ppm
Put CHAIN in quotes; files go by < and >. Every image of a stream is treated.";

const CHAIN_HELP: &str = "1 to 64 tools, separated by |, in one word";

const RING_HELP: &str = "Rows that wait between two tools, 1 to 1024";

const LANES_HELP: &str = "Threads of each row-wise tool, 1 to 8";

const PLAIN_HELP: &str = "Write one plain PBM, PGM or PPM image, not raw ones";

const AFTER_HELP: &str = "Tools:
  pnminvert
  pamcut [-left N] [-right N] [-top N] [-bottom N] [-width N] [-height N]
          N counts from 0, and a negative one from the end
  pamdepth MAXVAL
  pamchannel [-tupletype TEXT] PLANE...
  pamenlarge N, or [-xscale N] [-yscale N]
  pamflip -null, -lr (-leftright), -tb (-topbottom), -xy (-transpose),
          or counterclockwise -r90, -r180, -r270
  pnmtile WIDTH HEIGHT

Status: 0 all went well, 1 the input, a tool or the output failed, 2 wrong words
Lower --ring only if rows are huge. The page pnmpipe(1) has more.
pnmpipe-explain CHAIN < FILE says what is wrong with a chain or an input.";

/// What the words name.
#[derive(Clone, Copy, Debug)]
pub struct CommandLine<'a> {
    /// The text of the chain.
    pub chain: &'a str,
    /// How many packets a ring holds.
    pub ring: u16,
    /// How many threads each row-wise tool works in.
    pub lanes: u8,
    /// In which form the results are written.
    pub form: Form,
}

/// Why the words name no run.
#[derive(Debug, Drop)]
pub enum CommandLineFault {
    /// They ask for help, which is this text.
    Help(String),
    /// They ask for the version.
    Version,
    /// They are wrong.
    Usage,
    /// Memory ran out.
    Memory,
}

impl From<AllocError> for CommandLineFault {
    ghost from_gives = { λ _ fault. fault ≡ Memory };

    fn from(_error: AllocError) -> CommandLineFault {
        CommandLineFault::Memory
    }
}

/// Reads the words; the first is the program's own name.
#[inline(never)]
pub fn read_words<'a>(
    alloc: Global,
    words: &'a [String],
) -> Result<CommandLine<'a>, CommandLineFault>
    ensures given { IfOk result (λ line. GivesChain (map string_bytes words.entry.now) line.chain.now) }
    ensures ring { IfOk result (λ line. GivesRing (map string_bytes words.entry.now) line.ring) }
    ensures lanes { IfOk result (λ line. GivesLanes (map string_bytes words.entry.now) line.lanes) }
    ensures form { IfOk result (λ line. GivesForm (map string_bytes words.entry.now) line.form) }
    ensures refused { IfErr result (IsFaultOfWords (map string_bytes words.entry.now)) }
{
    let matches = match program(alloc)?.try_get_matches_from(words) {
        Ok(matches) => matches,
        Err(error) => return Err(fault_of(alloc, &error)),
    };
    Ok(CommandLine {
        chain: matches.get_str("CHAIN").unwrap(),
        ring: matches.get_one::<u16>("ring").unwrap(),
        lanes: matches.get_one::<u8>("lanes").unwrap(),
        form: form_by(matches.get_one::<bool>("plain")),
    })
}

/// Returns the form that the flag asks for.
fn form_by(is_plain: Option<bool>) -> Form
    ensures { result ≡ form_by is_plain }
{
    match is_plain {
        Some(true) => Form::Plain,
        Some(false) | None => Form::Raw,
    }
}

/// Returns the command that reads the words.
fn program<'a>(alloc: Global) -> Result<Command<'a>, AllocError>
    ensures { IfOk result (λ command. app_of command ≡ program) }
{
    described(alloc)
        .arg(ring_option(alloc))?
        .arg(lanes_option(alloc))?
        .arg(plain_option(alloc))?
        .arg(chain_argument(alloc))
}

/// Returns the command before it has arguments.
fn described<'a>(alloc: Global) -> Command<'a>
    ensures { app_of result ≡ named }
{
    Command::new(alloc, "pnmpipe")
        .version(VERSION)
        .about(ABOUT)
        .override_usage(USAGE)
        .after_help(AFTER_HELP)
}

/// Returns the argument `CHAIN`.
fn chain_argument<'a>(alloc: Global) -> Arg<'a>
    ensures { rule_of result ≡ chain_rule }
{
    Arg::new(alloc, "CHAIN")
        .required(true)
        .action(ArgAction::Set)
        .help(CHAIN_HELP)
}

/// Returns the option `--ring`.
fn ring_option<'a>(alloc: Global) -> Arg<'a>
    ensures { rule_of result ≡ ring_rule }
{
    let parser = value_parser!(u16).range(1..=MAX_RING_CAPACITY as i64);
    value_option(alloc, "ring", "N", parser, "64", RING_HELP)
}

/// Returns the option `--lanes`.
fn lanes_option<'a>(alloc: Global) -> Arg<'a>
    ensures { rule_of result ≡ lanes_rule }
{
    let parser = value_parser!(u8).range(1..=MAX_LANES as i64);
    value_option(alloc, "lanes", "K", parser, "1", LANES_HELP)
}

/// Returns an option whose value this parser reads. Without the option, the value is the default.
fn value_option<'a>(
    alloc: Global,
    name: &'a str,
    value_name: &'a str,
    parser: ValueParser<'a>,
    default: &'a str,
    help: &'a str,
) -> Arg<'a>
    ensures { rule_of result ≡ value_rule name.entry.now default.entry.now parser.entry }
{
    Arg::new(alloc, name)
        .long(name)
        .value_name(value_name)
        .action(ArgAction::Set)
        .value_parser(parser)
        .default_value(default)
        .help(help)
}

/// Returns the option `--plain`.
fn plain_option<'a>(alloc: Global) -> Arg<'a>
    ensures { rule_of result ≡ plain_rule }
{
    Arg::new(alloc, "plain")
        .long("plain")
        .action(ArgAction::SetTrue)
        .help(PLAIN_HELP)
}

/// Returns the fault for this error of `clap`.
fn fault_of(alloc: Global, error: &clap::Error) -> CommandLineFault
    ensures { FitsKind (kind_of error.now) result }
{
    match error.kind() {
        ErrorKind::DisplayHelp => match format!(in alloc; "{error}") {
            Ok(text) => CommandLineFault::Help(text),
            Err(_) => CommandLineFault::Memory,
        },
        ErrorKind::DisplayVersion => CommandLineFault::Version,
        ErrorKind::OutOfMemory => CommandLineFault::Memory,
        _ => CommandLineFault::Usage,
    }
}
