//! The command line.

ghost use Rattle.std.specs.Prelude.{◌≡◌, ◌↔◌, IsSome, IfSome, if◌then◌else◌};
ghost use Rattle.dmatypes.specs.declared.limits.TheConstants.{CALLS_END};
ghost use Rattle.manager.specs.Kept.{IsWithinLimits};

use crate::help::{ABOUT, CHECK, REPORT, SCRIPT, USAGE, VERSION};
use crate::storming::{StormSize, storm_command, storm_of};
use clap::{Arg, ArgAction, ArgMatches, Command, value_parser};
use dmatypes::{LEAST_TABLE_FRAMES, MOST_CALLS, MOST_TABLE_FRAMES};
use manager::Config;
use std::alloc::{AllocError, Global};

// The option that has the address spaces drawn.
const IOVA: &str = "iova";

// The option that asks for a trace in the place of answers.
const TRACE: &str = "trace";

// The option that asks for a unit with Caching Mode.
const CACHING_MODE: &str = "caching-mode";

// The option that asks for a history that is never full.
const FOREVER: &str = "forever";

/// What the program is to do.
#[derive(Clone, Copy)]
pub(crate) enum Task {
    /// Make the calls of a script.
    Script(Answering, Options),
    /// Make calls by many threads.
    Storm(StormSize),
    /// Judge a trace, from a world with so many table frames on.
    Check(u64),
}

/// What the program is to write for a script.
#[derive(Clone, Copy)]
pub(crate) enum Answering {
    /// Answer each of its lines.
    Run,
    /// Write a trace of its calls.
    Trace,
    /// Tell at its end what the manager holds.
    Report,
    /// The same, and draw its address spaces after it.
    Drawing,
}

/// How large the manager is to be.
#[derive(Clone, Copy)]
pub(crate) struct Options {
    /// The number of table frames.
    pub(crate) frames: u64,
    /// For how many calls the history has room.
    pub(crate) calls: u64,
    /// Whether the unit has Caching Mode.
    pub(crate) caching: bool,
    /// Whether events are forgotten where there is no room for more.
    pub(crate) forever: bool,
}

/// The program's command line, without the program's name.
pub(crate) fn command<'a>(alloc: Global) -> Result<Command<'a>, AllocError> {
    Command::new(alloc, "vtdm")
        .version(VERSION)
        .propagate_version(true)
        .about(ABOUT)
        .override_usage(USAGE)
        .after_help(SCRIPT)
        .no_binary_name(true)
        .subcommand_required(true)
        .disable_help_subcommand(true)
        .subcommand(run_command(alloc)?)?
        .subcommand(report_command(alloc)?)?
        .subcommand(check_command(alloc)?)?
        .subcommand(storm_command(alloc)?)
}

fn run_command<'a>(alloc: Global) -> Result<Command<'a>, AllocError> {
    Command::new(alloc, "run")
        .about("Answers a script, one line for each line")
        .after_help(SCRIPT)
        .override_usage("vtdm run [OPTIONS] < SCRIPT")
        .arg(frames(alloc))?
        .arg(calls(alloc))?
        .arg(caching_mode(alloc))?
        .arg(forever(alloc))?
        .arg(trace(alloc))
}

fn report_command<'a>(alloc: Global) -> Result<Command<'a>, AllocError> {
    Command::new(alloc, "report")
        .about("Makes the calls of a script, and tells what is there at its end")
        .after_help(REPORT)
        .override_usage("vtdm report [OPTIONS] < SCRIPT")
        .arg(frames(alloc))?
        .arg(calls(alloc))?
        .arg(caching_mode(alloc))?
        .arg(iova(alloc))
}

fn check_command<'a>(alloc: Global) -> Result<Command<'a>, AllocError> {
    Command::new(alloc, "check")
        .about("Judges a trace of calls and replies, of any manager")
        .after_help(CHECK)
        .override_usage("vtdm check [OPTIONS] < TRACE")
        .arg(frames(alloc))
}

fn frames<'a>(alloc: Global) -> Arg<'a> {
    Arg::new(alloc, "frames")
        .long("frames")
        .value_name("FRAMES")
        .help("Table frames, 16 to 4096")
        .value_parser(value_parser!(u64).range(
            LEAST_TABLE_FRAMES as i64..=MOST_TABLE_FRAMES as i64,
        ))
        .default_value("64")
}

fn calls<'a>(alloc: Global) -> Arg<'a> {
    Arg::new(alloc, "calls")
        .long("calls")
        .value_name("CALLS")
        .help("Room for calls, 1 to 1048576")
        .value_parser(value_parser!(u64).range(1..=MOST_CALLS as i64))
        .default_value("65536")
}

fn caching_mode<'a>(alloc: Global) -> Arg<'a> {
    Arg::new(alloc, CACHING_MODE)
        .long(CACHING_MODE)
        .action(ArgAction::SetTrue)
        .help("The unit may remember absent pages, and maps invalidate")
}

fn forever<'a>(alloc: Global) -> Arg<'a> {
    Arg::new(alloc, FOREVER)
        .long(FOREVER)
        .action(ArgAction::SetTrue)
        .help("Forgets events where there is no room for more")
}

fn trace<'a>(alloc: Global) -> Arg<'a> {
    Arg::new(alloc, TRACE)
        .long(TRACE)
        .action(ArgAction::SetTrue)
        .help("Writes a trace, CALL => REPLY, in the place of replies")
}

fn iova<'a>(alloc: Global) -> Arg<'a> {
    Arg::new(alloc, IOVA)
        .long(IOVA)
        .action(ArgAction::SetTrue)
        .help("Draws each domain's address space after the report")
}

/// What is asked for on the command line, where a command was given.
pub(crate) fn task_of(matches: &ArgMatches) -> Option<Task> {
    let (name, given) = matches.subcommand()?;
    match name {
        "run" => {
            let options = options_of(given, given.get_flag(FOREVER))?;
            Some(Task::Script(running(given), options))
        }
        "report" => Some(Task::Script(reporting(given), options_of(given, false)?)),
        "storm" => Some(Task::Storm(storm_of(given)?)),
        "check" => Some(Task::Check(given.get_one::<u64>("frames")?)),
        _ => None,
    }
}

// Whether a trace is asked for.
fn running(given: &ArgMatches) -> Answering {
    if given.get_flag(TRACE) {
        Answering::Trace
    } else {
        Answering::Run
    }
}

// Whether a report is asked for with a drawing.
fn reporting(given: &ArgMatches) -> Answering {
    if given.get_flag(IOVA) {
        Answering::Drawing
    } else {
        Answering::Report
    }
}

// The options of a script's manager, which forgets events or does not.
fn options_of(given: &ArgMatches, forever: bool) -> Option<Options> {
    Some(Options {
        frames: given.get_one::<u64>("frames")?,
        calls: given.get_one::<u64>("calls")?,
        caching: given.get_flag(CACHING_MODE),
        forever,
    })
}

/// The configuration of a manager with one share; `None` exactly where a number is outside its limits.
pub(crate) fn config_of(options: Options) -> Option<Config>
    ensures some { IsSome result ↔ IsWithinLimits options.frames options.calls 1 }
    ensures is { IfSome result
        (λ c. c ≡ record {
          frames = options.frames;
          calls = options.calls;
          shares = 1;
          caching = options.caching;
          most = if options.forever then CALLS_END else options.calls;
        }) }
{
    let config = Config::new(options.frames, options.calls, 1)?.caching_mode(options.caching);
    Some(if options.forever {
        config.handing_on()
    } else {
        config
    })
}
