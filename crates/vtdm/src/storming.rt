//! The program's storms.

use crate::help::STORM;
use crate::status::End;
use clap::{Arg, ArgMatches, Command, value_parser};
use script::RunError;
use std::alloc::{AllocError, Global};
use std::io::Write;
use std::sync::Wait;
use std::thread::Threads;
use storm::{MOST_DEVICES, MOST_DRIVERS, MOST_WORKER_CALLS, OpenGate, storm};

/// How large a storm is to be.
#[derive(Clone, Copy)]
pub(crate) struct StormSize {
    /// The number of drivers.
    drivers: u64,
    /// The number of devices.
    devices: u64,
    /// How many calls each of these and the unit makes.
    calls: u64,
}

/// The command line of a storm, behind the command's name.
pub(crate) fn storm_command<'a>(alloc: Global) -> Result<Command<'a>, AllocError> {
    Command::new(alloc, "storm")
        .about("Makes calls by many threads at once, and tells how many")
        .after_help(STORM)
        .override_usage("vtdm storm --drivers <DRIVERS> --devices <DEVICES> --calls <CALLS>")
        .arg(drivers(alloc))?
        .arg(devices(alloc))?
        .arg(calls(alloc))
}

fn drivers<'a>(alloc: Global) -> Arg<'a> {
    Arg::new(alloc, "drivers")
        .long("drivers")
        .value_name("DRIVERS")
        .help("Drivers, 1 to 8")
        .value_parser(value_parser!(u64).range(1..=MOST_DRIVERS as i64))
        .required(true)
}

fn devices<'a>(alloc: Global) -> Arg<'a> {
    Arg::new(alloc, "devices")
        .long("devices")
        .value_name("DEVICES")
        .help("Devices, 1 to 8")
        .value_parser(value_parser!(u64).range(1..=MOST_DEVICES as i64))
        .required(true)
}

fn calls<'a>(alloc: Global) -> Arg<'a> {
    Arg::new(alloc, "calls")
        .long("calls")
        .value_name("CALLS")
        .help("Calls of each, 1 to 10000")
        .value_parser(value_parser!(u64).range(1..=MOST_WORKER_CALLS as i64))
        .required(true)
}

/// What is asked for behind the command's name.
pub(crate) fn storm_of(given: &ArgMatches) -> Option<StormSize> {
    Some(StormSize {
        drivers: given.get_one::<u64>("drivers")?,
        devices: given.get_one::<u64>("devices")?,
        calls: given.get_one::<u64>("calls")?,
    })
}

/// Makes a storm, and writes its line.
// Its room on the stack is not taken where no storm is asked for.
#[inline(never)]
pub(crate) fn make_storm<T: Wait + Threads + Sync, W: Write>(
    rt: &T,
    alloc: Global,
    size: StormSize,
    output: &mut W,
) -> End {
    let StormSize {
        drivers,
        devices,
        calls,
    } = size;
    if !(1..=MOST_DRIVERS).contains(&drivers)
        || !(1..=MOST_DEVICES).contains(&devices)
        || !(1..=MOST_WORKER_CALLS).contains(&calls)
    {
        return End::BadCommandLine;
    }
    let events = match storm(rt, alloc, drivers, devices, calls, &OpenGate) {
        Ok(events) => events,
        Err(error) => return End::NoStorm(error),
    };
    match writeln!(
        output,
        "storm drivers {drivers} devices {devices} calls {calls} events {events}"
    ) {
        Ok(()) => End::Done,
        Err(_) => End::Stopped(RunError::Write),
    }
}
