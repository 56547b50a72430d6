//! The jobs that a user waits for.

use crate::digest::Digest;
use crate::driving::drive;
use crate::failure::Failure;
use crate::profile::Profile;
use crate::random::Random;
use crate::streaming::{check_trace, stream};
use dmatypes::Mode;
use std::alloc::Global;
use std::sync::Wait;

/// A job that a user waits for.
#[derive(Clone, Copy, Debug, PartialEq, Eq)]
pub(crate) enum Job {
    /// A network's drivers call a manager, strictly and then lazily.
    Network,
    /// Disks' drivers call a manager.
    Storage,
    /// A monitor calls a manager for its guest.
    Guest,
    /// A driver calls a manager so that holes lie between its ranges, and then in bursts.
    Holes,
    /// Scripts from bytes to bytes, each on a manager of its own.
    Stream,
    /// Scripts are traced, and their traces checked.
    Check,
}

pub(crate) const JOBS: [(&str, Job); 6] = [
    ("network", Job::Network),
    ("storage", Job::Storage),
    ("guest", Job::Guest),
    ("holes", Job::Holes),
    ("stream", Job::Stream),
    ("check", Job::Check),
];

// The traffic of scripts, by turns.
const PROFILES: [Profile; 6] = [
    Profile::Packets(Mode::Strict),
    Profile::Packets(Mode::Lazy),
    Profile::Disks,
    Profile::Guest,
    Profile::Holes,
    Profile::Bursts,
];

// The most calls of a script.
const SCRIPT: u64 = 50_000;

// Traffic on managers, each with a seed of its own.
const NETWORK: &[(Profile, u64)] = &[
    (Profile::Packets(Mode::Strict), 1),
    (Profile::Packets(Mode::Lazy), 2),
];

const STORAGE: &[(Profile, u64)] = &[(Profile::Disks, 3)];

const GUEST: &[(Profile, u64)] = &[(Profile::Guest, 4)];

const HOLES: &[(Profile, u64)] = &[(Profile::Holes, 5), (Profile::Bursts, 6)];

impl Job {
    /// Makes about so many calls, and answers what all answers come to.
    pub(crate) fn run<T: Wait>(
        self,
        rt: &T,
        alloc: Global,
        seed: u64,
        calls: u64,
    ) -> Result<Digest, Failure> {
        let mut digest = Digest::new();
        match self {
            Job::Network => drive_all(rt, alloc, NETWORK, seed, calls, &mut digest)?,
            Job::Storage => drive_all(rt, alloc, STORAGE, seed, calls, &mut digest)?,
            Job::Guest => drive_all(rt, alloc, GUEST, seed, calls, &mut digest)?,
            Job::Holes => drive_all(rt, alloc, HOLES, seed, calls, &mut digest)?,
            Job::Stream => stream_all(rt, alloc, seed, calls, &mut digest)?,
            Job::Check => check_all(rt, alloc, seed, calls, &mut digest)?,
        }
        Ok(digest)
    }
}

// The traffic of each part, one after the other, with as many calls each.
fn drive_all<T: Wait>(
    rt: &T,
    alloc: Global,
    parts: &[(Profile, u64)],
    seed: u64,
    calls: u64,
    digest: &mut Digest,
) -> Result<(), Failure> {
    let each = calls.checked_div(parts.len() as u64).unwrap_or(0);
    for (profile, stream) in parts {
        drive(
            rt,
            alloc,
            *profile,
            Random::new(seed, *stream),
            each,
            digest,
        )?;
    }
    Ok(())
}

// Scripts of all kinds of traffic, one after the other.
fn stream_all<T: Wait>(
    rt: &T,
    alloc: Global,
    seed: u64,
    calls: u64,
    digest: &mut Digest,
) -> Result<(), Failure> {
    for (index, profile) in PROFILES
        .into_iter()
        .cycle()
        .take(scripts(calls))
        .enumerate()
    {
        let random = Random::new(seed, 16u64.wrapping_add(index as u64));
        stream(rt, alloc, profile, random, script_of(calls), digest)?;
    }
    Ok(())
}

// Traces of all kinds of traffic, one after the other.
fn check_all<T: Wait>(
    rt: &T,
    alloc: Global,
    seed: u64,
    calls: u64,
    digest: &mut Digest,
) -> Result<(), Failure> {
    let mut trace = Vec::new(alloc);
    for (index, profile) in PROFILES
        .into_iter()
        .cycle()
        .take(scripts(calls))
        .enumerate()
    {
        let random = Random::new(seed, 1024u64.wrapping_add(index as u64));
        check_trace(
            rt,
            alloc,
            profile,
            random,
            script_of(calls),
            digest,
            &mut trace,
        )?;
    }
    Ok(())
}

// How many calls each script has.
fn script_of(calls: u64) -> u64 {
    (calls / PROFILES.len() as u64).min(SCRIPT)
}

// How many scripts hold so many calls.
fn scripts(calls: u64) -> usize {
    calls.checked_div(script_of(calls)).unwrap_or(0) as usize
}
