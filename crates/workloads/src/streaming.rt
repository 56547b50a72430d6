//! Traffic as scripts, from bytes to bytes, and as traces that are checked.

use crate::digest::Digest;
use crate::driving::config_of;
use crate::failure::Failure;
use crate::feeding::{Answers, Feeder, Script};
use crate::profile::Profile;
use crate::random::Random;
use crate::traffic::Traffic;
use std::alloc::Global;
use std::cell::RefCell;
use std::sync::Wait;
use streams::Counted;
use traces::{Judgement, check};

/// Runs a script of so many calls, and takes its answers in.
pub(crate) fn stream<T: Wait>(
    rt: &T,
    alloc: Global,
    profile: Profile,
    random: Random,
    calls: u64,
    digest: &mut Digest,
) -> Result<(), Failure> {
    let config = config_of(profile).ok_or(Failure::Wrong)?;
    let traffic = Traffic::new(alloc, profile, random);
    let feeder = RefCell::new(Feeder::new(traffic, calls, *digest));
    let mut reader = Counted::new(Script(&feeder));
    let mut writer = Counted::new(Answers {
        feeder: &feeder,
        kept: None,
    });
    script::run(rt, alloc, &mut reader, &mut writer, config)?;
    *digest = digest_of(&feeder)?;
    Ok(())
}

/// Traces a script of so many calls, and checks the trace.
pub(crate) fn check_trace<T: Wait>(
    rt: &T,
    alloc: Global,
    profile: Profile,
    random: Random,
    calls: u64,
    digest: &mut Digest,
    trace: &mut Vec<u8>,
) -> Result<(), Failure> {
    let config = config_of(profile).ok_or(Failure::Wrong)?;
    let traffic = Traffic::new(alloc, profile, random);
    let feeder = RefCell::new(Feeder::new(traffic, calls, *digest));
    trace.clear();
    let mut reader = Counted::new(Script(&feeder));
    let mut writer = Counted::new(Answers {
        feeder: &feeder,
        kept: Some(trace),
    });
    script::trace(rt, alloc, &mut reader, &mut writer, config)?;
    *digest = digest_of(&feeder)?;
    check_kept(rt, alloc, profile, trace.as_slice(), digest)
}

fn check_kept<T: Wait>(
    rt: &T,
    alloc: Global,
    profile: Profile,
    trace: &[u8],
    digest: &mut Digest,
) -> Result<(), Failure> {
    match check(rt, alloc, &mut Counted::new(trace), profile.frames())? {
        Judgement::Legal(events) => {
            digest.add(events);
            Ok(())
        }
        Judgement::Illegal(_) => Err(Failure::Wrong),
    }
}

fn digest_of(feeder: &RefCell<Feeder>) -> Result<Digest, Failure> {
    match feeder.try_borrow() {
        Ok(feeder) => Ok(feeder.digest()),
        Err(_) => Err(Failure::Wrong),
    }
}
