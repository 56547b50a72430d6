//! Traffic on a manager, by its calls.

ghost use Rattle.std.specs.Prelude.{◌≡◌, IfSome};
ghost use Rattle.manager.specs.Kept.{IsNamedBy};

use crate::digest::{Digest, answered};
use crate::failure::Failure;
use crate::profile::Profile;
use crate::random::Random;
use crate::traffic::Traffic;
use manager::{Book, Config, Epoch, HistoryFull, Made, Manager, Owner, Rows, Seed, Share};
use std::alloc::Global;
use std::marker::Brand;
use std::sync::Wait;

// How many events a manager keeps.
const KEPT: u64 = 1024;

/// How large a manager of a profile's traffic is.
pub(crate) fn config_of(profile: Profile) -> Option<Config>
    ensures { IfSome result (λ config. config.shares ≡ 1) }
{
    let config = Config::new(profile.frames(), KEPT, 1)?;
    Some(config.caching_mode(profile.is_caching()).handing_on())
}

/// Makes so many calls of a profile's traffic on a manager of their own, and takes the answers in.
pub(crate) fn drive<T: Wait>(
    rt: &T,
    alloc: Global,
    profile: Profile,
    random: Random,
    calls: u64,
    digest: &mut Digest,
) -> Result<(), Failure> {
    let config = config_of(profile).ok_or(Failure::Wrong)?;
    let seed = Seed::new(alloc, config)?;
    let mut traffic = Traffic::new(alloc, profile, random);
    drive_owned::<Brand, T>(rt, alloc, &mut traffic, calls, digest, seed)
}

// The same, over an owner that names the manager.
fn drive_owned<B: Owner, T: Wait>(
    rt: &T,
    alloc: Global,
    traffic: &mut Traffic,
    calls: u64,
    digest: &mut Digest,
    seed: Seed,
) -> Result<(), Failure>
    requires { IsNamedBy seed B.name B.parts B.shares B.room B.frames B.mode B.rows B.most B.handing }
{
    let Made {
        manager,
        rows,
        mut shares,
        mut epoch,
        ..
    } = Manager::<B>::new(alloc, seed)?;
    let mut mine = shares.pop().ok_or(Failure::Wrong)?;
    let mut guard = manager.lock(rt);
    let book = &mut *guard;
    for _ in 0..calls {
        make_call(book, &rows, &mut mine, &mut epoch, traffic, digest)?;
    }
    Ok(())
}

// One call. Where there is no room for its event, those that are kept are forgotten first.
fn make_call<B: Owner>(
    book: &mut Book<B>,
    rows: &Rows<B>,
    mine: &mut Share<B>,
    epoch: &mut Epoch<B>,
    traffic: &mut Traffic,
    digest: &mut Digest,
) -> Result<(), Failure> {
    let call = traffic.next()?;
    book.make_room(rows, mine, epoch);
    match book.call(rows, mine, call) {
        Ok((_, reply)) => {
            digest.add_reply(reply);
            traffic.answer(answered(reply))?;
            Ok(())
        }
        Err(HistoryFull { .. }) => Err(Failure::Wrong),
    }
}
