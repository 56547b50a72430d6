//! Managers that threads share.

ghost use Rattle.std.specs.Prelude.{◌≡◌, IfOk, vec_len};
ghost use Rattle.manager.specs.Kept.{IsNamedBy};

use dmatypes::{Access, Call, Fault, Mode, Refusal, Reply, Whim, Width};
use manager::*;
use std::alloc::{AllocError, Global};
use std::marker::Brand;
use std::process::Abort;
use std::sync::Wait;
use std::test::Fail;
use std::thread::{Threads, join};

mod by_name;
mod device_thread;
mod emptied;
mod full;
mod handing_on;
mod hits;
mod quiet_thread;
mod shown;
mod unit_thread;

// The seed of a manager of this size.
fn seed_of(alloc: Global, frames: u64, calls: u64, shares: u64) -> Result<Seed, Fail> {
    let config = Config::new(frames, calls, shares).ok_or("within the limits")?;
    Ok(Seed::new(alloc, config)?)
}

// A manager with its port words and ports, and the one share that is needed.
fn made<B: Owner>(
    alloc: Global,
    seed: Seed,
) -> Result<(Manager<B>, Rows<B>, Vec<Port<B>>, Share<B>), Fail>
    requires { IsNamedBy seed B.name B.parts B.shares B.room B.frames B.mode B.rows B.most B.handing }
    ensures { IfOk result (λ r. vec_len r.2 ≡ 16) }
{
    let Made {
        manager,
        rows,
        ports,
        mut shares,
        ..
    } = Manager::<B>::new(alloc, seed)?;
    let mine = shares.pop().ok_or("a share")?;
    Ok((manager, rows, ports, mine))
}

// Pages from a host frame on, at the lowest start.
fn map_of(domain: u64, frame: u64, pages: u64, rights: u64) -> Call {
    Call::Map {
        domain,
        frame,
        pages,
        order: 0,
        rights,
    }
}

// One page at the lowest start.
fn one_page(domain: u64) -> Call {
    map_of(domain, 0x1000, 1, 3)
}

// A device's request, which goes through the unit's caches and is remembered where so asked.
fn request_of(device: u64, address: u64, access: Access, cached: bool) -> Call {
    Call::Dma {
        device,
        address,
        access,
        whim: Whim {
            look: cached,
            fill: cached,
        },
    }
}

// 100 maps of one page in domain 1, and the addresses that they are answered.
fn hundred_maps<B: Owner>(
    rt: &impl Wait,
    alloc: Global,
    manager: &Manager<B>,
    rows: &Rows<B>,
    mine: Share<B>,
) -> (Share<B>, Result<Vec<u64>, AllocError>) {
    let mut mine = mine;
    let mut addresses = Vec::new(alloc);
    for _ in 0..100u64 {
        if let Ok((_, Reply::Mapped(address))) = manager.call(rt, rows, &mut mine, one_page(1)) {
            if addresses.push(address).is_err() {
                return (mine, Err(AllocError));
            }
        }
    }
    (mine, Ok(addresses))
}

// Whether no two of the addresses are the same.
fn all_differ(addresses: &mut Vec<u64>) -> Result<bool, AllocError> {
    addresses.sort()?;
    let differ = addresses
        .as_slice()
        .windows(2)
        .all(|pair| pair.first() != pair.last());
    Ok(differ)
}

// Hands in all shares but the last, which isn't enough, and then all: how many events there were.
fn finished<B: Owner>(
    manager: Manager<B>,
    rows: &Rows<B>,
    shares: Vec<Share<B>>,
    last: Share<B>,
) -> Result<usize, Fail> {
    let Err(
        SharesOut {
            manager,
            mut shares,
        },
    ) = manager.finish(rows, shares)
    else {
        return Err(Fail::from("a share is missing"));
    };
    shares.push(last)?;
    let Ok(history) = manager.finish(rows, shares) else {
        return Err(Fail::from("all shares are enough"));
    };
    Ok(history.events().len())
}

#[test]
fn two_threads_share_a_manager(rt: HostRuntime) -> Result<(), Fail> {
    let seed = seed_of(rt.alloc(), 64, 1000, 2)?;
    shared_by_two::<Brand, _>(&rt, rt.alloc(), seed)
}

fn shared_by_two<B: Owner + Send + Sync, R: Threads + Wait + Abort + Sync>(
    rt: &R,
    alloc: Global,
    seed: Seed,
) -> Result<(), Fail>
    requires { IsNamedBy seed B.name B.parts B.shares B.room B.frames B.mode B.rows B.most B.handing }
{
    let Made {
        manager,
        rows,
        mut shares,
        ..
    } = Manager::<B>::new(alloc, seed)?;
    let mut one = shares.pop().ok_or("a share")?;
    let two = shares.pop().ok_or("a share")?;
    let made = manager.call(
        rt,
        &rows,
        &mut one,
        Call::Domain {
            mode: Mode::Strict,
            width: Width::W39,
        },
    );
    assert_eq!(rt; made, Ok((1, Reply::Made(1))));
    let shared = &manager;
    let (first, second) = join(
        rt,
        || hundred_maps(rt, alloc, shared, &rows, one),
        || hundred_maps(rt, alloc, shared, &rows, two),
    );
    assert_eq!(rt; first.0.calls(), 101);
    assert_eq!(rt; second.0.calls(), 100);
    let mut addresses = first.1?;
    addresses.extend_from_slice(second.1?.as_slice())?;
    assert_eq!(rt; addresses.len(), 200);
    assert!(rt; all_differ(&mut addresses)?);
    shares.push(first.0)?;
    assert_eq!(rt; finished(manager, &rows, shares, second.0)?, 201);
    Ok(())
}

#[test]
fn two_shares_fill_the_history(rt: HostRuntime) -> Result<(), Fail> {
    let seed = seed_of(rt.alloc(), 64, 2500, 2)?;
    filled_by_two::<Brand, _>(&rt, rt.alloc(), seed)
}

// More than a thousand calls by each of two shares, in turn: the last of them finds no room, and not one before.
fn filled_by_two<B: Owner, R: Wait + Abort>(rt: &R, alloc: Global, seed: Seed) -> Result<(), Fail>
    requires { IsNamedBy seed B.name B.parts B.shares B.room B.frames B.mode B.rows B.most B.handing }
{
    let Made {
        manager,
        rows,
        mut shares,
        ..
    } = Manager::<B>::new(alloc, seed)?;
    let mut one = shares.pop().ok_or("a share")?;
    let mut two = shares.pop().ok_or("a share")?;
    for turn in 0..1250u64 {
        let first = manager.call(rt, &rows, &mut one, Call::Flush { domain: 1 });
        let refused = Reply::Refused(Refusal::NoDomain);
        assert_eq!(rt; first, Ok((2 * turn + 1, refused)));
        let second = manager.call(rt, &rows, &mut two, Call::Flush { domain: 1 });
        assert_eq!(rt; second, Ok((2 * turn + 2, refused)));
    }
    let first = manager.call(rt, &rows, &mut one, Call::Flush { domain: 1 });
    assert!(rt; first.is_err());
    let second = manager.call(rt, &rows, &mut two, Call::Flush { domain: 1 });
    assert!(rt; second.is_err());
    assert!(rt; one.calls() == 1250 && two.calls() == 1250);
    Ok(())
}

#[test]
fn limits_of_a_configuration(rt: HostRuntime) {
    for (frames, calls, shares, within) in [
        (16, 1, 1, true),
        (4096, 1_048_576, 64, true),
        (15, 1, 1, false),
        (4097, 1, 1, false),
        (16, 0, 1, false),
        (16, 1_048_577, 1, false),
        (16, 1, 0, false),
        (16, 1, 65, false),
    ] {
        assert_eq!(rt; Config::new(frames, calls, shares).is_some(), within);
    }
}

#[test]
fn calls_of_one_share(rt: HostRuntime) -> Result<(), Fail> {
    let seed = seed_of(rt.alloc(), 64, 1022, 1)?;
    called_by_one::<Brand, _>(&rt, rt.alloc(), seed)
}

// Each call through the book that the lock guards, a domain with as many pieces as it can have, and a
// full history.
fn called_by_one<B: Owner, R: Wait + Abort>(rt: &R, alloc: Global, seed: Seed) -> Result<(), Fail>
    requires { IsNamedBy seed B.name B.parts B.shares B.room B.frames B.mode B.rows B.most B.handing }
{
    let (manager, rows, _, mut mine) = made::<B>(alloc, seed)?;
    {
        let mut guard = manager.lock(rt);
        let book = &mut *guard;
        assert_eq!(rt;
            book.call(
                &rows,
                &mut mine,
                Call::Domain {
                    mode: Mode::Lazy,
                    width: Width::W39
                }
            ),
            Ok((1, Reply::Made(1)))
        );
        for k in 1..1022u64 {
            let answer = book.call(&rows, &mut mine, one_page(1));
            let wanted = Reply::Mapped(k * 4096);
            assert_eq!(rt; answer, Ok((k + 1, wanted)));
        }
        assert!(rt; book.call(&rows, &mut mine, one_page(1)).is_err());
        assert_eq!(rt; book.events().len(), 1022);
    }
    assert_eq!(rt; mine.calls(), 1022);
    Ok(())
}

#[test]
fn pieces_run_out(rt: HostRuntime) -> Result<(), Fail> {
    let seed = seed_of(rt.alloc(), 64, 2000, 1)?;
    crowded::<Brand, _>(&rt, rt.alloc(), seed)
}

// The 1,022nd piece of one page is one too many; devices go on.
fn crowded<B: Owner, R: Wait + Abort>(rt: &R, alloc: Global, seed: Seed) -> Result<(), Fail>
    requires { IsNamedBy seed B.name B.parts B.shares B.room B.frames B.mode B.rows B.most B.handing }
{
    let (manager, rows, _, mut mine) = made::<B>(alloc, seed)?;
    let _ = manager.call(
        rt,
        &rows,
        &mut mine,
        Call::Domain {
            mode: Mode::Strict,
            width: Width::W39,
        },
    );
    for _ in 0..1021u64 {
        let _ = manager.call(rt, &rows, &mut mine, one_page(1));
    }
    let last = manager.call(rt, &rows, &mut mine, one_page(1));
    assert_eq!(rt; last, Ok((1023, Reply::Refused(Refusal::TooManyPieces))));
    let attach = Call::Attach {
        device: 3,
        domain: 1,
    };
    assert_eq!(rt;
        manager.call(rt, &rows, &mut mine, attach),
        Ok((1024, Reply::Done))
    );
    assert_eq!(rt;
        manager.call(
            rt,
            &rows,
            &mut mine,
            request_of(3, 0x3fd123, Access::Write, false)
        ),
        Ok((1025, Reply::Host(0x1000123)))
    );
    assert_eq!(rt;
        manager.call(
            rt,
            &rows,
            &mut mine,
            request_of(3, 0x3fe000, Access::Write, true)
        ),
        Ok((1026, Reply::Faulted(Fault::Write)))
    );
    Ok(())
}

#[test]
fn snapshots(rt: HostRuntime) -> Result<(), Fail> {
    let seed = seed_of(rt.alloc(), 16, 100, 1)?;
    told_at_moments::<Brand, _>(&rt, rt.alloc(), seed)
}

// A new manager, and one with as many domains and devices as there can be.
fn told_at_moments<B: Owner, R: Wait + Abort>(rt: &R, alloc: Global, seed: Seed) -> Result<(), Fail>
    requires { IsNamedBy seed B.name B.parts B.shares B.room B.frames B.mode B.rows B.most B.handing }
{
    let (manager, rows, _, mut mine) = made::<B>(alloc, seed)?;
    let report = manager.snapshot(rt, alloc)?;
    assert_eq!(rt;
        report.text(),
        "events 0\nframes 16 free 0 used 0 retired\ntickets 0 open\nring 0 pending\n"
    );
    for _ in 0..15u64 {
        let _ = manager.call(
            rt,
            &rows,
            &mut mine,
            Call::Domain {
                mode: Mode::Lazy,
                width: Width::W39,
            },
        );
    }
    for device in 0..16u64 {
        let attach = Call::Attach { device, domain: 15 };
        let _ = manager.call(rt, &rows, &mut mine, attach);
    }
    let report = manager.snapshot(rt, alloc)?;
    let text = report.text();
    assert!(rt; text.starts_with("events 31\nframes 1 free 15 used 0 retired\n"));
    assert!(rt; text.ends_with("device 15 domain 15\n"));
    assert_eq!(rt; text.lines().count(), 35);
    Ok(())
}
