//! An example: the thread of a device, which asks its port first, and takes the manager's lock only where the port has no
//! answer.

ghost use Rattle.manager.specs.Kept.{IsNamedBy};

use super::{map_of, request_of, seed_of};
use dmatypes::{Access, Call, Fault, Mode, PAGE_BYTES, Reply, Width};
use manager::*;
use std::alloc::Global;
use std::marker::Brand;
use std::process::Abort;
use std::sync::Wait;
use std::test::Fail;
use std::thread::{Threads, join};

// The device, by whose number the ports are in order too.
const DEVICE: u64 = 3;

// The pages of its buffer, fewer than a row has words.
const PAGES: u64 = 4;

// Where the buffer is in host memory.
const FRAME: u64 = 0x100;

// How many reads the device makes.
const READS: u64 = 400;

// What the device's thread owns: the port of the device, and a share for the requests that the port doesn't answer.
#[derive(Drop)]
struct Device<B: Owner> {
    port: Port<B>,
    share: Share<B>,
}

impl<B: Owner> Device<B> {
    // What a read at a byte address comes to.
    fn read<R: Wait>(
        &mut self,
        rt: &R,
        manager: &Manager<B>,
        rows: &Rows<B>,
        address: u64,
    ) -> Result<Reply, HistoryFull> {
        // Two loads and a comparison: no lock is taken, and nothing is entered into the history.
        if let (Some(host), _) = self.port.hit(rows, address, Access::Read) {
            return Ok(Reply::Host(host));
        }
        // The unit answers under the lock. With a fill the answer is also stored in the device's row: the next read of the
        // page is a hit.
        let request = request_of(DEVICE, address, Access::Read, true);
        let (_, reply) = manager.call(rt, rows, &mut self.share, request)?;
        Ok(reply)
    }
}

// The driver's side: two domains, the device in the first, and the buffer there for reading.
fn map_buffer<B: Owner, R: Wait>(
    rt: &R,
    manager: &Manager<B>,
    rows: &Rows<B>,
    mine: &mut Share<B>,
) {
    for _ in 0..2 {
        let domain = Call::Domain {
            mode: Mode::Strict,
            width: Width::W39,
        };
        let _ = manager.call(rt, rows, mine, domain);
    }
    let attach = Call::Attach {
        device: DEVICE,
        domain: 1,
    };
    let _ = manager.call(rt, rows, mine, attach);
    let _ = manager.call(rt, rows, mine, map_of(1, FRAME, PAGES, 1));
}

// Reads all over the buffer; whether each read came to where it lies in host memory.
fn read_buffer<B: Owner, R: Wait>(
    rt: &R,
    manager: &Manager<B>,
    rows: &Rows<B>,
    mut device: Device<B>,
) -> (bool, Device<B>) {
    let mut all_there = true;
    for read in 0..READS {
        let offset = PAGE_BYTES * (read % PAGES) + read;
        let reply = device.read(rt, manager, rows, PAGE_BYTES + offset);
        all_there &= reply == Ok(Reply::Host(PAGE_BYTES * FRAME + offset));
    }
    (all_there, device)
}

// A driver of another device at the same time: it maps and unmaps a page of a domain of its own.
fn map_elsewhere<B: Owner, R: Wait>(
    rt: &R,
    manager: &Manager<B>,
    rows: &Rows<B>,
    mut mine: Share<B>,
) -> Share<B> {
    for _ in 0..READS {
        let _ = manager.call(rt, rows, &mut mine, map_of(2, FRAME, 1, 3));
        let _ = manager.call(rt, rows, &mut mine, UNMAP_ELSEWHERE);
    }
    mine
}

const UNMAP_ELSEWHERE: Call = Call::Unmap {
    domain: 2,
    address: PAGE_BYTES,
    pages: 1,
};

const UNMAP_BUFFER: Call = Call::Unmap {
    domain: 1,
    address: PAGE_BYTES,
    pages: PAGES,
};

#[test]
fn device_thread(rt: HostRuntime) -> Result<(), Fail> {
    let seed = seed_of(rt.alloc(), 64, 2000, 2)?;
    device_beside_driver::<Brand, _>(&rt, rt.alloc(), seed)
}

fn device_beside_driver<B: Owner + Send + Sync, R: Threads + Wait + Abort + Sync>(
    rt: &R,
    alloc: Global,
    seed: Seed,
) -> Result<(), Fail>
    requires { IsNamedBy seed B.name B.parts B.shares B.room B.frames B.mode B.rows B.most B.handing }
{
    let Made {
        manager,
        rows,
        mut ports,
        mut shares,
        ..
    } = Manager::<B>::new(alloc, seed)?;
    let mut driver = shares.pop().ok_or("a share")?;
    let device = Device {
        port: ports.remove(3),
        share: shares.pop().ok_or("a share")?,
    };
    map_buffer(rt, &manager, &rows, &mut driver);
    let shared = &manager;
    let ((all_there, mut device), mut driver) = join(
        rt,
        || read_buffer(rt, shared, &rows, device),
        || map_elsewhere(rt, shared, &rows, driver),
    );
    // All but the first read of each page were hits.
    assert!(rt; all_there);
    assert_eq!(rt; device.share.calls(), PAGES);
    // Once the port has checked in after the unmap, it can't reach the buffer any more.
    let _ = manager.call(rt, &rows, &mut driver, UNMAP_BUFFER);
    manager.check_in(rt, &rows, &mut driver, &mut device.port);
    assert_eq!(rt;
        device.read(rt, &manager, &rows, PAGE_BYTES),
        Ok(Reply::Faulted(Fault::Read))
    );
    Ok(())
}
