//! What each worker of a storm does: drivers, devices, and the unit.

ghost use Rattle.std.specs.Prelude.{◌≡◌, ◌+◌, ℕ, [], IfSome};
ghost use Rattle.storm.specs.Storms.{AreHits, HasCheckedIn, HasMade, IsFresh, address_read};

use crate::gate::Gate;
use dmatypes::{Access, Call, PAGE_BYTES, Reply, Whim};
use manager::{Manager, Owner, Port, Rows, Share};
use std::sync::Wait;

// Both to read and to write.
const BOTH_RIGHTS: u64 = 3;

// The pages that a device reads, one after the other: 1 to 16.
const PAGES_READ: u64 = 16;

/// What all workers of a storm share, and how many calls each of them makes.
#[derive(Drop)]
pub(crate) struct Site<'a, B: Owner, G: Gate> {
    pub(crate) manager: &'a Manager<B>,
    pub(crate) rows: &'a Rows<B>,
    pub(crate) gate: &'a G,
    pub(crate) calls: u64,
}

/// What a worker does.
#[derive(Drop)]
pub(crate) enum Role<B: Owner> {
    /// Maps a page of a domain to a host frame, and unmaps it, by turns.
    Driver { domain: u64, frame: u64 },
    /// Asks the device's port, and makes the device's requests.
    Device { device: u64, port: Port<B> },
    /// Makes steps of the unit.
    Unit,
}

/// One worker before it begins, with its number.
#[derive(Drop)]
pub(crate) struct Worker<B: Owner> {
    pub(crate) number: u64,
    pub(crate) share: Share<B>,
    pub(crate) role: Role<B>,
}

/// What a worker hands back: its share, and a device's port, which has checked in.
#[derive(Drop)]
pub(crate) struct Finished<B: Owner> {
    pub(crate) share: Share<B>,
    pub(crate) port: Option<Port<B>>,
}

/// Makes all calls of a worker.
pub(crate) fn work<B: Owner, G: Gate, R: Wait>(
    rt: &R,
    site: &Site<'_, B, G>,
    worker: Worker<B>,
) -> Finished<B>
    requires { IsFresh worker }
    ensures made { HasMade B.room site.now.calls result.share }
    ensures port { IfSome result.port (HasCheckedIn site.now.calls result.share) }
{
    let Worker {
        number,
        share,
        role,
    } = worker;
    let mut caller = Caller { number, share };
    let port = match role {
        Role::Driver { domain, frame } => {
            drive(rt, site, &mut caller, domain, frame);
            None
        }
        Role::Device { device, mut port } => {
            request(rt, site, &mut caller, device, &mut port);
            Some(port)
        }
        Role::Unit => {
            step(rt, site, &mut caller);
            None
        }
    };
    Finished {
        share: caller.share,
        port,
    }
}

// A worker's number, and the share by which it calls.
#[derive(Drop)]
struct Caller<B: Owner> {
    number: u64,
    share: Share<B>,
}

impl<B: Owner> Caller<B> {
    // Makes the call of this number through the gate. No reply where the history has no room. Inlined, as the calls are: of one whose
    // kind is known no more is moved than it has.
    #[inline(always)]
    fn make<G: Gate, R: Wait>(
        &mut self,
        rt: &R,
        site: &Site<'_, B, G>,
        number: u64,
        call: Call,
    ) -> Option<Reply>
        ensures { (n : ℕ) → HasMade B.room n self.old.share → HasMade B.room (n + 1) self.new.share }
    {
        site.gate.enter(self.number, number);
        let answer = site.manager.call(rt, site.rows, &mut self.share, call);
        site.gate.answered(self.number, number);
        let (_, reply) = answer.ok()?;
        Some(reply)
    }

    // Makes the device's read of this number. Its port has been asked for this read too.
    #[inline(always)]
    fn read<G: Gate, R: Wait>(
        &mut self,
        rt: &R,
        site: &Site<'_, B, G>,
        number: u64,
        device: u64,
        port: &Port<B>,
    ) -> Option<Reply>
        requires asked { AreHits device number port.now.did }
        ensures { (n : ℕ) → HasMade B.room n self.old.share → HasMade B.room (n + 1) self.new.share }
    {
        self.make(rt, site, number, read_call(device, address_of(number)))
    }
}

// A driver's calls.
fn drive<B: Owner, G: Gate, R: Wait>(
    rt: &R,
    site: &Site<'_, B, G>,
    caller: &mut Caller<B>,
    domain: u64,
    frame: u64,
)
    requires { caller.old.share.calls ≡ 0 }
    ensures { HasMade B.room site.now.calls caller.new.share }
{
    let mut mapped = None;
    for made in 0..site.calls {
        let number = made + 1;
        let call = driver_call(domain, frame, number, mapped);
        mapped = match caller.make(rt, site, number, call) {
            Some(Reply::Mapped(address)) => Some(address),
            _ => None,
        };
    }
}

/// An odd call maps a page. An even one unmaps what the call before mapped, or flushes the domain where that mapped none.
#[inline(always)]
pub(crate) fn driver_call(domain: u64, frame: u64, number: u64, mapped: Option<u64>) -> Call {
    if number % 2 == 1 {
        return Call::Map {
            domain,
            frame,
            pages: 1,
            order: 0,
            rights: BOTH_RIGHTS,
        };
    }
    match mapped {
        Some(address) => Call::Unmap {
            domain,
            address,
            pages: 1,
        },
        None => Call::Flush { domain },
    }
}

// A device's reads: of each page by the port first, and then under the lock. At the end its port checks in.
#[tactic(auto, using(crate::proofs::Hits::one_hit_more))]
fn request<B: Owner, G: Gate, R: Wait>(
    rt: &R,
    site: &Site<'_, B, G>,
    caller: &mut Caller<B>,
    device: u64,
    port: &mut Port<B>,
)
    requires share { caller.old.share.calls ≡ 0 }
    requires port { (port.old.device ≡ device) × (port.old.did ≡ []) }
    ensures made { HasMade B.room site.now.calls caller.new.share }
    ensures port { HasCheckedIn site.now.calls caller.new.share port.new }
{
    for made in 0..site.calls {
        let number = made + 1;
        let address = address_of(number);
        let _ = port.hit(site.rows, address, Access::Read);
        let _ = caller.read(rt, site, number, device, port);
    }
    site.manager
        .check_in(rt, site.rows, &mut caller.share, port);
}

// The address of a device's read of this number.
fn address_of(number: u64) -> u64
    ensures { result ≡ address_read number }
{
    PAGE_BYTES * (1 + number % PAGES_READ)
}

// A device's read, which the unit's caches may answer, and which is remembered.
#[inline(always)]
fn read_call(device: u64, address: u64) -> Call {
    Call::Dma {
        device,
        address,
        access: Access::Read,
        whim: Whim {
            look: true,
            fill: true,
        },
    }
}

// Steps of the unit.
fn step<B: Owner, G: Gate, R: Wait>(rt: &R, site: &Site<'_, B, G>, caller: &mut Caller<B>)
    requires { caller.old.share.calls ≡ 0 }
    ensures { HasMade B.room site.now.calls caller.new.share }
{
    for made in 0..site.calls {
        let _ = caller.make(rt, site, made + 1, Call::Unit);
    }
}
