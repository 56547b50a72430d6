//! The row of context entries, the ring and the unit that reads both, as the manager uses them.

ghost use Rattle.std.specs.Prelude.{◌≡◌, ◌≢◌, ◌↔◌, ℕ, ◌+◌, ◌<◌, ◌≤◌, ◌^◌, ◌++◌};
ghost use Rattle.std.specs.Prelude.{◌∷◌, [], None, Some, false, length, replicate, slice_get, IsTrue};
ghost use Rattle.dmatypes.specs.declared.limits.TheConstants.{DEVICES, MOST_STEPS};
ghost use Rattle.dmatypes.specs.Page.{levels};
ghost use Rattle.tables.specs.Pool.{IsTree};
ghost use Rattle.dmatypes.specs.declared.reply.Progress.{Progress};
ghost use Rattle.queue.specs.declared.ring.TheConstants.Ring.{CAPACITY};
ghost use Rattle.engine.specs.Ending.{Begins, Invalidates, IsSent, SendsForMap, left_by_all, record_shown, shown_of, status_of};
ghost use Rattle.engine.specs.Ending.{taken_after};
ghost use Rattle.engine.specs.Ready.{AreReleasable, IsUnstated, IsReady, IsFreeable, IsStated, NoneWrites, last_done};
ghost use Rattle.queue.specs.Ring.{ring_of};
ghost use Rattle.unit.specs.Caches.{nothing, unit_state};
ghost use Rattle.unit.specs.Filters.{after_first, done_after, left_by_first, status_after};
ghost use Rattle.vtdbits.specs.declared.descriptor.Descriptor.{Descriptor};
ghost use Rattle.vtdbits.specs.declared.descriptor.Descriptor.TheVariants.{ContextDevice, IotlbDomain, Wait};

use crate::record::Record;
use crate::sending::{descriptor_for_map, descriptor_of};
use dmatypes::{Frame, PageRange, Progress};
use iova::Space;
use queue::Ring;
use tables::{Pool, Tree};
use unit::{Contexts, Unit};
use vtdbits::{ContextEntry, Descriptor, DeviceNumber, DomainId};

// A wait writes one of this number of statuses.
const STATUSES: u64 = 1 << 32;

/// The row of context entries, the ring of descriptors, the unit that reads both, the number of the last wait that
/// was sent, and what was shown of a domain then.
#[derive(Drop)]
pub(crate) struct Iommu {
    pub(crate) contexts: Contexts,
    pub(crate) ring: Ring,
    pub(crate) unit: Unit,
    sent: u64,
    // Only contracts read it. For an unmap or a flush what was shown comes free after the sending, and not before; for a map
    // it was written before. Nothing is shown where a context is forgotten or a flush begun.
    shown: Option<Shown>,
}

/// What is shown of a domain when it has pages and tables forgotten, and where some come free by it, how many table frames
/// are free then.
#[derive(Clone, Copy)]
pub(crate) enum Shown {
    /// The root of its tree, and the range of one retired record.
    OneRecord {
        root: Frame,
        range: PageRange,
        free: u64,
    },
    /// The root of its tree, and how many of its records.
    Records {
        root: Frame,
        records: u64,
        free: u64,
    },
    /// The root of its tree, which states each page of a range.
    Mapped {
        root: Frame,
        range: PageRange,
    },
}

impl Iommu {
    /// No device is attached, nothing waits, and the unit remembers nothing. It has Caching Mode or not.
    // Never inlined: the room on the stack in which its parts are moved is given back when it returns.
    #[inline(never)]
    pub(crate) fn new(caching: bool) -> Iommu
        ensures { result ≡ record {
          contexts = replicate DEVICES ContextEntry.Absent;
          ring = ring_of [] 0 [];
          unit = unit_state nothing 0 0 caching;
          sent = 0;
          shown = None;
        } }
    {
        Iommu {
            contexts: Contexts::new(),
            ring: Ring::new(),
            unit: Unit::with_caching(caching),
            sent: 0,
            shown: None,
        }
    }

    /// The same without Caching Mode, as after `waits` waits that are all done.
    pub(crate) fn after(waits: u64) -> Iommu
        ensures { result ≡ record {
          contexts = replicate DEVICES ContextEntry.Absent;
          ring = ring_of [] (status_of waits) [];
          unit = unit_state nothing 0 0 false;
          sent = waits;
          shown = None;
        } }
    {
        let mut ring = Ring::new();
        ring.complete(status_of(waits));
        Iommu {
            ring,
            sent: waits,
            ..Iommu::new(false)
        }
    }

    /// How many waits were sent, which is the number of the last one.
    pub(crate) fn sent(&self) -> u64
        ensures { result ≡ self.now.sent }
    {
        self.sent
    }

    /// Has the unit forget the pages of a retired record, and what it remembers of the tables that were cut with them. It sends
    /// the descriptor that covers them and then a wait, and runs the unit until the wait is done. What waits is done before, and
    /// nothing waits then. The domain's tree states none of the pages any more: a request could bring them back before. They are
    /// still live in its address space, and the frames that were cut with them still neither free nor used: what comes free
    /// comes so later.
    pub(crate) fn invalidate_pages(
        &mut self,
        domain: DomainId,
        ended: &Record,
        pool: &Pool,
        tree: &Tree,
        space: &Space,
    )
        requires ready { IsReady self.old }
        requires cleared { IsUnstated pool.now tree.now.width tree.now.root ended.now.range }
        requires kept { IsFreeable pool.now space.now ended.now }
        ensures { (descriptor : Descriptor) × IsSent domain ended.now.range ended.now.cut descriptor
            × Invalidates self.old descriptor (record_shown tree.now.root ended.now.range (length pool.now.free)) self.new }
    {
        let shown = Shown::OneRecord {
            root: tree.root(),
            range: ended.range,
            free: pool.free_count(),
        };
        self.send(descriptor_of(domain, ended.range, &ended.cut), Some(shown));
    }

    /// Has the unit forget all that it remembers of a domain's pages and tables in the same way, for all these retired
    /// records of the domain. They can still be released, and its tree still stands: what comes free comes so later.
    pub(crate) fn invalidate_domain(
        &mut self,
        domain: DomainId,
        records: &[Record],
        pool: &Pool,
        tree: &Tree,
        space: &Space,
    )
        requires ready { IsReady self.old }
        requires standing { IsTree pool.now (levels tree.now.width) tree.now.root }
        requires kept { AreReleasable pool.now space.now records.now }
        ensures { Invalidates self.old (IotlbDomain domain) (shown_of tree.now.root (length records.now) (length pool.now.free)) self.new }
    {
        let shown = Shown::Records {
            root: tree.root(),
            records: records.len() as u64,
            free: pool.free_count(),
        };
        self.send(Descriptor::IotlbDomain(domain), Some(shown));
    }

    /// Whether the unit has Caching Mode.
    pub(crate) fn is_caching(&self) -> bool
        ensures { result ≡ self.now.unit.caching }
    {
        self.unit.is_caching()
    }

    /// Has the unit forget that pages were absent that are mapped now, in the same way: with Caching Mode it may remember that.
    /// The domain's tree states each of them by now: a request could find them absent again before.
    pub(crate) fn invalidate_mapped(
        &mut self,
        domain: DomainId,
        range: PageRange,
        pool: &Pool,
        tree: &Tree,
    )
        requires ready { IsReady self.old }
        requires caching { IsTrue self.old.unit.caching }
        requires stated { IsStated pool.now tree.now.width tree.now.root range }
        ensures { SendsForMap self.old.unit.caching self.old domain tree.now.root range self.new }
    {
        let shown = Shown::Mapped {
            root: tree.root(),
            range,
        };
        self.send(descriptor_for_map(domain, range), Some(shown));
    }

    /// Has the unit forget the context of a device of a domain in the same way, once the row's entry of the device is
    /// absent: a request could bring the context back before.
    pub(crate) fn forget_context(&mut self, domain: DomainId, device: DeviceNumber)
        requires ready { IsReady self.old }
        requires absent { slice_get self.old.contexts device ≡ Some ContextEntry.Absent }
        ensures { Invalidates self.old (ContextDevice domain device) None self.new }
    {
        self.send(Descriptor::ContextDevice { domain, device }, None);
    }

    /// Begins to have the unit forget all that it remembers of a domain: sends the descriptor and then a wait, whose number it
    /// answers, and doesn't run the unit.
    pub(crate) fn begin(&mut self, domain: DomainId) -> u64
        requires room { length self.old.ring.waiting + 2 ≤ CAPACITY }
        requires few { self.old.sent + 1 < 2 ^ 64 }
        ensures begins { Begins self.old domain self.new }
        ensures number { result ≡ self.new.sent }
    {
        self.sent += 1;
        self.shown = None;
        self.ring.submit(Descriptor::IotlbDomain(domain)).unwrap();
        self.ring
            .submit(Descriptor::Wait(status_of(self.sent)))
            .unwrap();
        self.sent
    }

    /// Lets the unit make one step.
    pub(crate) fn step(&mut self) -> Progress
        requires { self.old.unit.steps < 2 ^ 63 }
        ensures idle { (result ≡ Progress.Idle) ↔ (self.old.ring.waiting ≡ []) }
        ensures steps { self.new ≡ record self.old {
          ring = after_first self.old.ring.waiting self.old.ring.status self.old.ring.taken;
          unit = unit_state (left_by_first self.old.ring.waiting self.old.unit.caches) (self.old.unit.steps + 1)
              (done_after self.old.ring.waiting self.old.unit.done) self.old.unit.caching;
        } }
    {
        self.unit.step(&mut self.ring)
    }

    /// The number of the last wait that is done: as many were sent after it as the status is short of the last one's.
    pub(crate) fn last_done(&self) -> u64
        ensures { result ≡ last_done self.now }
    {
        let behind = self.sent % STATUSES + STATUSES - self.ring.status() as u64;
        self.sent.saturating_sub(behind % STATUSES)
    }

    // Sends a descriptor that is no wait and then a wait, and runs the unit until the wait is done.
    #[inline(always)]
    fn send(&mut self, descriptor: Descriptor, shown: Option<Shown>)
        requires ready { IsReady self.old }
        requires no_wait { (status : ℕ) → status_after descriptor status ≡ status }
        ensures { Invalidates self.old descriptor shown self.new }
    {
        self.sent += 1;
        self.shown = shown;
        work_off(
            &mut self.ring,
            &mut self.unit,
            status_of(self.sent),
            descriptor,
        );
    }
}

// What the wait of a number writes: its low 32 bits.
fn status_of(number: u64) -> u32
    ensures { result ≡ status_of number }
{
    (number % STATUSES) as u32
}

// The same, with a wait that writes this status. What waits writes another one.
fn work_off(ring: &mut Ring, unit: &mut Unit, status: u32, descriptor: Descriptor)
    requires room { length ring.old.waiting + 2 ≤ MOST_STEPS }
    requires fresh { ring.old.status ≢ status }
    requires others { NoneWrites status ring.old.waiting }
    requires no_wait { (old : ℕ) → status_after descriptor old ≡ old }
    requires steps { unit.old.steps + (length ring.old.waiting + 2) ≤ 2 ^ 63 }
    ensures ring { ring.new ≡ ring_of [] status (taken_after (ring.old.waiting ++ descriptor ∷ Wait status ∷ []) ring.old.taken) }
    ensures caches { unit.new.caches ≡ left_by_all (ring.old.waiting ++ descriptor ∷ Wait status ∷ []) unit.old.caches }
    ensures steps { unit.new.steps ≡ unit.old.steps + (length ring.old.waiting + 2) }
    ensures each { unit.new.done ≡ unit.old.done + (length ring.old.waiting + 2) }
    ensures caching { unit.new.caching ≡ unit.old.caching }
{
    ring.submit(descriptor).unwrap();
    ring.submit(Descriptor::Wait(status)).unwrap();
    while ring.status() != status {
        unit.step(ring);
    }
}
