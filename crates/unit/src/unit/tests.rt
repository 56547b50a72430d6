// Descriptors against entries that they drop, that they keep, and that they only overlap.

use super::*;
use crate::entries::CachedLeaf;
use crate::recent::LEAVES;
use dmatypes::{Frame, Rights, Width};
use std::process::Abort;
use vtdbits::{DeviceNumber, DomainId, LargeTranslation, PageBlock, Translation};

fn frame_of(rt: &impl Abort, number: u64) -> Frame {
    Frame::new(number).expect(rt, "a frame")
}

pub(super) fn domain_of(rt: &impl Abort, number: u64) -> DomainId {
    DomainId::new(number).expect(rt, "a domain")
}

fn device_of(rt: &impl Abort, number: u64) -> DeviceNumber {
    DeviceNumber::new(number).expect(rt, "a device")
}

fn pages_of(rt: &impl Abort, domain: u64, first: u64, order: u8, hint: bool) -> Descriptor {
    Descriptor::IotlbPages {
        domain: domain_of(rt, domain),
        block: PageBlock::new(first, order).expect(rt, "a block"),
        hint,
    }
}

pub(super) fn small(rt: &impl Abort, domain: u64, page: u64) -> CachedLeaf {
    assert!(rt; page < 1 << 27);
    let rights = Rights::from_number(3).expect(rt, "rights");
    CachedLeaf::small(
        domain_of(rt, domain),
        page,
        Translation::new(frame_of(rt, 0x100), rights),
    )
}

pub(super) fn large(rt: &impl Abort, domain: u64, page: u64) -> CachedLeaf {
    assert!(rt; page < 1 << 27);
    let rights = Rights::from_number(1).expect(rt, "rights");
    let frame = frame_of(rt, 0x400);
    assert!(rt; frame.number() % 512 == 0);
    CachedLeaf::large(
        domain_of(rt, domain),
        page,
        LargeTranslation::new(frame, rights),
    )
}

pub(super) fn table(rt: &impl Abort, domain: u64, first: u64, level: u64) -> CachedNonLeaf {
    assert!(rt; first < 1 << 36);
    assert!(rt; 1 <= level);
    assert!(rt; level <= 3);
    CachedNonLeaf::new(domain_of(rt, domain), first, level, frame_of(rt, 5))
}

pub(super) fn context(rt: &impl Abort, device: u64, domain: u64) -> CachedContext {
    CachedContext {
        device: device_of(rt, device),
        domain: domain_of(rt, domain),
        root: frame_of(rt, 1),
        width: Width::W39,
    }
}

pub(super) fn absent(rt: &impl Abort, domain: u64, page: u64) -> CachedFault {
    assert!(rt; page < 1 << 36);
    CachedFault {
        domain: domain_of(rt, domain),
        page,
    }
}

// A unit in Caching Mode that remembers these lists.
pub(super) fn unit_of(
    leaves: ArrayVec<CachedLeaf, LEAVES>,
    non_leaves: ArrayVec<CachedNonLeaf, NON_LEAVES>,
    contexts: ArrayVec<CachedContext, CONTEXTS>,
    faults: ArrayVec<CachedFault, FAULTS>,
) -> Unit {
    let mut marked = MarkedLeaves::new();
    for leaf in &leaves {
        marked.remember(*leaf, true, false);
    }
    // Each length says that it is within the list's capacity.
    let _ = (
        marked.as_slice().len(),
        non_leaves.len(),
        contexts.len(),
        faults.len(),
    );
    Unit {
        leaves: marked,
        non_leaves,
        contexts,
        faults,
        caching: true,
        done: 0,
        idle: 0,
    }
}

// A unit that remembers entries of two domains. Of domain 1 it has pages 0x200, 0x3ff and 0x400 by small leaves, and pages 0x600 to
// 0x7ff by a large one. It has tables of level 1 and 2 over page 0x200, one of level 1 from page 0x400 on and one of level 3 from
// page 2^27 on. Pages 0x300, 0x400 and 2^27 are absent. Of domain 2 it has page 0x200 and a table over it, and page 0x300 as
// absent. It has the contexts of device 3 in domain 1 and of devices 4 and 5 in domain 2.
fn filled_unit(rt: &impl Abort) -> Unit {
    let mut leaves = ArrayVec::new();
    for leaf in [
        small(rt, 1, 0x200),
        small(rt, 1, 0x3ff),
        small(rt, 1, 0x400),
        large(rt, 1, 0x601),
        small(rt, 2, 0x200),
    ] {
        assert!(rt; leaves.try_push(leaf).is_ok());
    }
    let mut non_leaves = ArrayVec::new();
    for non_leaf in [
        table(rt, 1, 0x200, 1),
        table(rt, 1, 0, 2),
        table(rt, 1, 0x400, 1),
        table(rt, 1, HIGH, 3),
        table(rt, 2, 0x200, 1),
    ] {
        assert!(rt; non_leaves.try_push(non_leaf).is_ok());
    }
    let mut contexts = ArrayVec::new();
    for entry in [context(rt, 3, 1), context(rt, 4, 2), context(rt, 5, 2)] {
        assert!(rt; contexts.try_push(entry).is_ok());
    }
    let mut faults = ArrayVec::new();
    for fault in [
        absent(rt, 1, 0x300),
        absent(rt, 1, 0x400),
        absent(rt, 1, HIGH),
        absent(rt, 2, 0x300),
    ] {
        assert!(rt; faults.try_push(fault).is_ok());
    }
    unit_of(leaves, non_leaves, contexts, faults)
}

// Makes the unit do one descriptor.
fn done(rt: &impl Abort, unit: &mut Unit, descriptor: Descriptor) -> u32 {
    let mut ring = Ring::new();
    assert!(rt; ring.submit(descriptor).is_ok());
    assert!(rt; unit.done < 1 << 60 && unit.idle < 1 << 60);
    assert!(rt; unit.step(&mut ring) == Progress::Did);
    assert!(rt; unit.done < 1 << 60 && unit.idle < 1 << 60);
    assert!(rt; unit.step(&mut ring) == Progress::Idle);
    ring.status()
}

// The unit remembers leaves of these first pages and lengths, tables of these first pages and levels, and
// contexts of these devices.
pub(super) fn assert_remembered(
    rt: &impl Abort,
    unit: &Unit,
    leaves: &[(u64, u64)],
    tables: &[(u64, u64)],
    contexts: &[u64],
) {
    assert!(rt;
        unit.leaves
            .as_slice()
            .iter()
            .map(|leaf| (leaf.first, u64::from(leaf.pages)))
            .eq(leaves.iter().copied())
    );
    assert!(rt;
        unit.non_leaves
            .iter()
            .map(|table| (table.first, u64::from(table.level)))
            .eq(tables.iter().copied())
    );
    assert!(rt;
        unit.contexts
            .iter()
            .map(|context| context.device.number())
            .eq(contexts.iter().copied())
    );
}

// The unit remembers these pages as absent, each of a domain.
pub(super) fn assert_absent(rt: &impl Abort, unit: &Unit, faults: &[(u64, u64)]) {
    assert!(rt;
        unit.faults
            .iter()
            .map(|fault| (fault.domain.number(), fault.page))
            .eq(faults.iter().copied())
    );
}

// A page of 48-bit domains alone, the first one.
const HIGH: u64 = 1 << 27;

// What it remembers: first pages and lengths of leaves, first pages and levels of tables, devices, and domains with absent
// pages.
const LEAVES_THERE: [(u64, u64); 5] = [
    (0x200, 1),
    (0x3ff, 1),
    (0x400, 1),
    (0x600, 512),
    (0x200, 1),
];

const TABLES_THERE: [(u64, u64); 5] = [(0x200, 1), (0, 2), (0x400, 1), (HIGH, 3), (0x200, 1)];

const DEVICES_THERE: [u64; 3] = [3, 4, 5];

const FAULTS_THERE: [(u64, u64); 4] = [(1, 0x300), (1, 0x400), (1, HIGH), (2, 0x300)];

// A descriptor leaves these leaves, tables and absent pages of the filled unit, and every context.
fn assert_left(
    rt: &impl Abort,
    descriptor: Descriptor,
    leaves: &[(u64, u64)],
    tables: &[(u64, u64)],
    faults: &[(u64, u64)],
) {
    let mut unit = filled_unit(rt);
    let status = done(rt, &mut unit, descriptor);
    assert_eq!(rt; status, 0);
    assert_remembered(rt, &unit, leaves, tables, &DEVICES_THERE);
    assert_absent(rt, &unit, faults);
}

#[test]
fn what_iotlb_descriptors_leave(rt: HostRuntime) {
    let domain = Descriptor::IotlbDomain(domain_of(&rt, 1));
    assert_left(&rt, Descriptor::IotlbGlobal, &[], &[], &[]);
    assert_left(&rt, domain, &[(0x200, 1)], &[(0x200, 1)], &[(2, 0x300)]);

    // A block with two of the small leaves and an absent page, between the others.
    let kept = [(0x400, 1), (0x600, 512), (0x200, 1)];
    let absent = [(1, 0x400), (1, HIGH), (2, 0x300)];
    let block = pages_of(&rt, 1, 0x200, 9, false);
    let tables = [(0x400, 1), (HIGH, 3), (0x200, 1)];
    assert_left(&rt, block, &kept, &tables, &absent);
    let hinted = pages_of(&rt, 1, 0x200, 9, true);
    assert_left(&rt, hinted, &kept, &TABLES_THERE, &absent);

    // The half of the large leaf, and all of it.
    let half = pages_of(&rt, 1, 0x700, 8, false);
    let met = [(0x200, 1), (0x400, 1), (HIGH, 3), (0x200, 1)];
    assert_left(&rt, half, &LEAVES_THERE, &met, &FAULTS_THERE);
    let whole = pages_of(&rt, 1, 0x600, 9, true);
    let smaller = [(0x200, 1), (0x3ff, 1), (0x400, 1), (0x200, 1)];
    assert_left(&rt, whole, &smaller, &TABLES_THERE, &FAULTS_THERE);

    // A page of 48-bit domains alone: the table of level 3 covers it.
    let high = pages_of(&rt, 1, HIGH, 0, false);
    let low = [(0x200, 1), (0, 2), (0x400, 1), (0x200, 1)];
    let others = [(1, 0x300), (1, 0x400), (2, 0x300)];
    assert_left(&rt, high, &LEAVES_THERE, &low, &others);
}

#[test]
fn what_other_descriptors_leave(rt: HostRuntime) {
    let domain = domain_of(&rt, 2);
    let device = device_of(&rt, 4);
    for (descriptor, status, devices) in [
        (Descriptor::ContextGlobal, 0, [].as_slice()),
        (Descriptor::ContextDomain(domain), 0, [3].as_slice()),
        (
            Descriptor::ContextDevice { domain, device },
            0,
            [3, 5].as_slice(),
        ),
        (Descriptor::Wait(7), 7, DEVICES_THERE.as_slice()),
    ] {
        let mut unit = filled_unit(&rt);
        assert_eq!(rt; done(&rt, &mut unit, descriptor), status);
        assert_remembered(&rt, &unit, &LEAVES_THERE, &TABLES_THERE, devices);
        assert_absent(&rt, &unit, &FAULTS_THERE);
    }
}

#[test]
fn what_evictions_leave(rt: HostRuntime) {
    let mut unit = filled_unit(&rt);
    unit.evict(Cache::Leaf, 1);
    unit.evict(Cache::Leaf, 4);
    unit.evict(Cache::NonLeaf, 0);
    unit.evict(Cache::Context, 2);
    unit.evict(Cache::Context, 1 << 63);
    unit.evict(Cache::Fault, 1);
    unit.evict(Cache::Fault, 3);
    let leaves = [(0x200, 1), (0x400, 1), (0x600, 512), (0x200, 1)];
    let tables = [(0, 2), (0x400, 1), (HIGH, 3), (0x200, 1)];
    assert_remembered(&rt, &unit, &leaves, &tables, &[3, 4]);
    assert_absent(&rt, &unit, &[(1, 0x300), (1, HIGH), (2, 0x300)]);
}

#[test]
fn the_row(rt: HostRuntime) {
    let mut row = crate::Contexts::new();
    let entry = vtdbits::ContextEntry::Present {
        root: frame_of(&rt, 5),
        width: Width::W48,
        domain: domain_of(&rt, 1),
    };
    row.set(3, entry);
    assert!(rt; row.get(3) == entry && row.get(2) == vtdbits::ContextEntry::Absent);
    row.clear(3);
    assert!(rt; row.get(3) == vtdbits::ContextEntry::Absent);
}
