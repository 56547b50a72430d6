//! What calls ask, effect by effect.

ghost use Rattle.std.specs.Prelude.{◌+◌, ◌<◌, ◌≤◌};

use crate::{Driven, Effect, Half};
use dmatypes::{Access, Cache, Frame, Mode, Progress, Refusal, Whim, Width};
use engine::Unmapped;
use std::test::Fail;

// The words of a descriptor and of the first wait.
const PAGE_1_OF_DOMAIN_1: Effect = Effect::Send {
    low: 0x1_00f2,
    high: 0x1040,
};

const FIRST_WAIT: Effect = Effect::Send {
    low: 0x1_0000_0025,
    high: 1 << 36,
};

// One word of a table frame.
fn word(frame: Frame, first: u64) -> Effect {
    Effect::Words {
        frame,
        first,
        count: 1,
    }
}

#[test]
fn effects_of_a_page(rt: HostRuntime) -> Result<(), Fail> {
    let mut driven = Driven::new(rt.alloc(), 16, false)?;
    assert_eq!(rt; driven.domain(Mode::Strict, Width::W39), Ok(1));
    driven.tell();
    assert!(rt; driven.effects().is_empty());
    assert_eq!(rt; driven.attach(3, 1), Ok(()));
    driven.tell();
    assert_eq!(rt;
        driven.effects(),
        [
            Effect::Context {
                device: 3,
                first: Half::High,
            },
            Effect::Barrier,
        ]
        .as_slice()
    );
    assert_eq!(rt; driven.map(1, 0x100, 1, 0, 3), Ok(0x1000));
    let lowest = driven.state().table_at(1, 1, 1).expect(&rt, "a table");
    let middle = driven.state().table_at(1, 1, 2).expect(&rt, "a table");
    let root = driven.state().table_at(1, 1, 3).expect(&rt, "a table");
    driven.tell();
    assert_eq!(rt;
        driven.effects(),
        [
            word(lowest, 1),
            Effect::Barrier,
            word(middle, 0),
            word(root, 0),
            Effect::Barrier
        ]
        .as_slice()
    );
    assert_eq!(rt; driven.unmap(1, 0x1000, 1), Ok(Unmapped::Free));
    driven.tell();
    assert_eq!(rt;
        driven.effects(),
        [
            word(lowest, 1),
            Effect::Barrier,
            PAGE_1_OF_DOMAIN_1,
            FIRST_WAIT,
            Effect::Await(1),
        ]
        .as_slice()
    );
    // The tables are there now.
    assert_eq!(rt; driven.map(1, 0x100, 1, 0, 3), Ok(0x1000));
    driven.tell();
    assert_eq!(rt;
        driven.effects(),
        [word(lowest, 1), Effect::Barrier].as_slice()
    );
    assert_eq!(rt; driven.unmap(1, 0x1000, 1), Ok(Unmapped::Free));
    driven.tell();
    assert_eq!(rt;
        driven.effects(),
        [
            word(lowest, 1),
            Effect::Barrier,
            PAGE_1_OF_DOMAIN_1,
            SECOND_WAIT,
            Effect::Await(2),
        ]
        .as_slice()
    );
    assert!(rt; driven.unmap(1, 0x1000, 1).is_err());
    driven.tell();
    assert!(rt; driven.effects().is_empty());
    Ok(())
}

// All words of a table frame.
fn whole(frame: Frame) -> Effect {
    Effect::Words {
        frame,
        first: 0,
        count: 512,
    }
}

#[test]
fn effects_where_tables_come_and_go(rt: HostRuntime) -> Result<(), Fail> {
    let mut driven = Driven::new(rt.alloc(), 16, false)?;
    assert_eq!(rt; driven.domain(Mode::Strict, Width::W39), Ok(1));
    // A leaf of 2 MiB.
    assert_eq!(rt; driven.map(1, 0x200, 512, 9, 3), Ok(0x20_0000));
    let middle = driven.state().table_at(1, 512, 2).expect(&rt, "a table");
    driven.tell();
    assert_eq!(rt; driven.effects().len(), 4);
    assert_eq!(rt; driven.effects().get(1), Some(&word(middle, 1)));
    // It is split: the table that comes is brought whole before it is named.
    assert_eq!(rt; driven.unmap(1, 0x20_1000, 1), Ok(Unmapped::Free));
    let lowest = driven.state().table_at(1, 512, 1).expect(&rt, "a table");
    driven.tell();
    assert_eq!(rt; driven.effects().len(), 8);
    assert_eq!(rt; driven.effects().get(0), Some(&whole(lowest)));
    assert_eq!(rt; driven.effects().get(1), Some(&Effect::Barrier));
    assert_eq!(rt; driven.effects().get(2), Some(&word(middle, 1)));
    // A span of leaves of 4 KiB: its table goes with it, and is cleared.
    assert_eq!(rt; driven.map(1, 0x801, 512, 9, 3), Ok(0x40_0000));
    let gone = driven.state().table_at(1, 1024, 1).expect(&rt, "a table");
    assert_eq!(rt; driven.unmap(1, 0x40_0000, 512), Ok(Unmapped::Free));
    driven.tell();
    assert_eq!(rt; driven.effects().get(0), Some(&whole(gone)));
    assert_eq!(rt; driven.effects().get(2), Some(&word(middle, 2)));
    assert_eq!(rt; driven.state().table_at(1, 1024, 1), None);
    // In a table that stays the page's word alone.
    assert_eq!(rt; driven.unmap(1, 0x20_2000, 1), Ok(Unmapped::Free));
    driven.tell();
    assert_eq!(rt; driven.effects().get(0), Some(&word(lowest, 2)));
    assert_eq!(rt; driven.effects().len(), 5);
    Ok(())
}

// The words of what a detach of device 3 and a flush of domain 1 send.
const CONTEXT_OF_DEVICE_3: Effect = Effect::Send {
    low: 0x18_0001_0031,
    high: 0,
};

const ALL_OF_DOMAIN_1: Effect = Effect::Send {
    low: 0x1_00e2,
    high: 0,
};

const SECOND_WAIT: Effect = Effect::Send {
    low: 0x2_0000_0025,
    high: 1 << 36,
};

#[test]
fn a_detach_with_a_flush(rt: HostRuntime) -> Result<(), Fail> {
    let mut driven = Driven::new(rt.alloc(), 16, false)?;
    assert_eq!(rt; driven.domain(Mode::Lazy, Width::W39), Ok(1));
    assert_eq!(rt; driven.attach(3, 1), Ok(()));
    assert_eq!(rt; driven.map(1, 0x100, 1, 0, 3), Ok(0x1000));
    assert_eq!(rt;
        driven.unmap(1, 0x1000, 1),
        Ok(Unmapped::Retired { released: 0 })
    );
    assert_eq!(rt; driven.detach_all(3), Ok(1));
    driven.tell();
    assert_eq!(rt;
        driven.effects(),
        [
            Effect::Context {
                device: 3,
                first: Half::Low,
            },
            Effect::Barrier,
            CONTEXT_OF_DEVICE_3,
            FIRST_WAIT,
            Effect::Await(1),
            ALL_OF_DOMAIN_1,
            SECOND_WAIT,
            Effect::Await(2),
        ]
        .as_slice()
    );
    assert_eq!(rt; driven.state().domain_of(3), None);
    assert_eq!(rt; driven.detach_all(3), Err(Refusal::NotAttached));
    driven.tell();
    assert!(rt; driven.effects().is_empty());
    Ok(())
}

#[test]
fn requests_and_evictions_ask_nothing(rt: HostRuntime) -> Result<(), Fail> {
    let mut driven = Driven::new(rt.alloc(), 16, false)?;
    assert_eq!(rt; driven.domain(Mode::Strict, Width::W39), Ok(1));
    assert_eq!(rt; driven.attach(3, 1), Ok(()));
    assert_eq!(rt; driven.map(1, 0x100, 1, 0, 3), Ok(0x1000));
    let whim = Whim {
        look: true,
        fill: true,
    };
    let answer = driven.dma(3, 0x1234, Access::Read, whim);
    assert!(rt; matches!(answer, Ok(Ok(hit)) if hit.host == 0x10_0234));
    driven.tell();
    assert!(rt; driven.effects().is_empty());
    assert_eq!(rt; driven.attach(4, 1), Ok(()));
    driven.evict(Cache::Leaf, 0);
    driven.tell();
    assert!(rt; driven.effects().is_empty());
    Ok(())
}

// As `done_up_to` does it, in a state with calls enough left: no more descriptors wait than those of 64 tickets.
fn done(driven: &mut Driven, wait: u64) -> Option<u64>
    requires { driven.old.state.calls < 2000 }
    ensures { driven.new.state.calls ≤ driven.old.state.calls + 128 }
{
    driven.state().keeps();
    driven.done_up_to(wait)
}

#[test]
fn what_waits_is_done_up_to_a_wait(rt: HostRuntime) -> Result<(), Fail> {
    let mut driven = Driven::new(rt.alloc(), 16, false)?;
    assert_eq!(rt; driven.domain(Mode::Lazy, Width::W39), Ok(1));
    assert_eq!(rt; done(&mut driven, 0), Some(0));
    assert_eq!(rt; done(&mut driven, 1), None);
    assert_eq!(rt; driven.begin(1), Ok(1));
    assert_eq!(rt; driven.begin(1), Ok(2));
    assert_eq!(rt; driven.begin(1), Ok(3));
    // What the last call asks stays where the wait was never sent.
    assert_eq!(rt; done(&mut driven, 4), None);
    driven.tell();
    assert_eq!(rt; driven.effects().len(), 2);
    assert_eq!(rt; done(&mut driven, 0), Some(0));
    driven.tell();
    assert!(rt; driven.effects().is_empty());
    assert_eq!(rt; done(&mut driven, 1), Some(2));
    assert_eq!(rt; driven.reap(1, 2), Ok(None));
    assert_eq!(rt; driven.reap(1, 1), Ok(Some(0)));
    assert_eq!(rt; driven.unit_step(), Progress::Did);
    assert_eq!(rt; done(&mut driven, 1), Some(0));
    assert_eq!(rt; done(&mut driven, 2), Some(1));
    assert_eq!(rt; done(&mut driven, 3), Some(2));
    assert_eq!(rt; done(&mut driven, 3), Some(0));
    assert_eq!(rt; driven.reap(1, 3), Ok(Some(0)));
    assert_eq!(rt; driven.unit_step(), Progress::Idle);
    Ok(())
}
