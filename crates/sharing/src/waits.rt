//! Waits whose numbers pass 2^32, the end of what a wait writes.

ghost use Rattle.std.specs.Prelude.{◌<◌, ◌^◌};

use dmatypes::{Mode, Progress, Refusal, Width};
use engine::{State, Unmapped};
use std::process::Abort;
use std::test::Fail;

// The calls before the first that is tested, each of which sent a wait: three more waits have numbers below 2^32.
const EARLIER: u64 = (1 << 32) - 3;

#[test]
fn waits_pass_32_bits(rt: HostRuntime) -> Result<(), Fail> {
    let mut state = State::after(rt.alloc(), 64, EARLIER)?;
    flush_around(&rt, &mut state)
}

// Begins flushes with the waits 2^32 - 2, 2^32 - 1 and 2^32 and unmaps strictly with the next; each is done in its turn, and
// the first is still done at the end.
fn flush_around<R: Abort>(rt: &R, state: &mut State) -> Result<(), Fail>
    requires { state.old.calls < 2 ^ 41 }
{
    assert_eq!(rt; state.domain(Mode::Lazy, Width::W39), Ok(1));
    assert_eq!(rt; state.domain(Mode::Strict, Width::W39), Ok(2));
    assert_eq!(rt; state.map(1, 0x100, 1, 0, 3), Ok(0x1000));
    assert_eq!(rt; state.map(2, 0x100, 1, 0, 3), Ok(0x1000));
    assert_eq!(rt; state.begin(1), Ok(1));
    assert_eq!(rt;
        state.unmap(1, 0x1000, 1),
        Ok(Unmapped::Retired { released: 0 })
    );
    assert_eq!(rt; state.begin(1), Ok(2));
    assert_eq!(rt; state.reap(1, 1), Ok(None));
    assert_eq!(rt; state.unit_step(), Progress::Did);
    assert_eq!(rt; state.unit_step(), Progress::Did);
    assert_eq!(rt; state.unit_step(), Progress::Did);
    assert_eq!(rt; state.unit_step(), Progress::Did);
    assert_eq!(rt; state.reap(1, 2), Ok(Some(1)));
    assert_eq!(rt; state.begin(1), Ok(3));
    assert_eq!(rt; state.reap(1, 3), Ok(None));
    assert_eq!(rt; state.unmap(2, 0x1000, 1), Ok(Unmapped::Free));
    assert_eq!(rt; state.unit_step(), Progress::Idle);
    assert_eq!(rt; state.reap(1, 3), Ok(Some(0)));
    assert_eq!(rt; state.begin(2), Ok(1));
    assert_eq!(rt; state.reap(2, 1), Ok(None));
    assert_eq!(rt; state.unit_step(), Progress::Did);
    assert_eq!(rt; state.unit_step(), Progress::Did);
    assert_eq!(rt; state.reap(2, 1), Ok(Some(0)));
    assert_eq!(rt; state.reap(1, 1), Ok(Some(0)));
    assert_eq!(rt; state.reap(1, 1), Err(Refusal::BadTicket));
    Ok(())
}
