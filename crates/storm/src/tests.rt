//! Storms of many sizes.

use crate::{OpenGate, storm};

mod calls;
mod gates;
mod turns;

#[test]
fn events_of_storms(rt: HostRuntime) {
    for (drivers, devices, calls, events) in [
        (1, 1, 1, 6),
        (2, 2, 10, 54),
        (1, 8, 3, 40),
        (8, 1, 300, 3003),
        (8, 8, 10_000, 170_010),
    ] {
        assert_eq!(rt;
            storm(&rt, rt.alloc(), drivers, devices, calls, &OpenGate),
            Ok(events)
        );
    }
}
