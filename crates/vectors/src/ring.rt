// What no contract of the ring says: words that differ, once and again around the page, and the text of an error.

use queue::{Ring, RingFull};
use std::process::Abort;
use std::test::Fail;
use vtdbits::Descriptor;

// Submits waits of these numbers, where each of them has room.
fn submit_waits(rt: &impl Abort, ring: &mut Ring, from: u32, to: u32) {
    for number in from..to {
        assert!(rt;
            ring.submit(Descriptor::Wait(number)).is_ok(),
            "wait {number}"
        );
    }
}

// Fetches them in this order.
fn fetch_waits(rt: &impl Abort, ring: &mut Ring, from: u32, to: u32) {
    for number in from..to {
        assert!(rt;
            ring.fetch() == Some(Descriptor::Wait(number)),
            "wait {number}"
        );
    }
}

#[test]
fn full_at_255(rt: HostRuntime) {
    let mut ring = Ring::new();
    submit_waits(&rt, &mut ring, 1, 256);
    assert_eq!(rt; ring.pending(), 255);
    assert_eq!(rt; ring.submit(Descriptor::IotlbGlobal), Err(RingFull));
    fetch_waits(&rt, &mut ring, 1, 256);
    assert_eq!(rt; ring.fetch(), None);
    assert_eq!(rt; ring.pending(), 0);
}

#[test]
fn around_the_page(rt: HostRuntime) {
    let mut ring = Ring::new();
    submit_waits(&rt, &mut ring, 0, 200);
    fetch_waits(&rt, &mut ring, 0, 200);
    submit_waits(&rt, &mut ring, 200, 455);
    assert_eq!(rt; ring.submit(Descriptor::Wait(455)), Err(RingFull));
    fetch_waits(&rt, &mut ring, 200, 300);
    submit_waits(&rt, &mut ring, 455, 555);
    assert_eq!(rt; ring.pending(), 255);
    fetch_waits(&rt, &mut ring, 300, 555);
    assert_eq!(rt; ring.fetch(), None);
}

#[test]
fn submitted_from_the_last_one_back(rt: HostRuntime) {
    let mut ring = Ring::new();
    assert_eq!(rt; ring.submitted(0), None);
    submit_waits(&rt, &mut ring, 0, 200);
    fetch_waits(&rt, &mut ring, 0, 150);
    submit_waits(&rt, &mut ring, 200, 300);
    for back in 0..256 {
        assert!(rt;
            ring.submitted(back) == Some(Descriptor::Wait(299 - back as u32)),
            "back {back}"
        );
    }
    assert_eq!(rt; ring.submitted(256), None);
}

#[test]
fn the_status(rt: HostRuntime) {
    let mut ring = Ring::new();
    assert!(rt; ring.status() == 0 && ring.wait_done(0) && !ring.wait_done(1));
    ring.complete(7);
    assert!(rt; ring.status() == 7 && ring.wait_done(7) && !ring.wait_done(8));
}

#[test]
fn full_in_words(rt: HostRuntime) -> Result<(), Fail> {
    assert_eq!(rt;
        format!(in rt.alloc(); "{RingFull}")?.as_str(),
        "the ring is full"
    );
    Ok(())
}
