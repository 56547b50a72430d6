//! What `Debug` shows of a pool of table frames and of an address space: sizes, and no contents.

use dmatypes::Width;
use iova::Space;
use std::test::Fail;
use tables::{Pool, Tree};

#[test]
fn sizes_of_a_pool(rt: HostRuntime) -> Result<(), Fail> {
    let alloc = rt.alloc();
    let mut pool = Pool::new(alloc, 16)?;
    assert_eq!(rt;
        format!(in alloc; "{pool:?}")?.as_str(),
        "Pool { frames: 16, free: 16 }"
    );
    let _root = Tree::new(&mut pool, Width::W39)?;
    assert_eq!(rt;
        format!(in alloc; "{pool:?}")?.as_str(),
        "Pool { frames: 16, free: 15 }"
    );
    Ok(())
}

#[test]
fn sizes_of_a_space(rt: HostRuntime) -> Result<(), Fail> {
    let alloc = rt.alloc();
    let mut space = Space::new(alloc, 15)?;
    assert_eq!(rt;
        format!(in alloc; "{space:?}")?.as_str(),
        "Space { last: 15, pieces: 1 }"
    );
    assert!(rt; space.take(2, 0).is_ok());
    assert_eq!(rt;
        format!(in alloc; "{space:?}")?.as_str(),
        "Space { last: 15, pieces: 2 }"
    );
    Ok(())
}
