// What is printed of a unit: the same as of one whose lists are plain and whose numbers are whole words.

use super::tests::{absent, context, large, small, table};
use super::*;
use crate::entries::CachedLeaf;
use std::alloc::{AllocError, Global};
use std::process::Abort;

// More leaves than a list has places for.
const FILLS: u64 = 65;

mod plain {
    use crate::entries::{CachedContext, CachedFault};
    use dmatypes::{Frame, Rights};
    use vtdbits::DomainId;

    #[derive(Clone, Copy, Debug, Drop)]
    pub(super) struct CachedLeaf {
        pub(super) domain: DomainId,
        pub(super) first: u64,
        pub(super) pages: u64,
        pub(super) frame: Frame,
        pub(super) rights: Rights,
    }

    #[derive(Clone, Copy, Debug, Drop)]
    pub(super) struct CachedNonLeaf {
        pub(super) domain: DomainId,
        pub(super) first: u64,
        pub(super) pages: u64,
        pub(super) level: u64,
        pub(super) frame: Frame,
    }

    #[derive(Debug, Drop)]
    pub(super) struct Unit {
        pub(super) leaves: Vec<CachedLeaf>,
        pub(super) non_leaves: [CachedNonLeaf; 1],
        pub(super) contexts: [CachedContext; 1],
        pub(super) faults: [CachedFault; 1],
        pub(super) caching: bool,
        pub(super) done: u64,
        pub(super) idle: u64,
    }
}

// The leaf of a fill, a large one now and then.
fn leaf_of(rt: &impl Abort, fill: u64) -> CachedLeaf {
    if fill % 8 == 3 {
        large(rt, 1, 512 * (fill % FILLS))
    } else {
        small(rt, 2, fill)
    }
}

fn plain_leaf(leaf: CachedLeaf) -> plain::CachedLeaf {
    plain::CachedLeaf {
        domain: leaf.domain,
        first: leaf.first,
        pages: u64::from(leaf.pages),
        frame: leaf.frame,
        rights: leaf.rights,
    }
}

// The list after the fills, which lost its first leaf.
fn marked_leaves(rt: &impl Abort) -> MarkedLeaves {
    let mut leaves = MarkedLeaves::new();
    for fill in 0..FILLS {
        leaves.remember(leaf_of(rt, fill), true, false);
    }
    leaves
}

fn plain_leaves(rt: &impl Abort, alloc: Global) -> Result<Vec<plain::CachedLeaf>, AllocError> {
    let mut leaves = Vec::new(alloc);
    for fill in 1..FILLS {
        leaves.push(plain_leaf(leaf_of(rt, fill)))?;
    }
    Ok(leaves)
}

fn filled_unit(rt: &impl Abort) -> Unit {
    let leaves = marked_leaves(rt);
    let mut non_leaves = ArrayVec::new();
    non_leaves.push(table(rt, 1, 0x200, 1));
    let mut contexts = ArrayVec::new();
    contexts.push(context(rt, 3, 1));
    let mut faults = ArrayVec::new();
    faults.push(absent(rt, 1, 0x300));
    // Its length says that it is within the list's capacity.
    let _ = leaves.as_slice().len();
    Unit {
        leaves,
        non_leaves,
        contexts,
        faults,
        caching: true,
        done: 2,
        idle: 1,
    }
}

fn plain_unit(rt: &impl Abort, alloc: Global) -> Result<plain::Unit, AllocError> {
    let below = table(rt, 1, 0x200, 1);
    Ok(plain::Unit {
        leaves: plain_leaves(rt, alloc)?,
        non_leaves: [plain::CachedNonLeaf {
            domain: below.domain,
            first: below.first,
            pages: below.pages,
            level: u64::from(below.level),
            frame: below.frame,
        }],
        contexts: [context(rt, 3, 1)],
        faults: [absent(rt, 1, 0x300)],
        caching: true,
        done: 2,
        idle: 1,
    })
}

#[test]
fn what_is_printed(rt: HostRuntime) -> Result<(), AllocError> {
    let alloc = rt.alloc();
    let unit = filled_unit(&rt);
    let plain = plain_unit(&rt, alloc)?;
    assert_eq!(rt;
        format!(in alloc; "{unit:?}")?,
        format!(in alloc; "{plain:?}")?
    );
    assert_eq!(rt;
        format!(in alloc; "{unit:#?}")?,
        format!(in alloc; "{plain:#?}")?
    );
    Ok(())
}
