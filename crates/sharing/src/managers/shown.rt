//! What `Debug` shows of a manager: how many shares it has.

ghost use Rattle.manager.specs.Kept.{IsNamedBy};

use super::{made, seed_of};
use manager::*;
use std::alloc::Global;
use std::marker::Brand;
use std::process::Abort;
use std::test::Fail;

#[test]
fn shares_of_a_manager(rt: HostRuntime) -> Result<(), Fail> {
    let seed = seed_of(rt.alloc(), 16, 10, 2)?;
    shown::<Brand, _>(&rt, rt.alloc(), seed)
}

fn shown<B: Owner, R: Abort>(rt: &R, alloc: Global, seed: Seed) -> Result<(), Fail>
    requires { IsNamedBy seed B.name B.parts B.shares B.room B.frames B.mode B.rows B.most B.handing }
{
    let (manager, _, _, _) = made::<B>(alloc, seed)?;
    assert_eq!(rt;
        format!(in alloc; "{manager:?}")?.as_str(),
        "Manager { shares: 2 }"
    );
    Ok(())
}
