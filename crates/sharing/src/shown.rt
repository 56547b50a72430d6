//! What `Debug` shows of a state: how many domains there are, and how many calls were made.

use dmatypes::{Mode, Refusal, Width};
use engine::State;
use std::test::Fail;

#[test]
fn counts_of_a_state(rt: HostRuntime) -> Result<(), Fail> {
    let alloc = rt.alloc();
    let mut state = State::new(alloc, 16)?;
    assert_eq!(rt;
        format!(in alloc; "{state:?}")?.as_str(),
        "State { domains: 0, calls: 0 }"
    );
    assert_eq!(rt; state.domain(Mode::Strict, Width::W39), Ok(1));
    assert_eq!(rt; state.flush(2), Err(Refusal::NoDomain));
    assert_eq!(rt;
        format!(in alloc; "{state:?}")?.as_str(),
        "State { domains: 1, calls: 2 }"
    );
    Ok(())
}
