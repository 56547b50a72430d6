//! The descriptors that wait are done, the oldest first.

ghost use Rattle.std.specs.Prelude.{◌+◌, ◌≤◌, length};
ghost use Rattle.dmatypes.specs.declared.limits.TheConstants.{CALLS_END};
ghost use Rattle.driven.specs.UpTo.{DoesOldest};

use engine::State;

/// Does so many of them.
pub(crate) fn do_oldest(state: &mut State, steps: u64)
    requires few { steps ≤ length state.old.iommu.ring.waiting }
    requires calls { state.old.calls + steps ≤ CALLS_END }
    ensures { DoesOldest state.old steps state.new }
{
    for _done in 0..steps {
        state.unit_step();
    }
}
