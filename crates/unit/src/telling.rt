//! What a request gets of its page's translation.

ghost use Rattle.std.specs.Prelude.{◌≡◌};
ghost use Rattle.dmatypes.specs.Allows.{fault_of};
ghost use Rattle.unit.specs.Answers.{Tells};

use crate::hit::Hit;
use dmatypes::{Access, Fault, PAGE_BYTES};
use vtdbits::Translation;

/// The host address, where there is a translation with the right, else the fault.
pub(crate) fn tell(to: Option<Translation>, address: u64, access: Access) -> Result<Hit, Fault>
    ensures { Tells to address access result }
{
    let Some(to) = to else {
        return Err(fault_of(access));
    };
    let rights = to.rights();
    if !rights.permits(access) {
        return Err(fault_of(access));
    }
    let frame = to.frame();
    Ok(Hit {
        host: PAGE_BYTES * frame.number() + address % PAGE_BYTES,
        frame,
        rights,
    })
}

// The fault of an access that isn't permitted.
fn fault_of(access: Access) -> Fault
    ensures { result ≡ fault_of access }
{
    match access {
        Access::Read => Fault::Read,
        Access::Write => Fault::Write,
    }
}
