//! Where a request comes to by what was mapped at its page.

ghost use Rattle.std.specs.Prelude.{◌≡◌, MatchOption, [], ◌∷◌};
ghost use Rattle.dmatypes.specs.declared.reply.Reply.TheVariants.{Host};
ghost use Rattle.checker.specs.Reaching.{hosts_by, reaches_by};

use crate::target::Target;
use dmatypes::{Access, Reply};

/// The host address that a request comes to by a target, where that is permitted.
pub(crate) fn host_by(target: Option<Target>, address: u64, access: Access) -> Option<u64>
    ensures { MatchOption result (hosts_by address access target ≡ []) (λ host. hosts_by address access target ≡ Host host ∷ []) }
{
    let target = target?;
    if target.permits(access) {
        Some(target.host(address))
    } else {
        None
    }
}

/// Whether a reply is that host address.
pub(crate) fn reaches_by(target: Option<Target>, address: u64, access: Access, reply: Reply) -> bool
    ensures { result ≡ reaches_by address access reply target }
{
    match target {
        None => false,
        Some(target) => target.permits(access) && target.is_host(address, reply),
    }
}
