//! What a request is answered.

ghost use Rattle.dmatypes.specs.Rights.{AreRights, bits_of};

use dmatypes::{Frame, Rights};

/// Where a request goes: the byte address in host memory, the host frame of its page and the page's rights, of which there
/// is at least one.
#[derive(Clone, Copy, Debug, PartialEq, Eq)]
pub struct Hit {
    pub host: u64,
    pub frame: Frame,
    pub rights: Rights,
    ghost some_right: { AreRights (bits_of rights) },
}
