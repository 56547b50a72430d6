//! What all answers come to.

use crate::traffic::Answered;
use dmatypes::{Progress, Reply};

/// A number that tells other answers, or others in another order.
#[derive(Clone, Copy, Debug, PartialEq, Eq)]
pub(crate) struct Digest(u64);

impl Digest {
    pub(crate) fn new() -> Digest {
        Digest(0xcbf2_9ce4_8422_2325)
    }

    /// Takes a number in.
    #[inline]
    pub(crate) fn add(&mut self, number: u64) {
        self.0 = (self.0 ^ number).wrapping_mul(0x0000_0100_0000_01b3);
        self.0 ^= self.0 >> 29;
    }

    /// Takes a reply in.
    pub(crate) fn add_reply(&mut self, reply: Reply) {
        let (kind, number) = match reply {
            Reply::Made(domain) => (1, domain),
            Reply::Done => (2, 0),
            Reply::Mapped(address) => (3, address),
            Reply::Unmapped(released) => (4, released),
            Reply::Flushed(released) => (5, released),
            Reply::Ticket { domain, number } => (6, number.wrapping_mul(16).wrapping_add(domain)),
            Reply::Stepped(progress) => (7, u64::from(progress == Progress::Did)),
            Reply::Reaped(released) => (8, released),
            Reply::Pending => (9, 0),
            Reply::Host(address) => (10, address),
            Reply::Faulted(fault) => (11, fault.number()),
            Reply::Refused(refusal) => (12, refusal.number()),
        };
        self.add(kind);
        self.add(number);
    }

    pub(crate) fn value(self) -> u64 {
        self.0
    }
}

/// What the traffic has to know of a reply.
pub(crate) fn answered(reply: Reply) -> Answered {
    match reply {
        Reply::Mapped(address) => Answered::Mapped(address),
        Reply::Refused(_) => Answered::Refused,
        _ => Answered::Done,
    }
}
