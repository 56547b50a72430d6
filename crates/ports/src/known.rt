//! What the seats of the table know. No value of these types is made: they are seen by contracts alone.

use dmatypes::Event;
use std::collections::LinkedList;

/// A step that a port, a pass or the desk made: its place, and the value that was loaded or stored.
pub enum OwnStep {
    Loaded(u64, u64),
    Stored(u64, u64),
}

/// Who a caller is, the history that it has learnt of, and its own steps.
pub struct Known {
    pub who: u64,
    pub seen: LinkedList<Event>,
    pub did: LinkedList<OwnStep>,
}

/// The view of a seat: a port's, a pass's or the desk's. The desk has seen the whole history, knows its own
/// stores, how many callers were made and which word it last stored at each place, and may have a caller as
/// its guest.
pub struct View {
    pub frames: u64,
    pub is_desk: bool,
    pub made: u64,
    pub mine: Known,
    pub guest: Known,
    pub last: LinkedList<u64>,
}
