//! The rule of the table of words, and the kinds of step that it allows.

use crate::known::View;
use atomic_table::{Join, Play, Seat, Split, Table, TableRule};
use dmatypes::{DEVICES, Event};
use std::alloc::Global;
use std::marker::{Brand, PhantomData};

/// The words in a device's row (own).
pub(crate) const SLOTS: u64 = 16;

/// The words of all rows.
pub(crate) const ROW_WORDS: usize = (DEVICES * SLOTS) as usize;

/// The place of the counter, behind the words of all rows.
pub(crate) const COUNTER: usize = ROW_WORDS;

/// The words of the table: those of the rows, and the counter.
pub(crate) const WORDS: usize = ROW_WORDS + 1;

/// What a table is made with: how many table frames the world of its history has, and how many
/// passes there are.
#[derive(Clone, Copy)]
pub(crate) struct Size {
    pub(crate) frames: u64,
    pub(crate) passes: u64,
}

pub(crate) struct Law;

impl TableRule<(), View, Size> for Law {
    ghost use Rattle.dmatypes.specs.History.{IsLegal};
    ghost use Rattle.ports.specs.Lawful.{IsLawfulAfter};
    ghost use Rattle.ports.specs.Rule.{FollowsRule, made_desk};

    ghost holds = { λ size s. FollowsRule (IsLegal size.frames) (IsLawfulAfter size.frames) size.passes s };

    ghost first = { λ size. made_desk size.frames 0 };
}

pub(crate) type Words = Table<(), View, Size, Law, Global>;

/// A token of no bytes by which a port, a pass or the desk steps on the words.
pub(crate) type Place = Seat<(), View>;

/// A load of the counter by a caller.
pub(crate) struct Counts;

impl Play<(), View> for Counts {
    ghost use Rattle.dmatypes.specs.History.{IsLegal};
    ghost use Rattle.ports.specs.Lawful.{IsLawfulAfter};
    ghost use Rattle.ports.specs.Rule.{Counted};

    ghost then = { λ st m n later. Counted (IsLegal m.0.frames) (IsLawfulAfter m.0.frames) st m n later };
}

/// A load of a word by its port.
pub(crate) struct Looks;

impl Play<(), View> for Looks {
    ghost use Rattle.dmatypes.specs.History.{IsLegal};
    ghost use Rattle.ports.specs.Lawful.{IsLawfulAfter};
    ghost use Rattle.ports.specs.Rule.{Looked};

    ghost then = { λ st m n later. Looked (IsLegal m.0.frames) (IsLawfulAfter m.0.frames) st m n later };
}

/// A store of 0 by a port in its row.
pub(crate) struct Empties;

impl Play<(), View> for Empties {
    ghost use Rattle.ports.specs.Rule.{Emptied};

    ghost then = { Emptied };
}

/// A store of a word by the desk.
pub(crate) struct Fills;

impl Play<(), View> for Fills {
    ghost use Rattle.ports.specs.Rule.{Filled};

    ghost then = { Filled };
}

/// Names the event of one step, since a `Play` has no parameter of its own. Each append picks it.
pub(crate) trait Told {
    ghost use Rattle.dmatypes.specs.declared.reply.Event.{Event};

    ghost event: { Event };
}

impl Told for Brand {
    ghost use Rattle.dmatypes.specs.declared.call.Call.TheVariants as calls;
    ghost use Rattle.dmatypes.specs.declared.reply.Reply.TheVariants as replies;

    ghost event = { record { call = calls.Flush 0; reply = replies.Done } };
}

/// The addition to the counter by which an event enters the history.
pub(crate) struct Appends<E: Told> {
    of: PhantomData<E>,
}

impl<E: Told> Play<(), View> for Appends<E> {
    ghost use Rattle.ports.specs.Rule.{Appended};

    ghost then = { Appended E.event };
}

/// A load of the counter by the desk for its guest.
pub(crate) struct Hosts;

impl Play<(), View> for Hosts {
    ghost use Rattle.ports.specs.Rule.{Hosted};

    ghost then = { Hosted };
}

/// A new caller, who has seen nothing.
pub(crate) struct Newcomer;

impl Split<View> for Newcomer {
    ghost use Rattle.ports.specs.Rule.{newcomer, one_more, caller_view};

    ghost left = { one_more };

    ghost right = { λ v. caller_view v.frames (newcomer v.made) };
}

/// A caller's view leaves its seat.
pub(crate) struct Leaves;

impl Split<View> for Leaves {
    ghost use Rattle.ports.specs.Rule.{left_seat, caller_view};

    ghost left = { λ v. left_seat };

    ghost right = { λ v. caller_view v.frames v.mine };
}

/// The desk takes in a guest, and gives it back.
pub(crate) struct Visit;

impl Join<View> for Visit {
    ghost use Rattle.ports.specs.Rule.{left_seat, with_guest};

    ghost both = { λ v w. with_guest v w.mine };

    ghost spent = { left_seat };
}

impl Split<View> for Visit {
    ghost use Rattle.ports.specs.Rule.{nobody, caller_view, with_guest};

    ghost left = { λ v. with_guest v nobody };

    ghost right = { λ v. caller_view v.frames v.guest };
}
