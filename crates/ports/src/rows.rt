//! The words, and the making of all who share them.

ghost use Rattle.std.specs.Prelude.{◌≡◌, ℕ, ◌+◌, ◌<◌, ◌≤◌, true, IfOk, vec_len, slice_get, Some};
ghost use Rattle.ports.specs.Seen.{ArePasses, ArePorts, new_desk, rows_of};
ghost use Rattle.ports.specs.Rule.{made_desk, newcomer as newcomer_of, one_more, caller_view};

use crate::desk::Desk;
use crate::port::{Pass, Port};
use crate::rule::{Newcomer, Place, Size, WORDS, Words};
use dmatypes::{DEVICES, MOST_SHARES};
use std::alloc::{AllocError, Global};
use std::marker::Model;

/// The words of each device, and the counter of events.
#[derive(Drop)]
pub struct Rows {
    pub(crate) words: Words,
}

impl Model for Rows {
    ghost use Rattle.std.specs.Prelude.{◌≡◌};
    ghost use Rattle.ports.specs.Seen.{Rows, rows_of};
    ghost use Rattle.ports.specs.declared.rule.TheConstants.{WORDS};

    ghost Value = { Rows };

    ghost view = { λ r. rows_of r.words.shared.table_id r.words.shared.key.frames };

    ghost invariant = { λ r. r.words.shared.table_id.words ≡ WORDS };
}

impl Rows {
    /// Empty words and an empty history, in a world with `frames` table frames; the desk, the ports of devices
    /// 0 to 15 in order, and `passes` passes. All belong together.
    pub fn new(
        alloc: Global,
        frames: u64,
        passes: u64,
    ) -> Result<(Rows, Desk, Vec<Port>, Vec<Pass>), AllocError>
        requires { (1 ≤ passes) × (passes ≤ MOST_SHARES) }
        ensures rows { IfOk result (λ r. r.0.frames ≡ frames) }
        ensures desk { IfOk result (λ r. r.1 ≡ new_desk r.0) }
        ensures ports { IfOk result (λ r. (vec_len r.2 ≡ DEVICES) × ArePorts r.0 r.2.items DEVICES) }
        ensures passes { IfOk result (λ r. (vec_len r.3 ≡ passes) × ArePasses r.0 r.3.items passes) }
    {
        let size = Size { frames, passes };
        let (words, mut seat) = Words::of_words(alloc, &[0; WORDS], &size)?;
        let ports = make_ports(alloc, &words, &mut seat)?;
        let passes = make_passes(alloc, &words, &mut seat, passes)?;
        Ok((Rows { words }, Desk { seat, filled: 0 }, ports, passes))
    }
}

// The desk makes the caller of the next number.
fn newcomer(words: &Words, desk: &mut Place, caller: u64) -> Place
    requires table { (desk.old.table_id ≡ words.now.shared.table_id) × (0 < words.now.shared.table_id.words) }
    requires caller { (desk.old.me.0.made ≡ caller) × (caller < DEVICES + words.now.shared.key.passes) × (desk.old.me.0.is_desk ≡ true) }
    ensures desk { (desk.new.table_id ≡ desk.old.table_id) × (desk.new.me.0 ≡ one_more desk.old.me.0) }
    ensures caller { (result.table_id ≡ words.now.shared.table_id) × (result.me.0 ≡ caller_view desk.old.me.0.frames (newcomer_of caller)) }
{
    let _ = caller;
    words.shared.split_seat::<Newcomer>(desk)
}

fn make_ports(alloc: Global, words: &Words, desk: &mut Place) -> Result<Vec<Port>, AllocError>
    requires table { (desk.old.table_id ≡ words.now.shared.table_id) × (0 < words.now.shared.table_id.words) }
    requires view { desk.old.me.0 ≡ made_desk words.now.shared.key.frames 0 }
    ensures desk { IfOk result (λ v. (desk.new.table_id ≡ desk.old.table_id)
        × (desk.new.me.0 ≡ made_desk words.now.shared.key.frames DEVICES)) }
    ensures ports { IfOk result (λ v. (vec_len v ≡ DEVICES)
        × ArePorts (rows_of words.now.shared.table_id words.now.shared.key.frames) v.items DEVICES) }
{
    let mut ports = Vec::new(alloc);
    for device in 0..DEVICES {
        let seat = newcomer(words, desk, device);
        ports.push(Port { device, seat })?;
    }
    Ok(ports)
}

fn make_passes(
    alloc: Global,
    words: &Words,
    desk: &mut Place,
    passes: u64,
) -> Result<Vec<Pass>, AllocError>
    requires table { (desk.old.table_id ≡ words.now.shared.table_id) × (0 < words.now.shared.table_id.words) }
    requires view { desk.old.me.0 ≡ made_desk words.now.shared.key.frames DEVICES }
    requires passes { (passes ≡ words.now.shared.key.passes) × (passes ≤ MOST_SHARES) }
    ensures desk { IfOk result (λ v. (desk.new.table_id ≡ desk.old.table_id)
        × (desk.new.me.0 ≡ made_desk words.now.shared.key.frames (DEVICES + passes))) }
    ensures passes { IfOk result (λ v. (vec_len v ≡ passes)
        × ArePasses (rows_of words.now.shared.table_id words.now.shared.key.frames) v.items passes) }
{
    let mut made = Vec::new(alloc);
    for number in 0..passes {
        let caller = DEVICES + number;
        let seat = newcomer(words, desk, caller);
        made.push(Pass { caller, seat })?;
    }
    Ok(made)
}
