//! The right to call a manager.

ghost use Rattle.std.specs.Prelude.{◌≡◌, ◌+◌, ◌≤◌, ◌<◌, [], All, IfOk, sum_by, vec_len};
ghost use mathlib.Core.List.{IsPrefix};
ghost use Rattle.manager.specs.Kept.{AllSaw, Share, new_share};

use crate::owner::Owner;
use ports::{Desk, Pass, Rows};
use std::alloc::{AllocError, Global};
use std::marker::Model;
use std::sync::ledger;

/// The right to call, how many calls were made by it, and what it has seen of the history.
#[derive(Drop)]
pub struct Share<B: Owner> {
    pub(crate) calls: u64,
    pub(crate) part: ledger::Share<B>,
    pub(crate) pass: Pass,
}

impl<B: Owner> Model for Share<B> {
    ghost use Rattle.std.specs.Prelude.{◌≡◌};
    ghost use Rattle.manager.specs.Kept.{Share};

    ghost Value = { Share };

    ghost view = { λ s. record { calls = s.calls; seen = s.pass.seen } };

    ghost invariant = { λ s. (s.part.parts ≡ 1) × (s.part.amount ≡ s.calls) × (s.pass.rows ≡ B.rows) };
}

impl<B: Owner> Share<B> {
    /// How many calls were made by it; a call that was answered `HistoryFull` isn't counted.
    pub fn calls(&self) -> u64
        ensures { result ≡ self.now.calls }
    {
        self.calls
    }
}

/// One share for each part of a ledger, with a pass each.
pub(crate) fn shares_of<B: Owner>(
    alloc: Global,
    whole: ledger::Share<B>,
    passes: Vec<Pass>,
) -> Result<Vec<Share<B>>, AllocError>
    requires parts { whole.parts ≡ vec_len passes }
    requires amount { whole.amount ≡ 0 }
    requires some { 1 ≤ vec_len passes }
    requires passes { All (λ pass. (pass.rows ≡ B.rows) × (pass.seen ≡ [])) passes.items }
    ensures shares { IfOk result (λ v. vec_len v ≡ vec_len passes) }
    ensures fresh { IfOk result (λ v. All (λ s. s ≡ new_share) v.items) }
{
    let mut rest = whole;
    let mut passes = passes;
    let mut shares = Vec::new(alloc);
    while let Some(pass) = passes.pop() {
        let part = rest.split_off(1, 0);
        shares.push(Share {
            calls: 0,
            part,
            pass,
        })?;
    }
    Ok(shares)
}

/// The parts of all shares in one. Each of them has then seen the desk's history, and had seen a beginning of it.
pub(crate) fn merged<B: Owner>(
    desk: &mut Desk,
    rows: &Rows,
    shares: Vec<Share<B>>,
) -> ledger::Share<B>
    requires some { 0 < vec_len shares }
    requires rows { (desk.old.rows ≡ rows.now) × (rows.now ≡ B.rows) }
    ensures same { desk.new ≡ desk.old }
    ensures parts { result.parts ≡ vec_len shares }
    ensures amount { result.amount ≡ sum_by (λ s. s.calls) shares.items }
    ensures most { result.parts ≤ B.parts }
    ensures saw { AllSaw desk.old.history shares.items }
{
    let mut shares = shares;
    let Some(first) = shares.pop() else {
        unreachable!()
    };
    let mut part = told(desk, rows, first);
    let mut whole = part.empty();
    whole.merge(part);
    while let Some(share) = shares.pop() {
        whole.merge(told(desk, rows, share));
    }
    whole
}

// The part of a share whose pass learns the desk's history.
fn told<B: Owner>(desk: &mut Desk, rows: &Rows, share: Share<B>) -> ledger::Share<B>
    requires { (desk.old.rows ≡ rows.now) × (rows.now ≡ B.rows) }
    ensures same { desk.new ≡ desk.old }
    ensures part { (result.parts ≡ 1) × (result.amount ≡ share.calls) }
    ensures saw { IsPrefix share.seen desk.old.history }
{
    let Share {
        calls: _,
        part,
        mut pass,
    } = share;
    desk.tell(rows, &mut pass);
    part
}
