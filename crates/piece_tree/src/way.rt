//! Ways down a tree, and back up once what lies at their end has changed.

ghost use Rattle.std.specs.Prelude.{◌≡◌, ◌<◌, ◌≤◌, IfSome, IfNone, IsSome};
ghost use Rattle.slab.specs.Slab.{get};
ghost use Rattle.piece_tree.specs.Pieces.{piece_at};
ghost use Rattle.piece_tree.specs.declared.piece.TheConstants.{NUMBERS_END};
ghost use Rattle.piece_tree.specs.Tree.{IsWhole, KeepsCount, Shape, items};
ghost use Rattle.piece_tree.specs.Way.{Above, AreSteps, CanLift, CanMend, GoesBehind, IsAtHand, IsStepAbove, Mends, Reaches};

use crate::grafts::regraft;
use crate::node::Node;
use crate::top::{Key, Top};
use slab::Slab;

/// The greatest height of a tree, and so the most steps of a way down.
pub(crate) const MOST_HEIGHT: usize = 14;

/// A step down: a key, and whether the way goes on before it.
#[derive(Clone, Copy)]
pub(crate) struct Step {
    pub(crate) key: Key,
    pub(crate) before: bool,
}

/// Where no step is yet.
pub(crate) const NO_STEP: Step = Step {
    key: 0,
    before: false,
};

/// Where a piece lies: its key, and how many steps lead to it.
#[derive(Clone, Copy)]
pub(crate) struct Held {
    pub(crate) key: Key,
    pub(crate) depth: usize,
}

// Goes down to the highest piece that has one of the pages from a first to a last one: some piece has the first.
fn walk(nodes: &Slab<Node>, root: Top, first: u64, last: u64, way: &mut [Step; MOST_HEIGHT]) -> Held
    requires tree { (t : Shape) × IsWhole nodes.now root t × IsSome (piece_at (items t) first) }
    requires pages { (first ≤ last) × (last < NUMBERS_END) }
    ensures { (t : Shape) → IsWhole nodes.now root t → Reaches nodes.now way.new first last result t }
{
    let mut at = root.root();
    let mut depth = 0;
    while let Some(key) = at {
        let node = &nodes[key as usize];
        if node.piece.has_any(first, last) {
            return Held { key, depth };
        }
        let before = last < node.piece.first;
        // Field by field: a whole step is copied with what lies between its fields.
        let step = &mut way[depth];
        step.key = key;
        step.before = before;
        at = node.child(before).root();
        depth += 1;
    }
    unreachable!()
}

/// The highest piece that has one of the pages from a first to a last one, of which some piece has the first. It may be the one at hand.
pub(crate) fn reach(
    nodes: &Slab<Node>,
    root: Top,
    first: u64,
    last: u64,
    way: &mut [Step; MOST_HEIGHT],
    hand: Option<Held>,
) -> Held
    requires tree { (t : Shape) × IsWhole nodes.now root t × IsAtHand way.old hand t × IsSome (piece_at (items t) first) }
    requires pages { (first ≤ last) × (last < NUMBERS_END) }
    ensures { (t : Shape) → IsWhole nodes.now root t → IsAtHand way.old hand t → Reaches nodes.now way.new first last result t }
{
    if let Some(held) = hand {
        let piece = nodes[held.key as usize].piece;
        if piece.first <= first && last <= piece.last {
            return held;
        }
    }
    walk(nodes, root, first, last, way)
}

/// The last step that goes on before its key: how many steps lead to that key.
#[inline(always)]
pub(crate) fn step_above(way: &[Step; MOST_HEIGHT], steps: usize) -> Option<usize>
    requires { (path : Above) × AreSteps way.now steps path × (steps ≤ MOST_HEIGHT) }
    ensures few { IfSome result (λ depth. depth < steps) }
    ensures some { (path : Above) → AreSteps way.now steps path → IfSome result (λ depth. IsStepAbove way.now depth path) }
    ensures none { (path : Above) → AreSteps way.now steps path → IfNone result (GoesBehind path) }
{
    let mut depth = steps;
    while depth > 0 {
        depth -= 1;
        if way[depth].before {
            return Some(depth);
        }
    }
    None
}

/// Brings a tree up to date from the end of a way on, where another tree lies now. From the first key on that has one with its root and
/// height there, only what is longest changes.
#[inline(always)]
pub(crate) fn mend(
    nodes: &mut Slab<Node>,
    way: &[Step; MOST_HEIGHT],
    steps: usize,
    root: Top,
    end: Top,
) -> Top
    requires { (path : Above) × (t : Shape) × (new : Shape) × CanMend (get nodes.old) way.now steps root end path t new }
    ensures mended { (path : Above) (t new : Shape) → CanMend (get nodes.old) way.now steps root end path t new
        → Mends (get nodes.old) (get nodes.new) result path t new }
    ensures count { KeepsCount nodes.old nodes.new }
{
    let mut depth = steps;
    let mut top = end;
    while depth > 0 {
        let step = way[depth - 1];
        if nodes[step.key as usize].child(step.before).stands_as(top) {
            return lift(nodes, way, depth, root, top.longest());
        }
        top = regraft(nodes, step.before, step.key, top);
        depth -= 1;
    }
    top
}

/// Brings a tree up to date from the end of a way on, where the tree has the root and the height that it had, and what is longest there is
/// so long now. It goes up to the first key that shows just so much there already.
#[inline(always)]
pub(crate) fn lift(
    nodes: &mut Slab<Node>,
    way: &[Step; MOST_HEIGHT],
    steps: usize,
    root: Top,
    longest: u64,
) -> Top
    requires { (path : Above) × (t : Shape) × (new : Shape) × CanLift (get nodes.old) way.now steps root longest path t new }
    ensures lifted { (path : Above) (t new : Shape) → CanLift (get nodes.old) way.now steps root longest path t new
        → Mends (get nodes.old) (get nodes.new) result path t new }
    ensures count { KeepsCount nodes.old nodes.new }
{
    let mut depth = steps;
    let mut now = longest;
    while depth > 0 {
        depth -= 1;
        let step = way[depth];
        let node = &mut nodes[step.key as usize];
        let child = node.child_mut(step.before);
        if child.longest() == now {
            return root;
        }
        child.set_longest(now);
        now = node.longest();
    }
    let mut top = root;
    top.set_longest(now);
    top
}
