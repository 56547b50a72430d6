//! Pieces that are carved out of a free piece, before the tree shows them.

ghost use Rattle.std.specs.Prelude.{◌≡◌, List, ℕ, [], ◌∷◌, ◌++◌, ◌+◌, ◌-◌, ◌%◌, ◌≤◌, ◌<◌, None, Some, length, slice_get, true, false};
ghost use Rattle.std.specs.Prelude.{◌↔◌, IfSome, IfNone, IfOk, OnErr, IsTrue, Err};
ghost use Rattle.iova.specs.Changes.{Takes};
ghost use Rattle.iova.specs.Pieces.{piece_of};
ghost use Rattle.dmatypes.specs.World.{IsIn};
ghost use Rattle.iova.specs.Carved.{AreCarved, CanCarve, FollowOn, IsAt, IsCarved, IsSought, LosesEnd, NoneBelow, free_of};
ghost use Rattle.iova.specs.Carved.{in_place_of, with_carved, with_pieces};
ghost use Rattle.piece_tree.specs.Pieces.{piece_at};
ghost use Rattle.iova.specs.Space.{IsFit, IsLowestFrom, IsSpace, IsTooMany, Space};
ghost use Rattle.iova.specs.Pieces.{pages_as};

use crate::chain::Chain;
use crate::ends::Ends;
use crate::fits::Found;
use crate::page_tree::PageTree;
use crate::space::{MOST_PIECES_TO_CUT, TakeError};
use piece_tree::{NUMBERS_END, PageState, Piece, round_up};

/// What was looked for: so many free pages, from a floor on, whose first is a multiple of the unit.
#[derive(Clone, Copy)]
pub(crate) struct Sought {
    pub(crate) floor: u64,
    pub(crate) pages: u64,
    pub(crate) unit: u64,
}

/// A free piece of the tree that pieces are carved out of: its pages, and what was sought when it was found, or a single page where it is
/// the lowest free piece. From the floor on, no such pages begin before it.
#[derive(Clone, Copy)]
pub(crate) struct Stock {
    pub(crate) pages: Ends,
    pub(crate) sought: Sought,
}

/// The pieces that were carved out of a free piece, in the order of their pages and each right behind the one before it, and that free
/// piece, if one is known. The tree has all of them as the free piece (own).
#[derive(Drop)]
pub(crate) struct Carved {
    pub(crate) chain: Chain,
    pub(crate) stock: Option<Stock>,
}

/// Where the free piece begins, and what is left of it before and behind the pieces that were carved out of it.
#[derive(Clone, Copy)]
pub(crate) struct Parts {
    pub(crate) first: u64,
    pub(crate) before: Option<Ends>,
    pub(crate) behind: Option<Ends>,
}

// The pages from a first to a last one, if there are some.
fn between(first: u64, last: u64) -> Option<Ends>
    ensures some { IfSome result (λ ends. (ends.first ≡ first) × (ends.last ≡ last) × (first ≤ last)) }
    ensures none { IfNone result (last < first) }
{
    if first <= last {
        return Some(Ends { first, last });
    }
    None
}

impl Carved {
    /// The pages from the first of the first piece to the last of the last one.
    #[inline(always)]
    pub(crate) fn ends(&self) -> Option<Ends>
        requires { (from : ℕ) × (end : ℕ) × FollowOn from self.now.chain end }
        ensures some { IfSome result (λ ends. FollowOn ends.first self.now.chain (ends.last + 1)) }
        ensures first { IfSome result (λ _. (p : Piece) × (ps : List Piece) × (self.now.chain ≡ p ∷ ps)) }
        ensures none { IfNone result (self.now.chain ≡ []) }
    {
        let pieces = self.chain.as_slice();
        let first = pieces.first()?;
        let last = pieces.last()?;
        Some(Ends {
            first: first.first,
            last: last.last,
        })
    }

    /// The lowest start of what is sought, where it is known to lie right behind the pieces, and some of the free piece is left behind it
    /// then.
    #[inline(always)]
    pub(crate) fn next_start(&self, sought: Sought) -> Option<u64>
        requires sought { IsSought sought }
        requires carved { (a : Space) × IsSpace a × IsCarved a.pieces self.now.chain self.now.stock }
        ensures lowest { (a : Space) → IsSpace a → IsCarved a.pieces self.now.chain self.now.stock
            → IfSome result (IsLowestFrom sought.floor (with_pieces self.now.chain a.pieces) sought.pages sought.unit) }
        ensures place { IfSome result (λ start. (stock : Stock) × (self.now.stock ≡ Some stock)
            × CanCarve self.now.chain stock start sought.pages) }
    {
        let stock = self.stock?;
        if sought.floor != stock.sought.floor
            || sought.pages < stock.sought.pages
            || sought.unit < stock.sought.unit
        {
            return None;
        }
        let low = stock.pages.first.max(sought.floor);
        let start = match self.ends() {
            None => round_up(low, sought.unit),
            // What is free before the pieces may have room by now.
            Some(ends) if has_room(low, ends.first, sought) => return None,
            Some(ends) => ends.last + 1,
        };
        if start & (sought.unit - 1) == 0 && start + sought.pages <= stock.pages.last {
            return Some(start);
        }
        None
    }

    /// Puts a live piece behind them, where one has room there.
    #[inline(always)]
    pub(crate) fn carve(&mut self, start: u64, pages: u64) -> bool
        requires some { 1 ≤ pages }
        requires narrow { start + pages < NUMBERS_END }
        ensures carved { result ≡ true
            → self.new.chain ≡ self.old.chain ++ piece_of (record { first = start; pages = pages }) PageState.Live ∷ [] }
        ensures unchanged { result ≡ false → self.new.chain ≡ self.old.chain }
        ensures stock { self.new.stock ≡ self.old.stock }
    {
        self.chain.push(Piece {
            first: start,
            last: start + pages - 1,
            state: PageState::Live,
        })
    }

    /// Where the piece lies that has some pages, if there is one: mostly it is the last one.
    #[inline(always)]
    pub(crate) fn position_of(&self, pages: Ends) -> Option<usize>
        requires { (from : ℕ) × (end : ℕ) × FollowOn from self.now.chain end }
        ensures { IfSome result (IsAt self.now.chain pages) }
    {
        if let Some(_) = self.chain.last_state(pages) {
            return Some(self.chain.len() - 1);
        }
        if self.chain.is_empty() {
            return None;
        }
        find(self.chain.as_slice(), pages)
    }

    /// Whether a live piece has some pages.
    #[inline(always)]
    pub(crate) fn is_live(&self, pages: Ends) -> bool
        requires { (from : ℕ) × (end : ℕ) × FollowOn from self.now.chain end }
        ensures { IsTrue result → IsIn (pages_as pages PageState.Live) self.now.chain }
    {
        match self.chain.last_state(pages) {
            Some(state) => matches!(state, PageState::Live),
            None => !self.chain.is_empty() && self.is_live_before(pages),
        }
    }

    // The same, where it is looked for.
    #[inline(never)]
    fn is_live_before(&self, pages: Ends) -> bool
        requires { (from : ℕ) × (end : ℕ) × FollowOn from self.now.chain end }
        ensures { IsTrue result → IsIn (pages_as pages PageState.Live) self.now.chain }
    {
        match find(self.chain.as_slice(), pages) {
            Some(place) => matches!(self.chain.as_slice()[place].state, PageState::Live),
            None => false,
        }
    }

    /// Lets the piece that has some pages come free, where it is the last one or the first.
    #[inline(always)]
    pub(crate) fn give_back(&mut self, pages: Ends) -> bool
        requires { (from : ℕ) × (end : ℕ) × FollowOn from self.old.chain end }
        ensures given { result ≡ true → LosesEnd self.old.chain self.new.chain pages }
        ensures unchanged { result ≡ false → self.new.chain ≡ self.old.chain }
        ensures stock { self.new.stock ≡ self.old.stock }
    {
        if self.chain.last_state(pages).is_some() {
            self.chain.lose_last();
            return true;
        }
        !self.chain.is_empty() && self.give_back_first(pages)
    }

    // The same, where it is the first.
    fn give_back_first(&mut self, pages: Ends) -> bool
        requires { 0 < length self.old.chain }
        ensures given { result ≡ true → LosesEnd self.old.chain self.new.chain pages }
        ensures unchanged { result ≡ false → self.new.chain ≡ self.old.chain }
        ensures stock { self.new.stock ≡ self.old.stock }
    {
        if is_at(self.chain.as_slice(), 0, pages) {
            self.chain.lose_first(1);
            return true;
        }
        false
    }

    /// What the pieces stand in the place of, and what is free before them and behind them.
    pub(crate) fn parts(&self) -> Parts
        requires { (a : Space) × IsSpace a × IsCarved a.pieces self.now.chain self.now.stock }
        ensures none { self.now.chain ≡ [] → (result.before ≡ None) × (result.behind ≡ None) }
        ensures some { (a : Space) (first : Piece) (rest : List Piece) → IsSpace a → IsCarved a.pieces self.now.chain self.now.stock
            → self.now.chain ≡ first ∷ rest
            → in_place_of result.first (free_of result.before ++ self.now.chain ++ free_of result.behind) a.pieces
            ≡ with_pieces self.now.chain a.pieces }
    {
        match (self.ends(), self.stock) {
            (Some(ends), Some(stock)) => Parts {
                first: stock.pages.first,
                before: between(stock.pages.first, ends.first - 1),
                behind: between(ends.last + 1, stock.pages.last),
            },
            _ => Parts {
                first: 0,
                before: None,
                behind: None,
            },
        }
    }

    /// How many pieces, from the first of them on, have just these pages, if some have.
    pub(crate) fn run_count(&self, pages: Ends) -> Option<usize>
        ensures first { IfSome result (λ _. (piece : Piece) × (slice_get self.now.chain 0 ≡ Some piece) × (piece.first ≡ pages.first)) }
        ensures last { IfSome result (λ count. (piece : Piece) × (slice_get self.now.chain (count - 1) ≡ Some piece)
            × (piece.last ≡ pages.last)) }
        ensures count { IfSome result (λ count. (0 < count) × (count ≤ length self.now.chain)) }
    {
        let pieces = self.chain.as_slice();
        let first = pieces.first()?;
        if first.first != pages.first {
            return None;
        }
        let before = pieces.partition_point(|piece| piece.last < pages.last);
        let last = pieces.get(before)?;
        if last.last == pages.last {
            return Some(before + 1);
        }
        None
    }
}

// Whether the piece at a place has some pages.
#[inline(always)]
fn is_at(pieces: &[Piece], place: usize, pages: Ends) -> bool
    requires { place < length pieces.now }
    ensures { IsTrue result → IsAt pieces.now pages place }
{
    let piece = pieces[place];
    piece.first == pages.first && piece.last == pages.last
}

// Where the piece lies that has some pages, if one before the last does.
#[inline(never)]
fn find(pieces: &[Piece], pages: Ends) -> Option<usize>
    requires { (from : ℕ) × (end : ℕ) × FollowOn from pieces.now end }
    ensures { IfSome result (IsAt pieces.now pages) }
{
    if pages.first < pieces.first()?.first || pieces.last()?.first <= pages.first {
        return None;
    }
    let place = pieces.partition_point(|piece| piece.last < pages.first);
    if place < pieces.len() && is_at(pieces, place, pages) {
        return Some(place);
    }
    None
}

// Whether so many pages have room between two pages, at a multiple of the unit.
#[inline(always)]
fn has_room(low: u64, end: u64, sought: Sought) -> bool
    requires sought { IsSought sought }
    requires low { low < NUMBERS_END }
    ensures room { IsTrue result → (n : ℕ) × (n % sought.unit ≡ 0) × (low ≤ n) × (n + sought.pages ≤ end) }
    ensures none { result ≡ false → (n : ℕ) → n % sought.unit ≡ 0 → low ≤ n → end < n + sought.pages }
{
    low + sought.pages <= end && round_up(low, sought.unit) + sought.pages <= end
}

/// The piece that a page lies in: mostly it is the last one.
#[inline(always)]
pub(crate) fn piece_at(pieces: &[Piece], page: u64) -> Option<Piece>
    requires { (from : ℕ) × (end : ℕ) × FollowOn from pieces.now end }
    ensures { result ≡ piece_at pieces.now page }
{
    let last = pieces.last()?;
    if last.last < page {
        return None;
    }
    if last.first <= page {
        return Some(*last);
    }
    search(pieces, page)
}

// The same, where it is looked for.
fn search(pieces: &[Piece], page: u64) -> Option<Piece>
    requires { (from : ℕ) × (end : ℕ) × FollowOn from pieces.now end }
    ensures { result ≡ piece_at pieces.now page }
{
    let at = pieces.partition_point(|piece| piece.last < page);
    let piece = pieces.get(at)?;
    if piece.first <= page {
        return Some(*piece);
    }
    None
}

/// How many pieces more there are than the tree shows.
pub(crate) fn more(carved: &Carved) -> usize
    requires { (a : Space) × IsSpace a × IsCarved a.pieces carved.now.chain carved.now.stock }
    ensures { (a : Space) → IsSpace a → IsCarved a.pieces carved.now.chain carved.now.stock
        → length (with_pieces carved.now.chain a.pieces) ≡ length a.pieces + result }
{
    match (carved.chain.as_slice().first(), carved.stock) {
        (Some(first), Some(stock)) => carved.chain.len()
            + usize::from(stock.pages.first < first.first),
        _ => 0,
    }
}

// Hands all pieces over to the tree, and forgets the free piece.
#[inline(never)]
fn hand_over_pieces(tree: &mut PageTree, carved: &mut Carved)
    requires space { IsSpace tree.old }
    requires carved { (stock : Stock) × AreCarved tree.old.pieces carved.old.chain stock }
    requires some { 0 < length carved.old.chain }
    ensures tree { tree.new ≡ with_carved carved.old.chain tree.old }
    ensures space { IsSpace tree.new }
    ensures chain { carved.new.chain ≡ [] }
    ensures stock { carved.new.stock ≡ None }
{
    let Some(pages) = carved.ends() else {
        unreachable!()
    };
    tree.put_row(carved.chain.as_slice(), pages);
    carved.chain.clear();
    carved.stock = None;
}

/// The same, where mostly there is none.
#[inline(always)]
pub(crate) fn hand_over(tree: &mut PageTree, carved: &mut Carved)
    requires space { IsSpace tree.old }
    requires carved { IsCarved tree.old.pieces carved.old.chain carved.old.stock }
    ensures tree { tree.new ≡ with_carved carved.old.chain tree.old }
    ensures space { IsSpace tree.new }
    ensures chain { carved.new.chain ≡ [] }
    ensures stock { carved.new.stock ≡ None }
{
    if !carved.chain.is_empty() {
        hand_over_pieces(tree, carved);
        return;
    }
    if carved.stock.is_some() {
        carved.stock = None;
    }
}

/// Makes the lowest pages that are sought one live piece, where none is carved: the first of them.
#[inline(always)]
pub(crate) fn take(
    tree: &mut PageTree,
    carved: &mut Carved,
    sought: Sought,
) -> Result<u64, TakeError>
    requires sought { IsSought sought }
    requires space { IsSpace tree.old }
    requires chain { carved.old.chain ≡ [] }
    requires stock { carved.old.stock ≡ None }
    ensures lowest { IfOk result (IsLowestFrom sought.floor tree.old.pieces sought.pages sought.unit) }
    ensures taken { IfOk result (λ start.
        Takes tree.old (with_carved carved.new.chain tree.new) (record { first = start; pages = sought.pages })) }
    ensures space { IsSpace tree.new }
    ensures carved { IsCarved tree.new.pieces carved.new.chain carved.new.stock }
    ensures no_range { (result ≡ Err TakeError.NoRange)
        ↔ ((start : ℕ) → IsFit tree.old.pieces sought.pages sought.unit start → ⊥) }
    ensures too_many { (result ≡ Err TakeError.TooManyPieces)
        ↔ ((start : ℕ) × IsLowestFrom sought.floor tree.old.pieces sought.pages sought.unit start
        × IsTooMany tree.old.pieces (record { first = start; pages = sought.pages })) }
    ensures unchanged { OnErr result (with_carved carved.new.chain tree.new ≡ tree.old) }
{
    if sought.floor == 1 {
        if let Some(start) = tree.take_freed(sought.pages, sought.unit) {
            return Ok(start);
        }
    }
    take_found(tree, carved, sought)
}

// The same, where the pages are looked for.
fn take_found(tree: &mut PageTree, carved: &mut Carved, sought: Sought) -> Result<u64, TakeError>
    requires sought { IsSought sought }
    requires space { IsSpace tree.old }
    requires chain { carved.old.chain ≡ [] }
    requires stock { carved.old.stock ≡ None }
    ensures lowest { IfOk result (IsLowestFrom sought.floor tree.old.pieces sought.pages sought.unit) }
    ensures taken { IfOk result (λ start.
        Takes tree.old (with_carved carved.new.chain tree.new) (record { first = start; pages = sought.pages })) }
    ensures space { IsSpace tree.new }
    ensures carved { IsCarved tree.new.pieces carved.new.chain carved.new.stock }
    ensures no_range { (result ≡ Err TakeError.NoRange)
        ↔ ((start : ℕ) → IsFit tree.old.pieces sought.pages sought.unit start → ⊥) }
    ensures too_many { (result ≡ Err TakeError.TooManyPieces)
        ↔ ((start : ℕ) × IsLowestFrom sought.floor tree.old.pieces sought.pages sought.unit start
        × IsTooMany tree.old.pieces (record { first = start; pages = sought.pages })) }
    ensures unchanged { OnErr result (with_carved carved.new.chain tree.new ≡ tree.old) }
{
    let Some(found) = tree.find(sought) else {
        return Err(TakeError::NoRange);
    };
    if is_too_many(tree, sought, found) {
        return Err(TakeError::TooManyPieces);
    }
    put_found(tree, carved, sought, found);
    Ok(found.start)
}

// Whether the pages that were found cut a piece, and there are too many for that.
#[inline(always)]
fn is_too_many(tree: &PageTree, sought: Sought, found: Found) -> bool
    requires sought { IsSought sought }
    requires space { IsSpace tree.now }
    requires there { IsIn (pages_as found.pages PageState.Free) tree.now.pieces }
    requires inside { (found.pages.first ≤ found.start) × (found.start + sought.pages ≤ found.pages.last + 1) }
    ensures { IsTrue result ↔ IsTooMany tree.now.pieces (record { first = found.start; pages = sought.pages }) }
{
    if tree.most_pieces() <= MOST_PIECES_TO_CUT || tree.piece_count() <= MOST_PIECES_TO_CUT {
        return false;
    }
    let pages = found.pages;
    if pages.first < found.start {
        return true;
    }
    found.start + sought.pages <= pages.last
}

// Makes the lowest pages, which were found, one live piece: what is left behind them may be taken next.
fn put_found(tree: &mut PageTree, carved: &mut Carved, sought: Sought, found: Found)
    requires sought { IsSought sought }
    requires space { IsSpace tree.old }
    requires chain { carved.old.chain ≡ [] }
    requires stock { carved.old.stock ≡ None }
    requires lowest { IsLowestFrom sought.floor tree.old.pieces sought.pages sought.unit found.start }
    requires there { IsIn (pages_as found.pages PageState.Free) tree.old.pieces }
    requires inside { (found.pages.first ≤ found.start) × (found.start + sought.pages ≤ found.pages.last + 1) }
    requires few { IsTooMany tree.old.pieces (record { first = found.start; pages = sought.pages }) → ⊥ }
    ensures taken { Takes tree.old (with_carved carved.new.chain tree.new) (record { first = found.start; pages = sought.pages }) }
    ensures space { IsSpace tree.new }
    ensures carved { IsCarved tree.new.pieces carved.new.chain carved.new.stock }
{
    let start = found.start;
    let pages = found.pages;
    // Where the same length doesn't fit behind them, with a page to spare, what is taken next mostly lies elsewhere: then the tree shows
    // them at once.
    let is_short = pages.last - start < 2 * sought.pages;
    if start < sought.floor || is_short || !carved.carve(start, sought.pages) {
        tree.put(Piece {
            first: start,
            last: start + sought.pages - 1,
            state: PageState::Live,
        });
        return;
    }
    let sought = least_sought(tree, sought, pages.first);
    carved.stock = Some(Stock { pages, sought });
}

// What of nothing begins before a free piece: any page, where it is known to be the lowest, else what was sought.
fn least_sought(tree: &PageTree, sought: Sought, first: u64) -> Sought
    requires sought { IsSought sought }
    requires space { IsSpace tree.now }
    requires none { NoneBelow sought first tree.now.pieces }
    ensures sought { IsSought result }
    ensures floor { result.floor ≡ sought.floor }
    ensures none { NoneBelow result first tree.now.pieces }
{
    if sought.floor == 1 && tree.is_lowest(first) {
        return Sought {
            floor: 1,
            pages: 1,
            unit: 1,
        };
    }
    sought
}
