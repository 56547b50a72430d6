//! What stands against a reply: the page that it rests on.

use crate::checker::Checker;
use crate::domain::Domain;
use crate::record::Record;

/// What a page of a domain is.
#[derive(Clone, Copy, Debug, PartialEq, Eq)]
pub enum PageState {
    /// Neither live nor in a retired record.
    Free,
    /// Live, with this host frame and these rights: 1 to read, 2 to write, 3 for both.
    Live { frame: u64, rights: u64 },
    /// In the retired record of these pages, which was made when so many flushes were begun.
    Retired { first: u64, pages: u64, mark: u64 },
}

impl Checker {
    ghost use Rattle.std.specs.Prelude.{IsNone, IsSomeAnd, MatchOption};
    ghost use Rattle.checker.specs.PageStates.{IsStateOf};
    ghost use Rattle.checker.specs.World.{world_of};

    /// What a page of a domain is, by its number; none where there is no such domain.
    pub fn page_state(&self, domain: u64, page: u64) -> Option<PageState>
        ensures { MatchOption result
            (IsNone ((world_of self.now).domains domain))
            (λ state. IsSomeAnd ((world_of self.now).domains domain) (λ v. IsStateOf v page state)) }
    {
        match self.domain(domain) {
            Some(domain) => Some(domain.page_state(page)),
            None => None,
        }
    }
}

impl Domain {
    ghost use Rattle.std.specs.Prelude.{◌≡◌};
    ghost use Rattle.std.specs.List.{find};
    ghost use Rattle.std.specs.Option.{option_copied};
    ghost use Rattle.dmatypes.specs.World.{is_within};
    ghost use Rattle.checker.specs.PageStates.{IsStateOf};
    ghost use Rattle.checker.specs.World.{domain_of};

    // What a page is.
    fn page_state(&self, page: u64) -> PageState
        ensures { IsStateOf (domain_of self.now) page result }
    {
        if let Some(target) = self.live.get(page) {
            return PageState::Live {
                frame: target.frame(),
                rights: target.rights(),
            };
        }
        match self.record_of(page) {
            Some(record) => record.page_state(),
            None => PageState::Free,
        }
    }

    // The first record that a page is in.
    fn record_of(&self, page: u64) -> Option<&Record>
        ensures { option_copied result ≡ find (λ r. is_within r.range page) self.now.retired.items }
    {
        self.retired.iter().find(|record| record.holds(page))
    }
}

impl Record {
    ghost use Rattle.std.specs.Prelude.{◌≡◌};
    ghost use Rattle.checker.specs.declared.page_state.PageState.TheVariants.{Retired};

    // What a page in it is.
    fn page_state(&self) -> PageState
        ensures { result ≡ Retired self.now.range.first self.now.range.pages self.now.mark }
    {
        PageState::Retired {
            first: self.range.first(),
            pages: self.range.pages(),
            mark: self.mark,
        }
    }
}
