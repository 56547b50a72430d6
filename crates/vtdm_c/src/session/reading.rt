//! What is read of a session.

ghost use Rattle.vtdm_c.specs.Called.{state_of};
ghost use Rattle.vtdm_c.specs.Told.{FindsContext, FindsDevices, FindsDomainOf, FindsDomainTotals, FindsMode, FindsRoot, FindsSent};
ghost use Rattle.vtdm_c.specs.Told.{FindsTotals, FindsWaits, FindsWidth, FindsWord, FindsWords};

use super::Session;
use crate::answer::Answer;
use crate::told::{Context, DomainTotals, Sent, Totals, bits_of_width, number_of_mode};
use dmatypes::DEVICES;
use tables::TABLE_ENTRIES;

impl Session {
    pub(crate) fn totals(&self) -> Totals
        ensures { FindsTotals (state_of self.now) result }
    {
        Totals::of(self.driven.state().totals())
    }

    pub(crate) fn domain_totals(&self, domain: u64) -> DomainTotals
        ensures { FindsDomainTotals domain (state_of self.now) result }
    {
        DomainTotals::of(self.driven.state().domain_totals(domain))
    }

    pub(crate) fn domain_of(&self, device: u64) -> Answer
        ensures { FindsDomainOf device (state_of self.now) result }
    {
        if device >= DEVICES {
            return Answer::lone(Answer::NO_DEVICE);
        }
        Answer::found(self.driven.state().domain_of(device), Answer::NOT_ATTACHED)
    }

    pub(crate) fn devices_of(&self, domain: u64) -> Answer
        ensures { FindsDevices domain (state_of self.now) result }
    {
        match self.driven.state().mode_of(domain) {
            Some(_) => Answer::told(u64::from(self.driven.state().devices_of(domain))),
            None => Answer::lone(Answer::NO_DOMAIN),
        }
    }

    pub(crate) fn mode_of(&self, domain: u64) -> Answer
        ensures { FindsMode domain (state_of self.now) result }
    {
        match self.driven.state().mode_of(domain) {
            Some(mode) => Answer::told(number_of_mode(mode)),
            None => Answer::lone(Answer::NO_DOMAIN),
        }
    }

    pub(crate) fn width_of(&self, domain: u64) -> Answer
        ensures { FindsWidth domain (state_of self.now) result }
    {
        match self.driven.state().width_of(domain) {
            Some(width) => Answer::told(bits_of_width(width)),
            None => Answer::lone(Answer::NO_DOMAIN),
        }
    }

    pub(crate) fn root_of(&self, domain: u64) -> Answer
        ensures { FindsRoot domain (state_of self.now) result }
    {
        match self.driven.state().root_of(domain) {
            Some(root) => Answer::told(root.number()),
            None => Answer::lone(Answer::NO_DOMAIN),
        }
    }

    pub(crate) fn table_word(&self, frame: u64, index: u64) -> Answer
        ensures { FindsWord frame index self.now.base.first (state_of self.now) result }
    {
        let word = self.driven.state().table_word(frame, index);
        Answer::found(word.map(|word| self.base.word_of(word)), Answer::NO_WORD)
    }

    pub(crate) fn context(&self, device: u64) -> Context
        ensures { FindsContext device self.now.base.first (state_of self.now) result }
    {
        match self.driven.state().context_words(device) {
            Some(words) => Context::of(self.base.words_of(words)),
            None => Context::none(Answer::NO_DEVICE),
        }
    }

    /// Copies words of a table frame, from an index on, as many as there is room for. Its answer is a status; where that isn't 0,
    /// nothing is copied.
    pub(crate) fn words(&self, frame: u64, first: u64, to: &mut [u64]) -> u64
        ensures { FindsWords frame first to.old to.new self.now.base.first (state_of self.now) result }
    {
        let Some(words) = self.driven.state().table_words(frame) else {
            return Answer::NO_WORD;
        };
        if first > TABLE_ENTRIES || to.len() as u64 > TABLE_ENTRIES - first {
            return Answer::NO_WORD;
        }
        let start = first as usize;
        self.base.copy_words(&words[start..start + to.len()], to);
        Answer::OK
    }

    pub(crate) fn sent(&self, back: u64) -> Sent
        ensures { FindsSent back (state_of self.now) result }
    {
        match self.driven.state().sent(back) {
            Some(descriptor) => Sent::of(descriptor.encode()),
            None => Sent::none(Answer::NO_DESCRIPTOR),
        }
    }

    pub(crate) fn waits(&self) -> Answer
        ensures { FindsWaits (state_of self.now) result }
    {
        Answer::told(self.driven.state().waits())
    }
}
