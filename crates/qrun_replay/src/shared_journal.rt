//! Journals that have several owners.
ghost use Rattle.std.specs.Prelude.{◌≡◌, ◌<◌, ◌≤◌, ◌-◌, length, slice_index_or, IfOk};
ghost use Rattle.qplain.specs.declared.entry.Entry.{Entry as EntryValue};

use qplain::{Entry, Journal, NoMemory};
use std::alloc::Global;
use std::marker::Model;
use std::sync::Arc;

/// A journal that may have several owners. Nobody sees how many there are.
#[derive(Drop)]
pub struct SharedJournal {
    journal: Arc<Journal>,
}

impl Model for SharedJournal {
    ghost use Rattle.std.specs.Arc.{arc_value};
    ghost use Rattle.qplain.specs.Journals.{Written};

    ghost Value = { Written };

    ghost view = { λ s. arc_value s.journal };
}

impl SharedJournal {
    /// The journal, with one owner. No entry is copied; the memory is that of the count of owners.
    pub fn new(alloc: Global, journal: Journal) -> Result<Self, NoMemory>
        ensures { IfOk result (λ shared. shared ≡ journal) }
    {
        Ok(SharedJournal {
            journal: Arc::new(alloc, journal)?,
        })
    }

    /// The same journal for one more owner. No memory is taken: an Err says that there are 2^63 owners.
    pub fn copy(&self) -> Result<Self, NoMemory>
        ensures { IfOk result (λ copy. copy ≡ self.now) }
    {
        Ok(SharedJournal {
            journal: self.journal.clone()?,
        })
    }

    /// The journal.
    pub fn get(&self) -> &Journal
        ensures { result.now ≡ self.now }
    {
        &self.journal
    }

    /// The entry at a place, from 1.
    #[inline(always)]
    pub(crate) fn entry(&self, place: u64) -> &Entry
        requires { (0 < place) × (place ≤ length self.now.entries) }
        ensures { (default : EntryValue) → result.now ≡ slice_index_or self.now.entries (place - 1) default }
    {
        &self.get().entries()[place as usize - 1]
    }
}
