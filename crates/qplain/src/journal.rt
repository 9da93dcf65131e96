//! Journals: what workers called and what they were answered.
ghost use Rattle.std.specs.Prelude.{◌≡◌, ◌≤◌, length};
ghost use Rattle.qplain.specs.Editions.{max_entries_of};

use crate::{Edition, Entry};
use qrules::Items;
use std::marker::Model;

/// What happened to a store: its edition, how many workers there were, 1 to 16, and their entries in order, at most
/// 65,536 in edition 1 and 1,048,576 in edition 2. A stat of a directory tells of no bytes and no blocks, and in
/// edition 1 no entry names a project.
#[derive(Debug, PartialEq, Eq, Drop)]
pub struct Journal {
    edition: Edition,
    workers: u64,
    entries: Items<Entry>,
}

impl Model for Journal {
    ghost use Rattle.qplain.specs.Journals.{IsJournal, Written};

    ghost Value = { Written };

    ghost view = { λ j. record { edition = j.edition; workers = j.workers; entries = j.entries } };

    ghost invariant = { λ j. IsJournal (record { edition = j.edition; workers = j.workers; entries = j.entries }) };

    ghost inverse = { λ j. record { edition = j.edition; workers = j.workers; entries = j.entries } };
}

impl Journal {
    ghost use Rattle.qplain.specs.Journals.{IsJournal};

    /// A journal of 1 to 16 workers with no more entries than its edition lets it have, each of one of them. In edition
    /// 1 no entry names a project.
    pub fn new(edition: Edition, workers: u64, entries: Items<Entry>) -> Self
        requires { IsJournal (record { edition = edition; workers = workers; entries = entries }) }
        ensures { result ≡ record { edition = edition; workers = workers; entries = entries } }
    {
        Journal {
            edition,
            workers,
            entries,
        }
    }

    /// The edition of the rules by which it is played.
    pub fn edition(&self) -> Edition
        ensures { result ≡ self.now.edition }
    {
        self.edition
    }

    /// How many workers there were, from 1 to 16.
    pub fn workers(&self) -> u64
        ensures { result ≡ self.now.workers }
    {
        self.workers
    }

    /// The entries, in their order, at most as many as the edition lets a journal have.
    pub fn entries(&self) -> &[Entry]
        ensures entries { result.now ≡ self.now.entries }
        ensures few { length result.now ≤ max_entries_of self.now.edition }
        ensures lawful { IsJournal self.now }
    {
        self.entries.as_slice()
    }
}
