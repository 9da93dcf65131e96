//! The one history of a store: what is published of its journal. It exists in the proofs alone: what is shared of it
//! when a program runs is one word, its length.
ghost use Rattle.std.specs.Prelude.{◌≡◌, ◌<◌, ◌^◌, length, []};
ghost use mathlib.Core.List.{IsPrefix};
ghost use Rattle.qshare_history.specs.Histories.{recorded, with_entry};
ghost use Rattle.qshare_history.specs.Laws.{head_of};

use crate::Prefix;
use crate::law::Law;
use logbook::{Seen, Start, Word};
use qplain::Entry;
use std::marker::Model;
use std::sync::Wait;

/// Adds an entry. The first try does; no clause of `logbook` says that nobody else adds.
fn add_to<R: Wait>(rt: &R, prefix: &mut Prefix, head: &Word<Entry, u64, Law>, entry: &Entry)
    requires head { head.now ≡ head_of prefix.old.history }
    requires room { length prefix.old.entries < 2 ^ 62 }
    ensures { prefix.new ≡ with_entry prefix.old entry.now }
{
    for _ in rt.forever() {
        if prefix.add(head, entry) {
            return;
        }
    }
    unreachable!()
}

/// Adds each entry that the journal has more.
fn add_rest<R: Wait>(rt: &R, prefix: &mut Prefix, head: &Word<Entry, u64, Law>, journal: &[Entry])
    requires head { head.now ≡ head_of prefix.old.history }
    requires begins { IsPrefix prefix.old.entries journal.now }
    requires room { length journal.now < 2 ^ 62 }
    ensures { prefix.new ≡ recorded prefix.old.history journal.now }
{
    for at in prefix.len as usize..journal.len() {
        add_to(rt, prefix, head, &journal[at]);
    }
}

/// The whole history, for who alone adds to it. Contracts see it as they see a `Prefix`.
#[derive(Drop)]
pub struct History {
    head: Word<Entry, u64, Law>,
    prefix: Prefix,
}

impl Model for History {
    ghost use Rattle.std.specs.Prelude.{◌≡◌};
    ghost use Rattle.qshare_history.specs.Histories.{Recorded};
    ghost use Rattle.qshare_history.specs.Laws.{head_of};

    ghost Value = { Recorded };

    ghost view = { λ w. w.prefix };

    ghost invariant = { λ w. w.head ≡ head_of w.prefix.history };
}

impl History {
    /// A history that is empty. It takes no memory.
    pub fn new() -> History
        ensures { result.entries ≡ [] }
    {
        let (seen, mut first, _second) = Seen::open(Start::alone(), 0, 0);
        History {
            head: Word::tracked(0, &mut first),
            prefix: Prefix { len: 0, seen },
        }
    }

    /// All of it, as it was seen.
    pub fn prefix(&self) -> Prefix
        ensures { result ≡ self.now }
    {
        self.prefix.again()
    }

    /// Goes on to all of the journal, which begins with it. It takes no memory.
    pub fn extend_to<R: Wait>(&mut self, rt: &R, journal: &[Entry])
        requires begins { IsPrefix self.old.entries journal.now }
        requires room { length journal.now < 2 ^ 62 }
        ensures { self.new ≡ recorded self.old.history journal.now }
    {
        add_rest(rt, &mut self.prefix, &self.head, journal)
    }
}
