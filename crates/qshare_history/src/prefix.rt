//! A prefix of the one history of a store, which was seen. It exists in the proofs alone, but for its length.
ghost use Rattle.std.specs.Prelude.{◌≡◌, ◌<◌, ◌^◌, length, MatchBool};
ghost use Rattle.std.specs.Bool.{Decides};
ghost use mathlib.Core.List.{IsPrefix};
ghost use Rattle.qshare_history.specs.Laws.{head_of};
ghost use Rattle.qshare_history.specs.Histories.{with_entry};

use crate::law::{Add, Law, Nothing};
use logbook::{Offer, Seen, Word};
use qplain::Entry;
use std::marker::Model;

/// A prefix of a history, which was seen. It has no bytes but its length. Contracts see which history it is, and the
/// entries.
#[derive(Drop)]
pub struct Prefix {
    pub(crate) len: u64,
    pub(crate) seen: Seen<Entry, u64, Law>,
}

impl Model for Prefix {
    ghost use Rattle.std.specs.Prelude.{◌≡◌, length};
    ghost use Rattle.qshare_history.specs.Histories.{Recorded};

    ghost Value = { Recorded };

    ghost view = { λ f. record { history = f.seen.book; entries = f.seen.log } };

    ghost invariant = { λ f. f.len ≡ length f.seen.log };
}

impl Prefix {
    /// A copy.
    pub fn again(&self) -> Prefix
        ensures { result ≡ self.now }
    {
        Prefix {
            len: self.len,
            seen: self.seen.again(),
        }
    }

    /// Whether it begins with all of another.
    ///
    /// Both are prefixes of one history, so it is enough that it is not shorter.
    pub fn begins_with(&self, other: &Prefix) -> bool
        requires { other.now.history ≡ self.now.history }
        ensures { Decides result (IsPrefix other.now.entries self.now.entries) }
    {
        let mut both = self.seen.again();
        both.learn(&other.seen);
        other.len <= self.len
    }

    /// Adds an entry, if nobody else has.
    pub(crate) fn add(&mut self, head: &Word<Entry, u64, Law>, entry: &Entry) -> bool
        requires head { head.now ≡ head_of self.old.history }
        requires room { length self.old.entries < 2 ^ 62 }
        ensures { MatchBool result (self.new ≡ with_entry self.old entry.now) (self.new ≡ self.old) }
    {
        let len = self.len;
        let mut seen = self.seen.again();
        let mut offer: Offer<Entry, u64, Law, Nothing> = seen.plain::<Nothing, Entry, Add>(entry);
        let mut pen = seen.no_pen();
        let found = head.compare_exchange::<Add, Nothing>(
            len,
            len + 1,
            &mut seen,
            &mut offer,
            &mut pen,
        );
        if found != len {
            return false;
        }
        self.len = len + 1;
        self.seen = seen;
        true
    }
}
