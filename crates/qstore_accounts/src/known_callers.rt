//! The callers that were found known last.
ghost use Rattle.std.specs.Prelude.{IfOk, IfSome};
ghost use Rattle.qstore_accounts.specs.Books.{Books};
ghost use Rattle.qstore_accounts.specs.Callers.{AreKnown, IsKnownAt};

use crate::claim::Slots;
use qplain::{Cred, NoMemory};
use std::alloc::Global;
use std::marker::Model;

/// How many places there are: callers whose user ids leave the same remainder share one.
const PLACES: u32 = 64;

/// A caller whose user and groups are declared, and where its own records stand.
#[derive(Drop)]
pub(crate) struct KnownCaller {
    pub(crate) cred: Cred,
    pub(crate) slots: Slots,
}

/// Callers that were looked up, the last one for each remainder of their user ids, so that they need not be again.
#[derive(Drop)]
pub(crate) struct KnownCallers {
    places: Vec<Option<KnownCaller>>,
}

impl Model for KnownCallers {
    ghost use Rattle.std.specs.Prelude.{List, Option};
    ghost use Rattle.qstore_accounts.specs.declared.known_callers.KnownCaller.{KnownCaller};

    ghost Value = { List (Option KnownCaller) };

    ghost view = { λ k. k.places.items };
}

/// Where a caller is kept.
fn place_of(cred: &Cred) -> usize {
    (cred.uid() % PLACES) as usize
}

impl KnownCallers {
    /// Nobody is known yet.
    pub(crate) fn new(alloc: Global) -> Result<KnownCallers, NoMemory>
        ensures { IfOk result (λ known. (b : Books) → AreKnown b known) }
    {
        let mut places = Vec::with_capacity(alloc, PLACES as usize)?;
        for _ in 0..PLACES {
            places.push(None)?;
        }
        Ok(KnownCallers { places })
    }

    /// Where the records of this caller stand, if it is known. O(its groups).
    #[inline(always)]
    pub(crate) fn find(&self, cred: &Cred) -> Option<Slots>
        ensures { IfSome result (λ slots. (b : Books) → AreKnown b self.now → IsKnownAt b cred.now slots) }
    {
        let Some(place) = self.places.get(place_of(cred)) else {
            return None;
        };
        let Some(known) = place else {
            return None;
        };
        if known.cred != *cred {
            return None;
        }
        Some(known.slots)
    }

    /// Keeps this caller, and forgets who had its place. It is not kept where its groups have 2^63 owners.
    pub(crate) fn keep(&mut self, cred: &Cred, slots: Slots)
        ensures { (b : Books) → AreKnown b self.old → IsKnownAt b cred.now slots → AreKnown b self.new }
    {
        let Ok(cred) = cred.copy() else {
            return;
        };
        let place = place_of(&cred);
        if place < self.places.len() {
            self.places[place] = Some(KnownCaller { cred, slots });
        }
    }
}
