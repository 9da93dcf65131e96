//! A store with the journal of its calls.
ghost use Rattle.std.specs.Prelude.{◌≡◌, ◌<◌, ◌+◌, ◌++◌, ◌∷◌, ◌↔◌, [], length, Some, Err, IfOk, OnOk};
ghost use Rattle.std.specs.Bool.{Decides};
ghost use Rattle.qplain.specs.declared.bounds.TheConstants.{MAX_ENTRIES};
ghost use Rattle.qplain.specs.declared.call_fault.CallFault.TheVariants.{JournalFull};
ghost use Rattle.qplain.specs.declared.entry.Entry.{Entry as EntryValue};
ghost use Rattle.qplain.specs.Journal.{tally_of};
ghost use Rattle.qplain.specs.State.{start};
ghost use Rattle.qplain_laws.specs.Beginnings.{IsStateOf};
ghost use Rattle.qstore_journaled.specs.Journaled.{IsPlayed, IsSameJournaled};
ghost use Rattle.qstore_journaled.specs.Lines.{line_of};
ghost use Rattle.qstore_journaled.specs.Next.{HasNext, HasNextOf};
ghost use Rattle.qstore_journaled.specs.Taken.{AreItsParts};

use crate::ended::Ended;
use crate::entry::{entry_for, make_place};
use crate::origin::Origin;
use crate::typed_call::call_is_typed;
use qplain::{Call, CallFault, Cred, Entry, MAX_ENTRIES, NoMemory, Setup, Tallies};
use qstore::Store;
use std::alloc::Global;
use std::marker::Model;

/// A store with the journal of its calls, the journal's tally, and the setup and the state that it began with. It is
/// always what the journal leaves when one thread plays it from there on the plain machine, and each journaled reply is
/// that machine's.
///
/// Contracts see the setup, the state at the beginning, the store, the journal, and the entry that is ready, if one is.
#[derive(Drop)]
pub struct JournaledStore {
    setup: Setup,
    begun: Origin,
    store: Store,
    /// The journal, and behind it the entry that is ready.
    entries: Vec<Entry>,
    /// How many of them the journal has.
    len: usize,
    tallies: Tallies,
}

impl Model for JournaledStore {
    ghost use Rattle.qstore_journaled.specs.Journaled.{Journaled};

    ghost Value = { Journaled };

    ghost use Rattle.qstore_journaled.specs.KeptJournaled.{IsKept, journaled_of};

    ghost view = { journaled_of };

    ghost invariant = { IsKept };
}

impl JournaledStore {
    /// A new store of the setup, with an empty journal.
    ///
    /// The hashes of names begin at `seed`, which may be any number. An Err is out of memory; then nothing was made.
    pub fn new(alloc: Global, setup: Setup, seed: u64) -> Result<JournaledStore, NoMemory>
        ensures setting { IfOk result (λ j. j.setting ≡ setup) }
        ensures begun { IfOk result (λ j. j.begun ≡ start setup) }
        ensures journal { IfOk result (λ j. j.journal ≡ []) }
        ensures played { IfOk result IsPlayed }
    {
        let store = Store::new(alloc, setup.copy(alloc)?, seed)?;
        setup.always_lawful();
        Ok(JournaledStore::over(alloc, setup, store))
    }

    /// A store that stands already, with an empty journal: it begins with what it is. It takes no memory.
    ///
    /// The caller owes that a store of the setup can be in that state.
    pub fn over(alloc: Global, setup: Setup, store: Store) -> JournaledStore
        requires { IsStateOf setup store.state }
        ensures setting { result.setting ≡ setup }
        ensures begun { result.begun ≡ store.state }
        ensures store { result.stored.state ≡ store.state }
        ensures journal { result.journal ≡ [] }
        ensures played { IsPlayed result }
    {
        JournaledStore {
            begun: Origin::of(&store),
            setup,
            store,
            entries: Vec::new(alloc),
            len: 0,
            tallies: Tallies::new(),
        }
    }

    /// The setup that it began with.
    pub fn setup(&self) -> &Setup
        ensures { result.now ≡ self.now.setting }
    {
        &self.setup
    }

    /// The store.
    pub fn store(&self) -> &Store
        ensures store { result.now ≡ self.now.stored }
        ensures played { IsPlayed self.now }
    {
        &self.store
    }

    /// The journal, of which the store is what it leaves.
    pub fn entries(&self) -> &[Entry]
        ensures entries { result.now ≡ self.now.journal }
        ensures played { IsPlayed self.now }
    {
        &self.entries[..self.len]
    }

    /// The journal's tally. O(1).
    pub fn tallies(&self) -> Tallies
        ensures { result ≡ tally_of self.now.journal }
    {
        self.tallies
    }

    /// Decides a call, makes every growth that it needs, and keeps the entry by which the journal will grow, with the
    /// reply (`next`); setup, beginning, state and journal stay as they were.
    ///
    /// Err is JournalFull, reported first, where the journal has its 1,048,576 entries, or OutOfMemory. Moments,
    /// refusals and costs are those of `Store::ready`. What is ready is for `commit`, and may be left: the next `ready`
    /// takes its place.
    #[inline(always)]
    pub fn ready(
        &mut self,
        worker: u64,
        cred: &Cred,
        moment: u64,
        call: &Call,
    ) -> Result<(), CallFault>
        ensures same { IsSameJournaled self.old self.new }
        ensures next { OnOk result (HasNextOf worker (line_of cred.now moment call.now) self.new) }
        ensures full { (result ≡ Err JournalFull) ↔ (length self.old.journal ≡ MAX_ENTRIES) }
        ensures played { IsPlayed self.new }
    {
        if self.len >= MAX_ENTRIES {
            return Err(CallFault::JournalFull);
        }
        let Ok(()) = make_place(&mut self.entries, self.len) else {
            return Err(CallFault::OutOfMemory);
        };
        // A reply and an entry are large: a `?` would move them once more.
        let Ok(reply) = self.store.ready(cred, moment, call) else {
            return Err(CallFault::OutOfMemory);
        };
        let Ok(entry) = entry_for(worker, cred, moment, call, reply) else {
            return Err(CallFault::OutOfMemory);
        };
        self.entries.push_reserved(entry);
        Ok(())
    }

    /// The entry that is ready.
    pub fn next(&self) -> &Entry
        requires { HasNext self.now }
        ensures { self.now.next ≡ Some result.now }
    {
        match self.entries.get(self.len) {
            Some(entry) => entry,
            None => unreachable!(),
        }
    }

    /// Makes the call that is ready, and journals it at the place that it gives, from 1. It takes no memory and always
    /// succeeds.
    ///
    /// The caller owes that this store had no other `ready` or `commit` since.
    #[inline(always)]
    pub fn commit(&mut self) -> u64
        requires { HasNext self.old }
        ensures setting { self.new.setting ≡ self.old.setting }
        ensures begun { self.new.begun ≡ self.old.begun }
        ensures journal { (e : EntryValue) → self.old.next ≡ Some e
            → self.new.journal ≡ self.old.journal ++ e ∷ [] }
        ensures place { result ≡ length self.old.journal + 1 }
        ensures played { IsPlayed self.new }
    {
        let entry = self.next();
        call_is_typed(&entry.call);
        let change = entry.reply.change();
        self.store.commit();
        self.tallies = self.tallies.with_call(change);
        self.len += 1;
        self.len as u64
    }

    /// The setup, the store, the journal and its tally.
    pub fn into_parts(self) -> Ended
        ensures { AreItsParts self.setting self.begun self.journal result }
    {
        let JournaledStore {
            setup,
            store,
            entries: mut journal,
            len,
            tallies,
            ..
        } = self;
        journal.truncate(len);
        Ended {
            setup,
            store,
            journal,
            tallies,
        }
    }
}
