//! A store that keeps a journal of a session's calls.
ghost use Rattle.std.specs.Prelude.{◌≡◌, ◌↔◌, ◌++◌, ◌∷◌, [], Some, Err, IfOk, length};
ghost use Rattle.qplain.specs.declared.bounds.TheConstants.{MAX_ENTRIES};
ghost use Rattle.qplain.specs.declared.call_fault.CallFault.TheVariants.{JournalFull};
ghost use Rattle.qplain.specs.declared.edition.Edition.TheVariants.{Two};
ghost use Rattle.qplain.specs.declared.entry.Entry.{Entry as EntryValue};
ghost use Rattle.qplain.specs.Journal.{entry_of, tally_of};
ghost use Rattle.qplain.specs.State.{start};
ghost use Rattle.qstore_journaled.specs.Journaled.{IsPlayed, IsSameJournaled};
ghost use Rattle.qstore_journaled.specs.Lines.{line_of};
ghost use Rattle.qstore_journaled.specs.Next.{IsNext};
ghost use Rattle.qsession.specs.Recorded.{CanRecord, IsOfSession};

use qplain::{Call, CallFault, Cred, Entry, NoMemory, Reply, Setup, Tallies};
use qstore::Store;
use qstore_journaled::JournaledStore;
use std::alloc::Global;
use std::marker::Model;

/// The worker whose calls a session's journal has: the only one.
pub(crate) const WORKER: u64 = 1;

/// A store of edition 2 that keeps a journal of its calls, all of worker 1.
///
/// Contracts see it as the journaled store that it is.
#[derive(Drop)]
pub struct Recorder {
    store: JournaledStore,
}

impl Model for Recorder {
    ghost use Rattle.qstore_journaled.specs.Journaled.{Journaled};

    ghost Value = { Journaled };

    ghost view = { λ a. a.store };

    ghost use Rattle.qsession.specs.Recorded.{IsOfSession};

    ghost invariant = { λ a. IsOfSession a.store };
}

impl Recorder {
    /// A new store of a setup, with an empty journal. An Err leaves nothing made.
    pub fn new(alloc: Global, setup: Setup, seed: u64) -> Result<Recorder, NoMemory>
        requires newest { setup.edition ≡ Two }
        ensures setting { IfOk result (λ r. r.setting ≡ setup) }
        ensures begun { IfOk result (λ r. r.begun ≡ start setup) }
        ensures journal { IfOk result (λ r. r.journal ≡ []) }
        ensures played { IfOk result IsPlayed }
    {
        Ok(Recorder {
            store: JournaledStore::new(alloc, setup, seed)?,
        })
    }

    /// The store.
    pub fn store(&self) -> &Store
        ensures { result.now ≡ self.now.stored }
    {
        self.store.store()
    }

    /// The journal, all of worker 1 and of edition 2, of which the store is what it leaves.
    pub fn entries(&self) -> &[Entry]
        ensures entries { result.now ≡ self.now.journal }
        ensures played { IsPlayed self.now }
        ensures session { IsOfSession self.now }
    {
        self.store.entries()
    }

    /// The journal's tally. O(1).
    pub fn tallies(&self) -> Tallies
        ensures { result ≡ tally_of self.now.journal }
    {
        self.store.tallies()
    }

    /// Decides a call, makes every growth that it needs, keeps it as the journal's next entry, and gives its reply;
    /// setup, beginning, state and journal stay as they were. Err is JournalFull, reported first, or OutOfMemory.
    #[inline(always)]
    pub fn ready(&mut self, cred: &Cred, moment: u64, call: &Call) -> Result<Reply, CallFault>
        ensures same { IsSameJournaled self.old self.new }
        ensures next { IfOk result (λ reply.
            IsNext self.new (entry_of WORKER (line_of cred.now moment call.now) reply)) }
        ensures full { (result ≡ Err JournalFull) ↔ (length self.old.journal ≡ MAX_ENTRIES) }
        ensures played { IsPlayed self.new }
    {
        self.store.ready(WORKER, cred, moment, call)?;
        match self.store.next().reply.copy() {
            Ok(reply) => Ok(reply),
            Err(_) => Err(CallFault::OutOfMemory),
        }
    }

    /// Makes the call that is ready, and journals it. It takes no memory and always succeeds.
    #[inline(always)]
    pub fn commit(&mut self)
        requires { CanRecord self.old }
        ensures setting { self.new.setting ≡ self.old.setting }
        ensures begun { self.new.begun ≡ self.old.begun }
        ensures journal { (e : EntryValue) → self.old.next ≡ Some e
            → self.new.journal ≡ self.old.journal ++ e ∷ [] }
        ensures played { IsPlayed self.new }
    {
        let _place = self.store.commit();
    }
}
