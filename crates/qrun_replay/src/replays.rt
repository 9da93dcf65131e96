//! Replays: journals played again on a store of their own.
ghost use Rattle.std.specs.Prelude.{◌≡◌, ◌<◌, ◌≤◌, ◌++◌, ◌∷◌, [], ℕ, List, Err, IfOk, OnOk, length, map};
ghost use Rattle.std.specs.List.{range_with_len};
ghost use Rattle.std.specs.Bool.{Decides};
ghost use Rattle.qplain.specs.declared.bounds.TheConstants.{MAX_ENTRIES};
ghost use Rattle.qplain.specs.declared.line.Line.{Line};
ghost use Rattle.qplain.specs.Setups.{in_edition};
ghost use Rattle.qplain.specs.State.{start};
ghost use Rattle.qrun_replay.specs.declared.outcome.Outcome.{Outcome};
ghost use Rattle.qrun_replay.specs.declared.replay_fault.ReplayFault.TheVariants.{Mismatch};
ghost use Rattle.qrun_replay.specs.Runs.{IsLeftByWorkers};
ghost use Rattle.qrun_replay.specs.Replays.{GivesBack, IsFirstMismatch, IsMismatchAfter, IsReplayOf, answered_in};

use crate::outcome::outcome_of;
use crate::{Answered, Outcome, Places, ReplayFault};
use qplain::{Entry, Journal, NoMemory, Reply, Setup};
use qrules::Items;
use qstore_journaled::JournaledStore;
use std::alloc::Global;

/// Whether the two replies are the same.
fn are_same(one: &Reply, other: &Reply) -> bool
    ensures { Decides result (one.now ≡ other.now) }
{
    one == other
}

/// Makes the call of an entry again and journals it. Where the reply would be another than the entry's, that is
/// reported by its place, and nothing is done.
fn replay_entry(store: &mut JournaledStore, entry: &Entry) -> Result<(), ReplayFault>
    requires few { length store.old.journal < MAX_ENTRIES }
    ensures stays { (store.new.setting ≡ store.old.setting) × (store.new.begun ≡ store.old.begun) }
    ensures ok { OnOk result (store.new.journal ≡ store.old.journal ++ entry.now ∷ []) }
    ensures mismatch { (place : ℕ) → result ≡ Err (Mismatch place)
        → IsMismatchAfter store.old.begun store.old.journal entry.now place }
{
    let Ok(()) = store.ready(entry.worker, &entry.cred, entry.moment, &entry.call) else {
        return Err(ReplayFault::Memory);
    };
    if !are_same(&store.next().reply, &entry.reply) {
        return Err(ReplayFault::Mismatch(store.entries().len() as u64 + 1));
    }
    let _place = store.commit();
    Ok(())
}

/// Plays the entries again, one after the other, on a store that has just begun, up to the first whose reply is another
/// than the store's.
fn replay_all(store: &mut JournaledStore, entries: &[Entry]) -> Result<(), ReplayFault>
    requires fresh { store.old.journal ≡ [] }
    requires few { length entries.now ≤ MAX_ENTRIES }
    ensures stays { (store.new.setting ≡ store.old.setting) × (store.new.begun ≡ store.old.begun) }
    ensures ok { OnOk result (store.new.journal ≡ entries.now) }
    ensures mismatch { (place : ℕ) → result ≡ Err (Mismatch place)
        → IsFirstMismatch store.old.begun entries.now place }
{
    for entry in entries {
        replay_entry(store, entry)?;
    }
    Ok(())
}

/// What a worker was answered: the places of its own entries, and no others.
fn answered_of(alloc: Global, worker: u64, entries: &[Entry]) -> Result<Answered, NoMemory>
    requires few { length entries.now ≤ MAX_ENTRIES }
    ensures { IfOk result (λ answered. answered ≡ answered_in entries.now worker) }
{
    let mut places = Places::new(alloc, 0)?;
    let mut place = 0u64;
    for entry in entries {
        place += 1;
        if entry.worker == worker {
            places.add(place)?;
        }
    }
    Ok(Answered {
        worker,
        places: places.close(),
    })
}

/// What all workers were answered, from worker 1 on.
fn all_answered(alloc: Global, journal: &Journal) -> Result<Vec<Answered>, NoMemory>
    ensures { IfOk result (λ all. all.items
        ≡ map (answered_in journal.now.entries) (range_with_len 1 journal.now.workers)) }
{
    let workers = journal.workers();
    let entries = journal.entries();
    let mut all = Vec::new(alloc);
    for before in 0..workers {
        all.push(answered_of(alloc, before + 1, entries)?)?;
    }
    Ok(all)
}

/// Plays a journal again on a store that has just begun, whose setup is of its edition, one entry after the other,
/// whoever's they are.
///
/// Where the store answers each entry as the journal does, this is what is left: the journal as it was, and for each
/// worker, in order, its own entries as a transcript. Else the place of the first entry with another reply is told.
/// O(entries), and what each call takes; no data are copied. After an Err the store is given up.
pub fn replay_on(
    alloc: Global,
    mut store: JournaledStore,
    journal: &Journal,
) -> Result<Outcome, ReplayFault>
    requires fresh { store.journal ≡ [] }
    requires edition { store.setting.edition ≡ journal.now.edition }
    ensures replay { IfOk result (IsReplayOf store.setting store.begun journal.now) }
    ensures mismatch { (place : ℕ) → result ≡ Err (Mismatch place)
        → IsFirstMismatch store.begun journal.now.entries place }

    // The journal that workers have left from this beginning on gives back what they have left, but for the lines that
    // failed.
    ensures of_a_run { (lines : List (List Line)) (run : Outcome)
        → IsLeftByWorkers store.setting store.begun lines run → journal.now ≡ run.journal → GivesBack run result }
{
    replay_all(&mut store, journal.entries())?;
    let answered = all_answered(alloc, journal)?;
    let no_boards = Items::new(Vec::new(alloc));
    Ok(outcome_of(alloc, store, journal.workers(), answered, no_boards)?)
}

/// Plays a journal again, as `replay_on` does, on a new store of the setup in the journal's edition. The hashes of
/// names begin at `seed`, which may be any number; nothing of the outcome depends on it.
pub fn replay(
    alloc: Global,
    setup: Setup,
    journal: &Journal,
    seed: u64,
) -> Result<Outcome, ReplayFault>
    ensures replay { IfOk result (IsReplayOf (in_edition journal.now.edition setup)
        (start (in_edition journal.now.edition setup)) journal.now) }
    ensures mismatch { (place : ℕ) → result ≡ Err (Mismatch place)
        → IsFirstMismatch (start (in_edition journal.now.edition setup)) journal.now.entries place }

    // The journal that workers have left under this setup gives back what they have left, but for the lines that
    // failed.
    ensures of_a_run { (lines : List (List Line)) (run : Outcome) → IsLeftByWorkers setup (start setup) lines run
        → journal.now ≡ run.journal → GivesBack run result }
{
    let store = JournaledStore::new(alloc, setup.edition(journal.edition()), seed)?;
    replay_on(alloc, store, journal)
}
