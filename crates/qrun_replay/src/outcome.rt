ghost use Rattle.std.specs.Prelude.{◌≡◌, ◌≤◌, length, map, All, IfOk};
ghost use Rattle.qplain.specs.Editions.{max_entries_of};
ghost use Rattle.qplain.specs.Journals.{IsWorkers};
ghost use Rattle.qrun_replay.specs.Left.{AreOfEdition, IsLeftOf, IsOneOf};
ghost use Rattle.qrun_replay.specs.Placed.{HoldsPlaces, transcript_from};

use crate::answered::Answered;
use crate::placed::PlacedTranscript;
use crate::shared_journal::SharedJournal;
use qaudit::Difference;
use qaudit_checks::audit;
use qplain::{Board, Journal, LookFault, NoMemory, Setup, Tallies};
use qrules::{Items, RecordRow};
use qstore::Store;
use qstore_journaled::{Ended, JournaledStore};
use std::alloc::Global;

/// What a run leaves: the setup that it began with, the store, its journal and the tallies of it, what each worker was
/// answered, what its looks at the boards were given, in order, the store's quota records, and what an audit of the
/// store found. The replies of transcripts are those of the journal's entries, and stand there alone.
#[derive(Drop)]
pub struct Outcome {
    pub setup: Setup,
    pub store: Store,
    pub journal: SharedJournal,
    pub tallies: Tallies,
    pub transcripts: Items<PlacedTranscript>,
    pub boards: Items<Result<Board, LookFault>>,
    pub records: Items<RecordRow>,
    pub differences: Items<Difference>,
}

/// The transcripts of those who were answered so, each beside the journal.
fn transcripts_of(
    alloc: Global,
    answered: Vec<Answered>,
    journal: &SharedJournal,
) -> Result<Items<PlacedTranscript>, NoMemory>
    requires { All (HoldsPlaces journal.now.entries) answered.items }
    ensures { IfOk result (λ ts. ts ≡ map (transcript_from journal.now.entries) answered.items) }
{
    let mut transcripts = Vec::with_capacity(alloc, answered.len())?;
    for one in answered {
        let shared = journal.copy()?;
        transcripts.push_reserved(PlacedTranscript::new(one, shared));
    }
    Ok(Items::new(transcripts))
}

/// What is left of a store that was played on by N workers, who were answered so, with these looks at its boards.
pub fn outcome_of(
    alloc: Global,
    store: JournaledStore,
    workers: u64,
    answered: Vec<Answered>,
    boards: Items<Result<Board, LookFault>>,
) -> Result<Outcome, NoMemory>
    requires workers { IsWorkers workers }
    requires few { length store.journal ≤ max_entries_of store.setting.edition }
    requires each { All (IsOneOf workers) store.journal }
    requires of_edition { AreOfEdition store.setting.edition store.journal }
    requires places { All (HoldsPlaces store.journal) answered.items }
    ensures { IfOk result (IsLeftOf store.setting store.begun store.journal workers
        (map (transcript_from store.journal) answered.items) boards) }
{
    let kept = store.store();
    let records = kept.record_rows()?;
    let differences = audit(alloc, kept, &records)?;
    let Ended {
        setup,
        store,
        journal,
        tallies,
    } = store.into_parts();
    let journal = Journal::new(setup.current_edition(), workers, Items::new(journal));
    let journal = SharedJournal::new(alloc, journal)?;
    let transcripts = transcripts_of(alloc, answered, &journal)?;
    Ok(Outcome {
        setup,
        store,
        journal,
        tallies,
        transcripts,
        boards,
        records: Items::new(records),
        differences: Items::new(differences),
    })
}
