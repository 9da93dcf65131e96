//! The outcome of a run or a service whose threads have done their work.
ghost use Rattle.std.specs.Prelude.{◌≡◌, length, map, IfErr, IfOk};
ghost use Rattle.qaudit_checks.specs.LawfulBoards.{AreLawful, boards_in};
ghost use Rattle.qrun_replay.specs.Placed.{transcript_from};
ghost use Rattle.qrun_replay.specs.Runs.{IsServiceOf};
ghost use Rattle.qrun.specs.Beginnings.{BeginsAlike};
ghost use Rattle.qrun.specs.RunFaults.{IsFaultOf};
ghost use Rattle.qrun.specs.Told.{HaveWorked};

use crate::observer::Look;
use crate::run_fault::RunFault;
use qaudit_checks::{BoardFault, check_looks};
use qrules::Items;
use qrun_replay::{Answered, Outcome, outcome_of};
use qshare::JournaledStore;
use qstore::Store;
use std::alloc::Global;

/// Checks what looks were given against the journal of a store, whose own boards they are, on another store that began
/// alike. Where there was none, nothing is played again.
fn check_own(again: Option<Store>, store: &JournaledStore, looks: &[Look]) -> Result<(), RunFault>
    requires again { BeginsAlike store.now.begun (length looks.now) again }
    requires lawful { AreLawful store.now.begun store.now.journal (boards_in looks.now) }
    ensures fault { IfErr result (IsFaultOf 0) }
{
    if looks.is_empty() {
        return Ok(());
    }
    let Some(again) = again else {
        unreachable!();
    };
    match check_looks(again, store.entries(), looks) {
        Ok(()) => Ok(()),
        Err(BoardFault::Memory) => Err(RunFault::Memory),
        Err(BoardFault::Board(_)) => Err(RunFault::Mismatch(0)),
    }
}

/// Checks the looks against the journal, on another store that began alike, and makes the outcome of those who were
/// answered so.
pub(crate) fn make_outcome(
    alloc: Global,
    store: JournaledStore,
    again: Option<Store>,
    answered: Vec<Answered>,
    looks: Vec<Look>,
) -> Result<Outcome, RunFault>
    requires again { BeginsAlike store.begun (length looks.items) again }
    requires worked { HaveWorked store answered.items looks.items }
    ensures outcome { IfOk result (IsServiceOf store.setting store.begun) }
    ensures told { IfOk result (λ o. (o.transcripts ≡ map (transcript_from store.journal) answered.items)
        × (o.boards ≡ looks.items) × (o.journal.entries ≡ store.journal)) }
    ensures fault { IfErr result (IsFaultOf 0) }
{
    check_own(again, &store, &looks)?;
    let workers = answered.len() as u64;
    let outcome = outcome_of(alloc, store, workers, answered, Items::new(looks))?;
    Ok(outcome)
}
