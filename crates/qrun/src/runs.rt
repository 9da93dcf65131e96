//! Runs: scripts played by workers on a shared store.
ghost use Rattle.std.specs.Prelude.{◌≡◌, length, IfErr, IfOk};
ghost use Rattle.qplain.specs.declared.edition.Edition.TheVariants.{Two};
ghost use Rattle.qrun_replay.specs.Runs.{IsOutcomeOf};
ghost use Rattle.qrun.specs.Beginnings.{HasBegun};
ghost use Rattle.qrun.specs.Crews.{CanRun};
ghost use Rattle.qrun.specs.RunFaults.{IsFaultOf};
ghost use Rattle.qrun.specs.Watching.{seats_for};

use crate::beginning::Beginning;
use crate::crew::{Crew, clients_of};
use crate::looking::Looking;
use crate::machine::Machine;
use crate::monitor::NoMonitor;
use crate::opening::play_on;
use crate::options::Options;
use crate::run_fault::RunFault;
use qplain::Script;
use qrun_replay::Outcome;
use qrun_worker::Gate;
use std::sync::Wait;
use std::thread::Threads;

/// How many lines the scripts have together. It says when looks are due, and stands in no clause.
fn lines_in(scripts: &[Script]) -> u64 {
    let mut lines = 0u64;
    for script in scripts {
        lines = lines.saturating_add(script.lines().len() as u64);
    }
    lines
}

/// Plays 1 to 16 scripts on a store that begins, whose setup is of edition 2: each in a thread of its own, with a seat
/// of its own. Where boards are wanted the scripts are at most 15, and one thread more, whose number is that of the
/// scripts and 1, looks at them while the workers go on; else nobody can look at them, and calls take less.
///
/// The outcome is the headline: the journal is legal from the beginning, the store is what it leaves when one thread
/// plays it on the plain machine, and each worker's transcript is its script's lines in order, each with one answer, of
/// which the receipts are the worker's own entries. Which legal journal comes is open. A worker goes on after any
/// answer. The boards are the journal's own, each that of its version, and versions never fall; when they are looked at
/// is open.
///
/// `gate` is called around each line, or, where the lock is taken for several, before the first and after the last of
/// them, and may wait; this is promised if the run returns. An Err is Memory, NoReader, or NotStarted with the first
/// worker whose thread was refused; then all workers that were started have been joined and the store is given up.
/// Mismatch never comes: each worker's receipts are proved to be its entries, and the boards to be the journal's.
pub fn run_scripts<G: Gate + Sync, R: Threads + Wait + Sync>(
    machine: &Machine<'_, R>,
    beginning: Beginning,
    scripts: Vec<Script>,
    options: Options,
    gate: &G,
) -> Result<Outcome, RunFault>
    requires begun { HasBegun options.boards beginning }
    requires edition { beginning.store.setting.edition ≡ Two }
    requires can { CanRun (length scripts.items) options }
    ensures outcome { IfOk result (IsOutcomeOf beginning.store.setting beginning.store.begun scripts.items) }
    ensures looks { IfOk result (λ o. length o.boards ≡ options.boards) }
    ensures fault { IfErr result (IsFaultOf (seats_for (length scripts.items) options.boards)) }
{
    let Options { boards, batch } = options;
    let looking: Looking<NoMonitor> = Looking::times(lines_in(&scripts), boards);
    let crew = Crew::new(clients_of(machine.alloc, scripts)?, gate, batch);
    let played = play_on(machine, beginning, false, crew, looking)?;
    Ok(played.outcome)
}
