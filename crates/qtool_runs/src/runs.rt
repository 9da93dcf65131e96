//! Runs of scripts, and replays of a journal and checks of boards against one, under a configuration.
ghost use Rattle.std.specs.Prelude.{◌≡◌, ◌<◌, ◌≤◌, ℕ, List, Err, IfErr, IfOk, length};
ghost use Rattle.qplain.specs.declared.line.Line.{Line};
ghost use Rattle.qplain.specs.Setups.{in_edition};
ghost use Rattle.qplain.specs.State.{start};
ghost use Rattle.qshare.specs.declared.opening.TheConstants.{MAX_SEATS};
ghost use Rattle.qaudit_checks.specs.LawfulBoards.{IsVerdictOn};
ghost use Rattle.qrun_replay.specs.declared.outcome.Outcome.{Outcome};
ghost use Rattle.qrun_replay.specs.declared.replay_fault.ReplayFault.TheVariants.{Mismatch};
ghost use Rattle.qrun_replay.specs.Replays.{GivesBack, IsFirstMismatch, IsReplayOf};
ghost use Rattle.qrun_replay.specs.Runs.{IsLeftByWorkers, IsOutcomeOf};
ghost use Rattle.qrun.specs.Crews.{CanRun};
ghost use Rattle.qrun.specs.RunFaults.{IsFaultOf};
ghost use Rattle.qrun.specs.Watching.{seats_for};

use qaudit_checks::BoardFault;
use qplain::{Board, Journal, Script};
use qrun::{Beginning, Gate, Machine, NoGate, Options, RunFault, run_scripts};
use qrun_replay::{Outcome, ReplayFault};
use qstore::Store;
use qtext_config::Config;
use std::alloc::Global;
use std::sync::Wait;
use std::thread::Threads;

/// Runs scripts on a new store of the configuration: worker k makes the calls of script k one after the other, in a
/// thread of its own, and goes on after any answer. Which of the legal journals comes is open.
///
/// `options` says how many boards one more thread takes meanwhile, and how many lines a worker makes under one lock;
/// `gate` is called around each line, or before the first and after the last of those, and may wait.
///
/// The caller owes 1 to 16 scripts, and with boards at most 15. The machine's seed may be any number; nothing of the
/// outcome depends on it. O(lines), and what each call takes. After an Err all workers that were started have been
/// joined, and the store is given up; NotStarted names the first of the threads that was refused.
pub fn run_with<G: Gate + Sync, R: Threads + Wait + Sync>(
    machine: &Machine<'_, R>,
    config: Config,
    scripts: Vec<Script>,
    options: Options,
    gate: &G,
) -> Result<Outcome, RunFault>
    requires { CanRun (length scripts.items) options }
    ensures outcome { IfOk result (IsOutcomeOf config.setup (start config.setup) scripts.items) }
    ensures looks { IfOk result (λ o. length o.boards ≡ options.boards) }
    ensures fault { IfErr result (IsFaultOf (seats_for (length scripts.items) options.boards)) }
{
    let boards = options.boards > 0;
    let beginning = Beginning::new(machine.alloc, config.setup, machine.seed, boards)?;
    run_scripts(machine, beginning, scripts, options, gate)
}

/// `run_with` without boards, line by line, and with a gate that lets every line pass. The caller owes 1 to 16 scripts.
pub fn run<R: Threads + Wait + Sync>(
    machine: &Machine<'_, R>,
    config: Config,
    scripts: Vec<Script>,
) -> Result<Outcome, RunFault>
    requires { (0 < length scripts.items) × (length scripts.items ≤ MAX_SEATS) }
    ensures outcome { IfOk result (IsOutcomeOf config.setup (start config.setup) scripts.items) }
    ensures looks { IfOk result (λ o. length o.boards ≡ 0) }
    ensures fault { IfErr result (IsFaultOf (length scripts.items)) }
{
    run_with(machine, config, scripts, Options::plain(), &NoGate)
}

/// Plays a journal again on a new store of the configuration in the journal's edition, one entry after the other.
///
/// An outcome comes only of a journal whose replies are all the store's; else the first place with another reply is
/// told. The hashes of names begin at `seed`, as for a run. O(entries), and what each call takes. After an Err the
/// store is given up.
pub fn replay(
    alloc: Global,
    config: Config,
    journal: &Journal,
    seed: u64,
) -> Result<Outcome, ReplayFault>
    ensures outcome { IfOk result (IsReplayOf (in_edition journal.now.edition config.setup)
        (start (in_edition journal.now.edition config.setup)) journal.now) }
    ensures mismatch { (place : ℕ) → result ≡ Err (Mismatch place)
        → IsFirstMismatch (start (in_edition journal.now.edition config.setup)) journal.now.entries place }

    // The journal that workers have left under this configuration gives back what they have left, but for the lines
    // that failed.
    ensures of_a_run { (lines : List (List Line)) (run : Outcome)
        → IsLeftByWorkers config.setup (start config.setup) lines run
        → journal.now ≡ run.journal → GivesBack run result }
{
    qrun_replay::replay(alloc, config.setup, journal, seed)
}

/// Checks boards against a journal, whose entries it plays again on a store of the configuration in the journal's
/// edition.
///
/// The boards are lawful where each is that of the state which the first entries leave, as many as its version, and
/// versions never fall. Else the index of the first board that fails is reported, from 1. The journal's replies are not
/// looked at. The hashes of names begin at `seed`, as for a run. What the calls of the entries take, up to the greatest
/// version, and for each board O(n) for n principals.
pub fn check_boards(
    alloc: Global,
    config: Config,
    journal: &Journal,
    boards: &[Board],
    seed: u64,
) -> Result<(), BoardFault>
    ensures { IsVerdictOn (start (in_edition journal.now.edition config.setup)) journal.now.entries boards.now result }
{
    let setup = config.setup.edition(journal.edition());
    let store = Store::new(alloc, setup, seed)?;
    qaudit_checks::check_boards(store, journal.entries(), boards)
}
