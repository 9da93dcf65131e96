//! Runs, from the names of their scripts to what is told of them.
ghost use Rattle.std.specs.Prelude.{◌≡◌, ◌<◌, ◌≤◌, ◌↔◌, map, string_bytes, option_map, length, Err, IfErr, IfOk, OnOk};
ghost use Rattle.qplain.specs.declared.bounds.TheConstants.{MAX_WORKERS};
ghost use Rattle.qtool.specs.Endings.{IsLeftUnlessRefused};
ghost use Rattle.qtool.specs.Jobs.{HasSeats};
ghost use Rattle.qtool.specs.Printed.{PrintsRun};
ghost use Rattle.qtool.specs.Under.{IsRunUnder};
ghost use Rattle.qtool.specs.declared.ending.Ending.TheVariants.{TooManyScripts, TooManyWithBoards};

use crate::ending::Ending;
use crate::finish::finish;
use crate::reading::{configuration, read_scripts};
use crate::saving::test_saved;
use crate::standard::{optional, test_scripts};
use crate::{Files, Machine, NoGate, Options, Outcome, RunFault, SavedNames, run_with};
use qplain::MAX_WORKERS;
use qtext_job::RunJob;
use std::io::Write;
use std::sync::Wait;
use std::thread::Threads;

/// The ending of a run that has no outcome.
pub(crate) fn ending_of_run(fault: RunFault) -> Ending {
    match fault {
        RunFault::Memory => Ending::Memory,
        RunFault::NotStarted(worker) => Ending::NotStarted(worker),
        RunFault::Mismatch(place) => Ending::Mismatch(place),
        RunFault::NoReader => Ending::NoReader,
    }
}

/// Tests that there is a seat for each script, and one more where boards are taken.
fn test_seats(scripts: u64, boards: u64) -> Result<(), Ending>
    ensures seats { OnOk result (HasSeats scripts boards) }
    ensures too_many { result ≡ Err TooManyScripts ↔ MAX_WORKERS < scripts }
    ensures with_boards { result ≡ Err TooManyWithBoards ↔ (scripts ≡ MAX_WORKERS) × (0 < boards) }
{
    if scripts > MAX_WORKERS {
        return Err(Ending::TooManyScripts);
    }
    if scripts == MAX_WORKERS && boards > 0 {
        return Err(Ending::TooManyWithBoards);
    }
    Ok(())
}

/// Reads the configuration and the scripts, in the order in which faults are reported, and runs them.
fn run_of<F: Files, R: Threads + Wait + Sync>(
    machine: &Machine<'_, R>,
    config: &str,
    names: &[String],
    options: Options,
    files: &mut F,
) -> Result<Outcome, Ending>
    requires some { 1 ≤ length names.now }
    requires batch { (1 ≤ options.batch) × (options.batch ≤ 64) }
    ensures ran { IfOk result (IsRunUnder (F.held files.old) config.now (map (λ n. string_bytes n) names.now)
        options.boards) }
    ensures same { F.held files.new ≡ F.held files.old }
{
    let Machine { rt, alloc, .. } = *machine;
    let config = configuration(alloc, files, config)?;
    test_seats(names.len() as u64, options.boards)?;
    let scripts = read_scripts(rt, alloc, files, names)?;
    let Some(progress) = files.progress(&scripts) else {
        return run_with(machine, config, scripts, options, &NoGate).map_err(ending_of_run);
    };
    let outcome = run_with(machine, config, scripts, options, &progress);
    files.ended(progress);
    outcome.map_err(ending_of_run)
}

/// Runs the scripts, and only then writes what came of it. Ok is the status.
pub(crate) fn run_job<F: Files, O: Write, E: Write, R: Threads + Wait + Sync>(
    machine: &Machine<'_, R>,
    run: &RunJob,
    files: &mut F,
    out: &mut O,
    err: &mut E,
) -> Result<u8, Ending>
    requires some { 1 ≤ length run.now.scripts.items }
    requires batch { (1 ≤ run.now.batch) × (run.now.batch ≤ 64) }
    ensures printed { IfOk result (λ status.
        PrintsRun (string_bytes run.now.config) (map (λ n. string_bytes n) run.now.scripts.items)
        run.now.boards run.now.telling (option_map (λ n. string_bytes n) run.now.journal)
        (option_map (λ n. string_bytes n) run.now.save) status (F.held files.old) (F.held files.new)
        (O.contents out.old) (O.contents out.new)) }
    ensures left { IfErr result (IsLeftUnlessRefused (O.contents out.old) (O.contents out.new)) }
{
    let (config, scripts) = (run.config.as_str(), run.scripts.as_slice());
    let names = SavedNames {
        journal: optional(&run.journal),
        image: optional(&run.save),
    };
    let telling = run.telling;
    test_scripts(config, scripts).map_err(Ending::Clash)?;
    if let Err(clash) = test_saved(files, names, config, scripts) {
        return Err(Ending::Clash(clash));
    }
    let options = Options {
        boards: run.boards,
        batch: run.batch,
    };
    let outcome = run_of(machine, config, scripts, options, files).map_err(
        |ending| ending.explained(telling.verbose),
    )?;
    match finish(outcome, telling, names, files, out, err) {
        Ok(status) => Ok(status),
        Err(refuser) => Err(Ending::refused(machine.alloc, refuser, names)),
    }
}
