//! The whole program over files, output and fault lines.
ghost use Rattle.std.specs.Prelude.{◌≡◌, ◌⊎◌, map, string_bytes, IfErr, IfOk};
ghost use Rattle.qtext_job.specs.Jobs.{HasScript};
ghost use Rattle.qtool.specs.Endings.{IsFaultStatus, IsLeftUnlessRefused, IsStatus, IsUntouchedAt, IsUntouchedBy};
ghost use Rattle.qtool.specs.Jobs.{HasBatch, IsService};
ghost use Rattle.qtool.specs.Printed.{AsksForHelp, IsPrinted, IsPrintedBy, seen};

use crate::checking::check_job;
use crate::ending::Ending;
use crate::expanding::expand_job;
use crate::replaying::replay_job;
use crate::running::run_job;
use crate::services::serve_job;
use crate::{Files, Job, LineFault, Machine, NamedStreams};
use qtext::put;
use std::io::Write;
use std::sync::Wait;
use std::thread::Threads;
use std::time::Clock;

/// Does what the job asks for: comes to an outcome, and only then writes. Ok is the status.
fn do_job<F, O, E, R>(
    machine: &Machine<'_, R>,
    job: &Job,
    files: &mut F,
    out: &mut O,
    err: &mut E,
) -> Result<u8, Ending>
where
    F: Files + NamedStreams + Send,
    O: Write,
    E: Write,
    R: Threads + Wait + Clock + Sync,
    requires some { HasScript job.now }
    requires batch { HasBatch job.now }
    ensures printed { IfOk result (λ status. IsPrinted job.now status
        (seen (F.held files.old) (O.contents out.old) (E.contents err.old))
        (seen (F.held files.new) (O.contents out.new) (E.contents err.new))) }
    ensures left { IfErr result (λ ending.
        IsLeftUnlessRefused (O.contents out.old) (O.contents out.new) ending ⊎ IsService job.now) }
{
    match job {
        Job::Run(run) => run_job(machine, run, files, out, err),
        Job::Replay(replay) => replay_job(machine.alloc, machine.seed, replay, files, out, err),
        Job::Expand(expand) => {
            expand_job(machine.alloc, expand, files, out)?;
            Ok(0)
        }
        Job::Check(check) => {
            check_job(machine.alloc, check, files, err)?;
            Ok(0)
        }
        Job::Serve(serve) => {
            serve_job(machine, serve, files, out, err)?;
            Ok(0)
        }
    }
}

/// Writes and flushes help, or the version. An output that refuses it is told as that.
fn tell_help<O: Write, E: Write>(text: &str, out: &mut O, err: &mut E) -> u8
    ensures { (result ≡ 0) ⊎ (result ≡ 4) }
{
    if put(out, text.as_bytes()).is_ok() && out.flush().is_ok() {
        return 0;
    }
    Ending::Output.tell(err)
}

/// Tells why the words are no job: help and the version on the output, with 0, and all else on the error output.
fn tell_words<O: Write, E: Write>(fault: &LineFault, out: &mut O, err: &mut E) -> u8
    ensures status { ((result ≡ 0) × AsksForHelp fault.now) ⊎ IsFaultStatus result }
    ensures untouched { IsUntouchedAt result (O.contents out.old) (O.contents out.new) }
{
    match fault {
        LineFault::Line { help: true, text } => tell_help(text.as_str(), out, err),
        LineFault::Line { help: false, text } => {
            let _ = put(err, text.as_bytes());
            let _ = err.flush();
            2
        }
        LineFault::Memory => Ending::Memory.tell(err),
    }
}

/// The whole program: reads the words of the command line, its own name the first of them, reads the files that they
/// name, runs the scripts or plays the journal, writes what came of it to the output and then, where it is asked for,
/// the journal of the run to a file, and answers the exit status. How far a run is, its files may tell meanwhile. Where
/// it is to be told strictly, lines that were refused or failed are counted on the error output after all that, a line
/// for each kind, and it ends with 1. The first fault ends it with one line on the error output: 2 for the command
/// line, also where the journal would be written over the configuration, a script or the output, for the configuration,
/// a script or a journal, 3 out of memory and for a journal that does not fit, 4 for an output or a file for the
/// journal that refuses, also when it is flushed, 5 for a service that was to stop at a line that fails, and did. Help
/// and the version go to the output, with 0. The line is flushed, so that a buffered error output gets it by one write.
///
/// The memory of a run is not given back. The machine's seed is any number, best one that nobody knows beforehand:
/// where it is known, names can be searched that collide, and then calls take long. Neither the output nor the status
/// depends on it.
pub fn tool<F, O, E, R>(
    machine: &Machine<'_, R>,
    words: &[String],
    files: &mut F,
    out: &mut O,
    err: &mut E,
) -> u8
where
    F: Files + NamedStreams + Send,
    O: Write,
    E: Write,
    R: Threads + Wait + Clock + Sync,
    ensures status { IsStatus result }
    ensures untouched { IsUntouchedBy (map (λ w. string_bytes w) words.now) result (O.contents out.old)
        (O.contents out.new) }

    // Of files that tell what they hold, and of an output that tells its bytes, which the machine's do not.
    ensures printed { (result ≡ 0) ⊎ (result ≡ 1) → IsPrintedBy (map (λ w. string_bytes w) words.now) result
        (seen (F.held files.old) (O.contents out.old) (E.contents err.old))
        (seen (F.held files.new) (O.contents out.new) (E.contents err.new)) }
{
    match Job::read(machine.alloc, words) {
        Ok(job) => match do_job(machine, &job, files, out, err) {
            Ok(status) => status,
            Err(ending) => ending.tell(err),
        },
        Err(fault) => tell_words(&fault, out, err),
    }
}
