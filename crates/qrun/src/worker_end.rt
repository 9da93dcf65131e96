//! How the workers of a run have ended, and what that makes of the run.
ghost use Rattle.std.specs.Prelude.{◌↔◌, IfErr, IsOk};
ghost use Rattle.qrun.specs.WorkerEnds.{AreDone, NamesFirst};

use crate::run_fault::RunFault;

/// How a worker has ended.
#[derive(Clone, Copy, Debug, PartialEq, Eq)]
pub enum WorkerEnd {
    /// It was started, and has been joined.
    Done,
    /// Its thread was refused, or that of another before it.
    NotStarted,
}

/// What the ends of workers, numbered from 1, make of their run: the first that was not started is named. No workers
/// have all ended well. It takes no memory.
pub fn conclude(ends: &[WorkerEnd]) -> Result<(), RunFault>
    ensures ok { IsOk result ↔ AreDone ends.now }
    ensures err { IfErr result (NamesFirst ends.now) }
{
    let mut worker = 0u64;
    for end in ends {
        worker += 1;
        match end {
            WorkerEnd::Done => {}
            WorkerEnd::NotStarted => return Err(RunFault::NotStarted(worker)),
        }
    }
    Ok(())
}
