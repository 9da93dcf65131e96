//! Why a run has no outcome.
ghost use Rattle.std.specs.Prelude.{◌≡◌};
ghost use Rattle.qrun.specs.RunFaults.{IsFaultOf, run_fault_number};
ghost use Rattle.qrun.specs.declared.run_fault.RunFault.TheVariants.{Memory};

use qplain::NoMemory;
use qshare::ShareFault;

/// Why a run has no outcome. All workers that were started have been joined, and the store is given up.
#[derive(Clone, Copy, Debug, PartialEq, Eq)]
pub enum RunFault {
    /// Memory was wanted and not there.
    Memory,
    /// The thread of this worker, from 1, could not be started.
    NotStarted(u64),
    /// The journal and the transcripts differ, first at this place, from 1. No run ends so.
    Mismatch(u64),
    /// A seat got no reader of the boards. No worker was started.
    NoReader,
}

impl RunFault {
    /// The number under which it is reported.
    pub fn number(self) -> u32
        ensures { result ≡ run_fault_number self }
    {
        match self {
            RunFault::Memory => 41,
            RunFault::NotStarted(_) => 42,
            RunFault::Mismatch(_) => 43,
            RunFault::NoReader => 48,
        }
    }
}

impl From<NoMemory> for RunFault {
    ghost from_gives = { λ _ fault. fault ≡ Memory };

    fn from(_refused: NoMemory) -> RunFault {
        RunFault::Memory
    }
}

impl From<ShareFault> for RunFault {
    ghost from_gives = { λ _ fault. IsFaultOf 0 fault };

    fn from(refused: ShareFault) -> RunFault {
        match refused {
            ShareFault::NoReader => RunFault::NoReader,
            ShareFault::Seats | ShareFault::OutOfMemory => RunFault::Memory,
        }
    }
}
