//! Why a replay has no outcome.
ghost use Rattle.std.specs.Prelude.{◌≡◌};
ghost use Rattle.qrun_replay.specs.ReplayFaults.{replay_fault_number};
ghost use Rattle.qrun_replay.specs.declared.replay_fault.ReplayFault.TheVariants.{Memory};

use qplain::NoMemory;

/// Why a replay has no outcome. The store is given up.
#[derive(Clone, Copy, Debug, PartialEq, Eq)]
pub enum ReplayFault {
    /// Memory was wanted and not there.
    Memory,
    /// The reply of the entry at this place, from 1, is another than the store's: the first such place of a replay.
    Mismatch(u64),
}

impl ReplayFault {
    /// The number under which it is reported.
    pub fn number(self) -> u32
        ensures { result ≡ replay_fault_number self }
    {
        match self {
            ReplayFault::Memory => 41,
            ReplayFault::Mismatch(_) => 43,
        }
    }
}

impl From<NoMemory> for ReplayFault {
    ghost from_gives = { λ _ fault. fault ≡ Memory };

    fn from(_refused: NoMemory) -> ReplayFault {
        ReplayFault::Memory
    }
}
