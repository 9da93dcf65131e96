ghost use Rattle.std.specs.Prelude.{◌≡◌};
ghost use Rattle.qtext.specs.declared.read_fault.ReadFault.TheVariants.{Memory};

use crate::TextKind;
use std::alloc::{AllocError, AllocFailed};

/// Why a part of a line gave no value.
#[derive(Debug, Drop)]
pub enum ReadFault {
    Memory,
    Fault(TextKind),
}

impl From<AllocError> for ReadFault {
    ghost from_gives = { λ _ fault. fault ≡ Memory };

    fn from(_: AllocError) -> ReadFault {
        ReadFault::Memory
    }
}

impl<T: Drop> From<AllocFailed<T>> for ReadFault {
    ghost from_gives = { λ _ fault. fault ≡ Memory };

    fn from(_: AllocFailed<T>) -> ReadFault {
        ReadFault::Memory
    }
}
