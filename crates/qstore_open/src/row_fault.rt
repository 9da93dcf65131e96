//! Why a row is not taken in.
ghost use Rattle.std.specs.Prelude.{◌≡◌};
ghost use Rattle.qstore_open.specs.declared.row_fault.RowFault.TheVariants.{Memory};

use crate::image_kind::ImageKind;
use std::alloc::{AllocError, AllocFailed};

/// Why a row is not taken in.
#[derive(Clone, Copy, Debug, PartialEq, Eq)]
pub enum RowFault {
    /// Memory was wanted and not there.
    Memory,
    /// What is wrong with it.
    Row(ImageKind),
}

impl From<AllocError> for RowFault {
    ghost from_gives = { λ _ fault. fault ≡ Memory };

    fn from(_: AllocError) -> RowFault {
        RowFault::Memory
    }
}

impl<T: Drop> From<AllocFailed<T>> for RowFault {
    ghost from_gives = { λ _ fault. fault ≡ Memory };

    fn from(_: AllocFailed<T>) -> RowFault {
        RowFault::Memory
    }
}
