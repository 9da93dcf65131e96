//! Why an image is not opened.
ghost use Rattle.std.specs.Prelude.{◌≡◌};
ghost use Rattle.qstore_open.specs.declared.open_fault.OpenFault.TheVariants.{Memory};

use crate::image_fault::ImageFault;
use std::alloc::{AllocError, AllocFailed};

/// Why an image is not opened.
#[derive(Clone, Copy, Debug, PartialEq, Eq)]
pub enum OpenFault {
    /// Memory was wanted and not there.
    Memory,
    /// The text is no image.
    Image(ImageFault),
}

impl From<AllocError> for OpenFault {
    ghost from_gives = { λ _ fault. fault ≡ Memory };

    fn from(_: AllocError) -> OpenFault {
        OpenFault::Memory
    }
}

impl<T: Drop> From<AllocFailed<T>> for OpenFault {
    ghost from_gives = { λ _ fault. fault ≡ Memory };

    fn from(_: AllocFailed<T>) -> OpenFault {
        OpenFault::Memory
    }
}
