//! Why a text is no image.

use crate::image_kind::ImageKind;

/// The line that is told, counted from 1, and what is wrong there: the first line that is wrong whatever follows it, or
/// where there is none the first that is wrong beside all others.
#[derive(Clone, Copy, Debug, PartialEq, Eq)]
pub struct ImageFault {
    pub line: u64,
    pub kind: ImageKind,
}
