//! What may be wrong with a line of an image.

use qtext::TextKind;

/// What is wrong with a line of an image.
#[derive(Clone, Copy, Debug, PartialEq, Eq)]
pub enum ImageKind {
    /// A fault of its text: a number out of its range is a bad number, data of another length are bad data.
    Text(TextKind),
    /// A row that may not stand there.
    BadOrder,
    /// An owner that is not declared.
    BadOwner,
    /// A name that is none, or that another of the kind has.
    BadName,
    /// A name that leads where none may.
    NoInode,
    /// What all rows together show not to be so.
    BadCount,
}
