//! Differences between quota records and a recount.

use crate::{CountRow, LinkRow};
use qrules::{Kind, RecordRow};

/// Something that a recount finds otherwise than it is recorded.
#[derive(Debug, PartialEq, Eq, Drop)]
pub enum Difference {
    /// A quota record shows other blocks or inodes than were counted.
    Uses {
        kind: Kind,
        row: RecordRow,
        counted: CountRow,
    },
    /// An owner of inodes has no quota record.
    NoRow {
        kind: Kind,
        counted: CountRow,
    },
    /// An inode's row shows another link count than was counted.
    Links(LinkRow),
}
