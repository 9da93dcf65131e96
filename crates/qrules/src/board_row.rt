use crate::{Kind, Limits};

/// One quota record as a board shows it: a record row without its name.
#[derive(Clone, Copy, Debug, PartialEq, Eq)]
pub struct BoardRow {
    pub kind: Kind,
    pub id: u32,
    /// Blocks of 4096 bytes in use.
    pub blocks: u64,
    pub inodes: u64,
    pub limits: Limits,
    /// The moment at which the grace for blocks ends, where one runs.
    pub block_end: Option<u64>,
    /// The moment at which the grace for inodes ends, where one runs.
    pub inode_end: Option<u64>,
}
