use crate::{Kind, Limits, PrincipalName};

/// One quota record as reports and audits see it.
#[derive(Debug, PartialEq, Eq, Drop)]
pub struct RecordRow {
    pub kind: Kind,
    pub id: u32,
    pub name: PrincipalName,
    /// Blocks of 4096 bytes in use.
    pub blocks: u64,
    pub inodes: u64,
    pub limits: Limits,
    /// The moment at which the grace for blocks ends, where one runs.
    pub block_end: Option<u64>,
    /// The moment at which the grace for inodes ends, where one runs.
    pub inode_end: Option<u64>,
}
