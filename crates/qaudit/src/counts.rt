//! What a recount finds.

use qrules::Items;

/// What the rows of one owner come to.
#[derive(Clone, Copy, Debug, PartialEq, Eq)]
pub struct CountRow {
    pub id: u32,
    /// Blocks of 4096 bytes, in all its rows.
    pub blocks: u64,
    /// How many rows it owns.
    pub inodes: u64,
}

/// The link count that stands in an inode's row, beside the one that the rows come to.
#[derive(Clone, Copy, Debug, PartialEq, Eq)]
pub struct LinkRow {
    pub ino: u64,
    pub recorded: u64,
    /// Of a file the names that lead to it; of a directory 2 and its subdirectories.
    pub counted: u64,
}

/// What rows of inodes and names come to, counted afresh.
#[derive(Debug, PartialEq, Eq, Drop)]
pub struct Counts {
    /// The users that own a row, by id.
    pub users: Items<CountRow>,
    /// The groups that own a row, by id.
    pub groups: Items<CountRow>,
    /// The projects that own a row, by id: a row may have none.
    pub projects: Items<CountRow>,
    /// Blocks of 4096 bytes, in all rows.
    pub blocks: u64,
    /// How many rows of inodes there are.
    pub inodes: u64,
    /// The link counts, one for each row of an inode, in order.
    pub links: Items<LinkRow>,
}
