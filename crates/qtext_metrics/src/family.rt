//! What a monitor is told of a board.
ghost use Rattle.std.specs.Prelude.{◌≡◌};
ghost use Rattle.qtext_metrics.specs.Families.{families, help_of, limit_told, name_of, row_value, total_value};

use qplain::{Board, Setup};
use qrules::BoardRow;

/// A family of samples, each a gauge: a number of the whole store, or one of each row that has it.
#[derive(Clone, Copy, Debug, PartialEq, Eq)]
pub(crate) enum Family {
    Version,
    Blocks,
    BlocksLimit,
    Inodes,
    InodesLimit,
    BlocksUsed,
    InodesUsed,
    BlocksSoft,
    BlocksHard,
    InodesSoft,
    InodesHard,
    BlocksGrace,
    InodesGrace,
}

/// A limit, where there is one: 0 is none.
fn limit_told(limit: u64) -> Option<u64>
    ensures { result ≡ limit_told limit }
{
    if limit == 0 { None } else { Some(limit) }
}

impl Family {
    /// All families, in the order in which they are written.
    pub(crate) fn all() -> [Family; 13]
        ensures { result ≡ families }
    {
        [
            Family::Version,
            Family::Blocks,
            Family::BlocksLimit,
            Family::Inodes,
            Family::InodesLimit,
            Family::BlocksUsed,
            Family::InodesUsed,
            Family::BlocksSoft,
            Family::BlocksHard,
            Family::InodesSoft,
            Family::InodesHard,
            Family::BlocksGrace,
            Family::InodesGrace,
        ]
    }

    /// The name of its samples.
    pub(crate) fn name(self) -> &'static [u8]
        ensures { result.now ≡ name_of self }
    {
        match self {
            Family::Version => b"quotafs_version",
            Family::Blocks => b"quotafs_blocks",
            Family::BlocksLimit => b"quotafs_blocks_limit",
            Family::Inodes => b"quotafs_inodes",
            Family::InodesLimit => b"quotafs_inodes_limit",
            Family::BlocksUsed => b"quotafs_blocks_used",
            Family::InodesUsed => b"quotafs_inodes_used",
            Family::BlocksSoft => b"quotafs_blocks_soft_limit_kib",
            Family::BlocksHard => b"quotafs_blocks_hard_limit_kib",
            Family::InodesSoft => b"quotafs_inodes_soft_limit",
            Family::InodesHard => b"quotafs_inodes_hard_limit",
            Family::BlocksGrace => b"quotafs_blocks_grace_end_seconds",
            Family::InodesGrace => b"quotafs_inodes_grace_end_seconds",
        }
    }

    /// What its samples are, in a sentence.
    pub(crate) fn help(self) -> &'static [u8]
        ensures { result.now ≡ help_of self }
    {
        match self {
            Family::Version => b"Calls that led to these numbers.",
            Family::Blocks => b"Allocated blocks of 4096 bytes.",
            Family::BlocksLimit => b"Blocks of 4096 bytes that the store has room for.",
            Family::Inodes => b"Inodes in use.",
            Family::InodesLimit => b"Inodes that the store has room for.",
            Family::BlocksUsed => b"Blocks of 4096 bytes charged to each principal.",
            Family::InodesUsed => b"Inodes charged to each principal.",
            Family::BlocksSoft => b"Soft limit for blocks, in KiB, of each principal that has one.",
            Family::BlocksHard => b"Hard limit for blocks, in KiB, of each principal that has one.",
            Family::InodesSoft => b"Soft limit for inodes of each principal that has one.",
            Family::InodesHard => b"Hard limit for inodes of each principal that has one.",
            Family::BlocksGrace => b"Moment at which the grace for blocks ends, where one runs.",
            Family::InodesGrace => b"Moment at which the grace for inodes ends, where one runs.",
        }
    }

    /// Its number of the whole store; none where it is one of rows.
    pub(crate) fn total(self, setup: &Setup, board: &Board) -> Option<u64>
        ensures { result ≡ total_value setup.now board.now self }
    {
        match self {
            Family::Version => Some(board.version),
            Family::Blocks => Some(board.blocks),
            Family::BlocksLimit => Some(setup.blocks()),
            Family::Inodes => Some(board.inodes),
            Family::InodesLimit => Some(setup.inodes()),
            _ => None,
        }
    }

    /// Its number of a row; none where the row has none, or it is one of the whole store.
    pub(crate) fn value(self, row: &BoardRow) -> Option<u64>
        ensures { result ≡ row_value self row.now }
    {
        match self {
            Family::BlocksUsed => Some(row.blocks),
            Family::InodesUsed => Some(row.inodes),
            Family::BlocksSoft => limit_told(row.limits.block_soft),
            Family::BlocksHard => limit_told(row.limits.block_hard),
            Family::InodesSoft => limit_told(row.limits.inode_soft),
            Family::InodesHard => limit_told(row.limits.inode_hard),
            Family::BlocksGrace => row.block_end,
            Family::InodesGrace => row.inode_end,
            _ => None,
        }
    }
}
