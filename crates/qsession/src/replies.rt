//! Replies and tallies as structs that other languages know.
ghost use Rattle.std.specs.Prelude.{◌≡◌};
ghost use Rattle.qsession.specs.Replies.{done_in, quota_in, stat_in, tallies_in};
ghost use Rattle.qplain.specs.declared.reply.Reply.TheVariants.{Done, Stat as StatOf, Quota as QuotaOf};

use qplain::{Change, Quota, Stat, Tallies};

/// What a call did: the number of its inode, and by how much the totals rose and fell, in blocks of 4096 bytes and in
/// inodes.
#[repr(C)]
#[derive(Clone, Copy, Debug)]
pub struct DoneReply {
    pub ino: u64,
    pub blocks_charged: u64,
    pub blocks_released: u64,
    pub inodes_charged: u64,
    pub inodes_released: u64,
}

impl DoneReply {
    /// The reply that this was done.
    pub fn of(ino: u64, change: Change) -> DoneReply
        ensures { done_in result ≡ Done ino change }
    {
        DoneReply {
            ino,
            blocks_charged: change.blocks_charged,
            blocks_released: change.blocks_released,
            inodes_charged: change.inodes_charged,
            inodes_released: change.inodes_released,
        }
    }
}

/// What is known of an inode: bytes with the holes, allocated blocks of 4096 bytes, and how many names lead to it.
#[repr(C)]
#[derive(Clone, Copy, Debug)]
pub struct StatReply {
    pub ino: u64,
    pub size: u64,
    pub blocks: u64,
    pub links: u64,
    pub uid: u32,
    pub gid: u32,
    pub dir: bool,
}

impl StatReply {
    /// The reply of these numbers.
    pub fn of(stat: Stat) -> StatReply
        ensures { stat_in result ≡ StatOf stat }
    {
        StatReply {
            ino: stat.ino,
            size: stat.size,
            blocks: stat.blocks,
            links: stat.links,
            uid: stat.uid,
            gid: stat.gid,
            dir: stat.dir,
        }
    }
}

/// A quota record: uses in blocks of 4096 bytes and inodes, limits in KiB and inodes, and moments in seconds. An end
/// counts where it is said to be there.
#[repr(C)]
#[derive(Clone, Copy, Debug)]
pub struct QuotaReply {
    pub blocks: u64,
    pub inodes: u64,
    pub block_soft: u64,
    pub block_hard: u64,
    pub inode_soft: u64,
    pub inode_hard: u64,
    pub block_end: u64,
    pub inode_end: u64,
    pub has_block_end: bool,
    pub has_inode_end: bool,
}

impl QuotaReply {
    /// The reply of this record.
    pub fn of(quota: Quota) -> QuotaReply
        ensures { quota_in result ≡ QuotaOf quota }
    {
        QuotaReply {
            blocks: quota.blocks,
            inodes: quota.inodes,
            block_soft: quota.limits.block_soft,
            block_hard: quota.limits.block_hard,
            inode_soft: quota.limits.inode_soft,
            inode_hard: quota.limits.inode_hard,
            block_end: quota.block_end.unwrap_or(0),
            inode_end: quota.inode_end.unwrap_or(0),
            has_block_end: quota.block_end.is_some(),
            has_inode_end: quota.inode_end.is_some(),
        }
    }
}

/// What journaled calls did to the totals, added up, and how many calls there were.
#[repr(C)]
#[derive(Clone, Copy, Debug)]
pub struct TallyReply {
    pub blocks_charged: u64,
    pub blocks_released: u64,
    pub inodes_charged: u64,
    pub inodes_released: u64,
    pub calls: u64,
}

impl TallyReply {
    /// The same tally.
    pub fn of(tallies: Tallies) -> TallyReply
        ensures { tallies_in result ≡ tallies }
    {
        TallyReply {
            blocks_charged: tallies.blocks_charged,
            blocks_released: tallies.blocks_released,
            inodes_charged: tallies.inodes_charged,
            inodes_released: tallies.inodes_released,
            calls: tallies.calls,
        }
    }
}
