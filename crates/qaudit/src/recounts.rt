//! The recount of rows.
ghost use Rattle.std.specs.Prelude.{◌≡◌, ◌≤◌, ◌<◌, ◌^◌, ◌⊎◌, IfOk, length, sum_by};
ghost use Rattle.qaudit.specs.Recount.{recount_of};

use crate::links::link_rows;
use crate::owners::counts_by;
use crate::{Counts, NoMemory};
use qrules::{InodeRow, Items, Kind, NameRow};
use std::alloc::Global;

/// The blocks of all rows.
fn blocks_of(inodes: &[InodeRow]) -> u64
    requires fits { (length inodes.now ≤ 2 ^ 32) ⊎ (sum_by (λ row. row.blocks) inodes.now < 2 ^ 64) }
    ensures { result ≡ sum_by (λ row. row.blocks) inodes.now }
{
    let mut blocks = 0;
    for row in inodes {
        blocks += row.blocks as u64;
    }
    blocks
}

/// Counts rows of inodes and of names afresh, whoever made them: what each user, each group and each project owns,
/// all blocks and inodes, and the links of each inode (quotacheck(8)).
///
/// Numbers and ids may stand in several rows. Blocks are of 4096 bytes; all of them must fit 64 bits, as those of 2^32
/// rows do. O((i + n) log (i + n)) for i rows of inodes and n of names; an Err is out of memory, and leaves nothing
/// made.
pub fn recount(alloc: Global, inodes: &[InodeRow], names: &[NameRow]) -> Result<Counts, NoMemory>
    requires fits { (length inodes.now ≤ 2 ^ 32) ⊎ (sum_by (λ row. row.blocks) inodes.now < 2 ^ 64) }
    ensures { IfOk result (λ counts. counts ≡ recount_of inodes.now names.now) }
{
    let blocks = blocks_of(inodes);
    Ok(Counts {
        users: Items::new(counts_by(alloc, Kind::User, inodes)?),
        groups: Items::new(counts_by(alloc, Kind::Group, inodes)?),
        projects: Items::new(counts_by(alloc, Kind::Project, inodes)?),
        blocks,
        inodes: inodes.len() as u64,
        links: Items::new(link_rows(alloc, inodes, names)?),
    })
}
