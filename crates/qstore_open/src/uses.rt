//! Whether what a record tells is what is counted.
ghost use Rattle.std.specs.Prelude.{◌≡◌, ◌==◌};
ghost use Rattle.std.specs.List.{find};
ghost use Rattle.qrules.specs.declared.kind.Kind.{Kind};
ghost use Rattle.qrules.specs.Sort.{Blocks, Inodes, amount_of, is_over};
ghost use Rattle.qplain.specs.State.{State};
ghost use Rattle.qtext_image.specs.Counts.{has_ends};
ghost use Rattle.qaudit.specs.Differences.{counted_of};
ghost use Rattle.qstore_open.specs.Counting.{AreCountsOf, account_in};
ghost use Rattle.qstore_open.specs.Ending.{is_told_right};
ghost use Rattle.qstore_open.specs.Told.{part_of};

use crate::records::ToldRecord;
use qaudit::CountRow;
use qplain::Quota;
use qrules::KIB_PER_BLOCK;

/// The count of this id.
fn count_at(counts: &[CountRow], id: u32) -> Option<CountRow>
    ensures { result ≡ find (λ count. count.id == id) counts.now }
{
    for count in counts {
        if count.id == id {
            return Some(*count);
        }
    }
    None
}

/// What is counted of this id: nothing where it has no count.
fn counted_of(counts: &[CountRow], id: u32) -> CountRow
    ensures { result ≡ counted_of counts.now id }
{
    match count_at(counts, id) {
        Some(count) => count,
        None => CountRow {
            id,
            blocks: 0,
            inodes: 0,
        },
    }
}

/// So many inodes are over this limit.
fn are_inodes_over(inodes: u64, limit: u64) -> bool
    ensures { result ≡ is_over (amount_of Inodes inodes) limit }
{
    limit != 0 && inodes > limit
}

/// So many blocks are over this limit, which is in KiB.
fn are_blocks_over(blocks: u64, limit: u64) -> bool
    ensures { result ≡ is_over (amount_of Blocks blocks) limit }
{
    limit != 0 && blocks > limit / KIB_PER_BLOCK
}

/// A grace end stands exactly where use is over that soft limit.
fn has_ends(quota: &Quota) -> bool
    ensures { result ≡ has_ends (account_in quota.now) }
{
    let over_inodes = are_inodes_over(quota.inodes, quota.limits.inode_soft);
    let over_blocks = are_blocks_over(quota.blocks, quota.limits.block_soft);
    quota.inode_end.is_some() == over_inodes && quota.block_end.is_some() == over_blocks
}

/// A record tells the uses that are counted of its principal, and its grace ends stand where they have to.
pub(crate) fn is_told_right(counts: &[CountRow], told: &ToldRecord) -> bool
    ensures { (S : State) (kind : Kind) → AreCountsOf S kind counts.now
        → result ≡ is_told_right S (part_of kind told.now) }
{
    let counted = counted_of(counts, told.id);
    let quota = &told.quota;
    quota.blocks == counted.blocks && quota.inodes == counted.inodes && has_ends(quota)
}
