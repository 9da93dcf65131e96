//! The record of a principal whose uses, limits and grace ends are told.
ghost use Rattle.std.specs.Prelude.{◌≡◌, ◌≤◌, ◌+◌, IfSome};
ghost use Rattle.qrules.specs.Account.{HasEnds};
ghost use Rattle.qrules.specs.Grace.{with_ends};
ghost use Rattle.qstore_accounts.specs.Parts.{account_in, no_graces};

use qplain::Quota;
use qrules::{Graces, MAX_GRACE, MAX_MOMENT, MAX_USE, Record};

/// Sets the uses. A grace that begins so ends at this moment, which may be later than that of any call.
fn set_uses_until(record: &mut Record, blocks: u64, inodes: u64, end: u64)
    requires blocks { blocks ≤ MAX_USE }
    requires inodes { inodes ≤ MAX_USE }
    requires end { end ≤ MAX_MOMENT + MAX_GRACE }
    ensures { record.new ≡ with_ends (record record.old { blocks = blocks; inodes = inodes }) no_graces end }
{
    let moment = end.min(MAX_MOMENT);
    let rest = end - moment;
    let graces = Graces {
        block: rest,
        inode: rest,
    };
    record.set_uses(blocks, inodes, graces, moment);
}

/// The record that holds just this: the uses, in blocks of 4096 bytes, the limits and the grace ends, in seconds, each
/// at most 2^40 + 2^32 - 1, as calls may have made it. It takes no memory. O(1).
pub fn opened_account(quota: Quota) -> Record
    requires blocks { quota.blocks ≤ MAX_USE }
    requires inodes { quota.inodes ≤ MAX_USE }
    requires block_end { IfSome quota.block_end (λ end. end ≤ MAX_MOMENT + MAX_GRACE) }
    requires inode_end { IfSome quota.inode_end (λ end. end ≤ MAX_MOMENT + MAX_GRACE) }
    requires stands { HasEnds (account_in quota) }
    ensures { result ≡ account_in quota }
{
    let mut record = Record::new(quota.limits);
    set_uses_until(&mut record, quota.blocks, 0, quota.block_end.unwrap_or(0));
    // The end that stands for blocks stays.
    set_uses_until(
        &mut record,
        quota.blocks,
        quota.inodes,
        quota.inode_end.unwrap_or(0),
    );
    record
}
