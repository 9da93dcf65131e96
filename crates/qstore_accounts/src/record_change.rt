//! How a call changes a quota record.
ghost use Rattle.std.specs.Prelude.{◌≡◌};
ghost use Rattle.qstore_accounts.specs.Bills.{IsCountable, account_after};
ghost use Rattle.qstore_accounts.specs.Ledgers.{AreTimesInRange};

use crate::times::Times;
use qrules::{Limits, Record};

/// What becomes other of a record: its uses, or its limits. Its grace ends follow, and are made where it is settled.
#[derive(Clone, Copy)]
pub enum RecordChange {
    Uses { blocks: u64, inodes: u64 },
    Limits(Limits),
}

impl RecordChange {
    /// Makes the change, with the grace ends that then stand. It tests nothing.
    #[inline(always)]
    pub(crate) fn make(&self, account: &mut Record, times: Times)
        requires countable { IsCountable self.now }
        requires times { AreTimesInRange times.graces times.moment }
        ensures { account.new ≡ account_after self.now account.old times.graces times.moment }
    {
        let Times { graces, moment } = times;
        match *self {
            RecordChange::Uses { blocks, inodes } => account.set_uses(
                blocks, inodes, graces, moment,
            ),
            RecordChange::Limits(limits) => account.set_limits(limits, graces, moment),
        }
    }
}
