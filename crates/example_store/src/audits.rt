//! A recount of rows from anywhere, held against records.
ghost use Rattle.std.specs.Prelude.{◌≡◌, ◌^◌, ◌≤◌, length, IfOk};
ghost use Rattle.qaudit.specs.Differences.{differences_of};
ghost use Rattle.qaudit.specs.Recount.{recount_of};

use qaudit::{Difference, NoMemory, compare, recount};
use qrules::{InodeRow, NameRow, RecordRow};
use std::alloc::Global;

/// All that a recount of these rows finds otherwise than it is recorded, in its order.
pub(crate) fn check(
    alloc: Global,
    inodes: &[InodeRow],
    names: &[NameRow],
    records: &[RecordRow],
) -> Result<Vec<Difference>, NoMemory>
    requires { length inodes.now ≤ 2 ^ 32 }
    ensures { IfOk result (λ found. found.items ≡ differences_of (recount_of inodes.now names.now) records.now) }
{
    let counts = recount(alloc, inodes, names)?;
    compare(alloc, &counts, records)
}
