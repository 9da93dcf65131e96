//! The audit of a store.
ghost use Rattle.std.specs.Prelude.{◌≡◌, [], IfOk};
ghost use Rattle.qaudit_checks.specs.OwnRows.{differences_in, record_rows};

use qaudit::{Difference, compare, recount};
use qplain::NoMemory;
use qrules::RecordRow;
use qstore::Store;
use std::alloc::Global;

/// Recounts the store's own rows, and compares them with its records (quotacheck(8)): it finds nothing.
///
/// O((i + n) log (i + n)) for i inodes and n names. It may be out of memory, and leaves nothing made then.
pub fn audit(
    alloc: Global,
    store: &Store,
    records: &[RecordRow],
) -> Result<Vec<Difference>, NoMemory>
    requires own { records.now ≡ record_rows store.now.state }
    ensures differences { IfOk result (λ found. found.items ≡ differences_in store.now.state) }
    ensures none { IfOk result (λ found. found.items ≡ []) }
{
    // The blocks of a lawful state fit 64 bits, so those of its rows do.
    store.always_lawful();
    let inodes = store.inode_rows()?;
    let names = store.name_rows_unordered()?;
    let counts = recount(alloc, &inodes, &names)?;
    compare(alloc, &counts, records)
}
