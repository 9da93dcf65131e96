//! The audit.
ghost use Rattle.std.specs.Prelude.{◌≡◌, Some, IfOk, length};
ghost use Rattle.qaudit_checks.specs.OwnRows.{differences_in};
ghost use Rattle.qsession.specs.Holdings.{holding_of};
ghost use Rattle.qsession.specs.Tellings.{IsToldAs, UnlessMemory};
ghost use Rattle.qsession_text.specs.Reports.{audit_in};

use qaudit_checks::audit;
use qplain::NoMemory;
use qsession::{Fault, Kept};
use qstore::Store;
use std::alloc::Global;

/// How many differences an audit of a store finds: none.
fn count_differences(alloc: Global, store: &Store) -> Result<u64, NoMemory>
    ensures differences { IfOk result (λ count. count ≡ length (differences_in store.now.state)) }
    ensures none { IfOk result (λ count. count ≡ 0) }
{
    let rows = store.record_rows()?;
    let differences = audit(alloc, store, &rows)?;
    Ok(differences.len() as u64)
}

/// Recounts what is kept, and tells how many differences from its records there are: none.
///
/// Returns 0, or 65 for want of memory.
pub fn tell_audit(alloc: Global, kept: &Kept, differences: &mut u64) -> u32
    ensures differences { UnlessMemory (Some (holding_of kept.now)) result
        (IsToldAs (audit_in (Some (holding_of kept.now))) differences.new result) }
    ensures none { result ≡ 0 → differences.new ≡ 0 }
{
    match count_differences(alloc, kept.store()) {
        Ok(count) => {
            *differences = count;
            0
        }
        Err(_) => Fault::Memory.code(),
    }
}
