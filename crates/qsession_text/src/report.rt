//! The quota report.
ghost use Rattle.std.specs.Prelude.{◌≡◌, Some, IfOk};
ghost use Rattle.qaudit.specs.Reports.{report_text};
ghost use Rattle.qaudit_checks.specs.OwnRows.{record_rows};
ghost use Rattle.qsession.specs.Holdings.{holding_of};
ghost use Rattle.qsession.specs.Tellings.{IsPutIn, UnlessMemory};
ghost use Rattle.qsession_text.specs.Reports.{report_in};

use crate::buffer::put_text;
use qaudit::put_report;
use qplain::NoMemory;
use qsession::{Fault, Kept};
use qstore::Store;
use std::alloc::Global;

/// The report of a store as of a moment, in seconds.
fn report_text(alloc: Global, store: &Store, moment: u64) -> Result<Vec<u8>, NoMemory>
    ensures { IfOk result (λ text. text.items ≡ report_text (record_rows store.now.state) moment) }
{
    let rows = store.record_rows()?;
    let mut text = Vec::new(alloc);
    match put_report(&mut text, &rows, moment) {
        Ok(()) => Ok(text),
        Err(_) => Err(NoMemory),
    }
}

/// Writes the report of what is kept as of a moment at the front of the buffer, and tells how long it is.
///
/// Returns 0; 65 for want of memory, 69 where the buffer has too few bytes.
pub fn tell_report(
    alloc: Global,
    kept: &Kept,
    moment: u64,
    buffer: &mut [u8],
    len: &mut usize,
) -> u32
    ensures { UnlessMemory (Some (holding_of kept.now)) result
        (IsPutIn (report_in (Some (holding_of kept.now)) moment) buffer.new len.new result) }
{
    match report_text(alloc, kept.store(), moment) {
        Ok(text) => put_text(&text, buffer, len),
        Err(_) => Fault::Memory.code(),
    }
}
