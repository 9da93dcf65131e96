//! Room for a write: the rows that it needs, made beforehand.
ghost use Rattle.std.specs.Prelude.{◌≡◌, ◌≢◌, true, false, ℕ, ◌≤◌, OnOk};
ghost use Rattle.qblocks.specs.declared.row.TheConstants.{ROW_BLOCKS};
ghost use Rattle.qblocks.specs.Row.{gaps, in_span, row_filled};
ghost use Rattle.qblocks.specs.Rows.{SameBlocks, IsThereIfUsed, has_row, row_of};

use crate::row::{self, empty_row};
use crate::rows::Rows;
use std::alloc::{AllocError as NoMemory, Global};
use std::collections::btree_map::Entry;

/// Makes the row `r` if it is not there.
fn make_row(rows: &mut Rows, r: u64, alloc: Global) -> Result<(), NoMemory>
    ensures same { SameBlocks rows.old rows.new }
    ensures made { OnOk result (has_row rows.new r ≡ true) }
    ensures others { (q : ℕ) → q ≢ r → has_row rows.new q ≡ has_row rows.old q }
{
    if let Entry::Vacant(place) = rows.entry(r)? {
        let _row = place.insert(empty_row(alloc)?);
    }
    Ok(())
}

/// Makes the rows from `first` up to `end` that are not there.
pub(crate) fn make_rows(
    rows: &mut Rows,
    first: u64,
    end: u64,
    alloc: Global,
) -> Result<(), NoMemory>
    requires { first ≤ end }
    ensures same { SameBlocks rows.old rows.new }
    ensures made { OnOk result
        ((r : ℕ) → in_span first end r ≡ true → has_row rows.new r ≡ true) }
    ensures others { (r : ℕ) → in_span first end r ≡ false
        → has_row rows.new r ≡ has_row rows.old r }
{
    for r in first..end {
        make_row(rows, r, alloc)?;
    }
    Ok(())
}

/// Whether the row `r` is there and holds no block.
fn is_vacant(rows: &Rows, r: u64) -> bool
    ensures vacant { result ≡ true → gaps (row_filled (row_of rows.now r)) 0 ROW_BLOCKS ≡ ROW_BLOCKS }
    ensures used { result ≡ false → IsThereIfUsed rows.now r }
{
    match rows.get(&r) {
        Some(row) => row::is_vacant(row),
        None => false,
    }
}

/// Takes out the row `r` if it holds no block.
pub(crate) fn forget_row(rows: &mut Rows, r: u64)
    ensures same { SameBlocks rows.old rows.new }
    ensures used { IsThereIfUsed rows.new r }
    ensures others { (q : ℕ) → q ≢ r → has_row rows.new q ≡ has_row rows.old q }
{
    if is_vacant(rows, r) {
        let _row = rows.remove(&r);
    }
}

/// Takes out the rows from `first` up to `end` that hold no block.
pub(crate) fn forget_rows(rows: &mut Rows, first: u64, end: u64)
    requires { first ≤ end }
    ensures same { SameBlocks rows.old rows.new }
    ensures used { (r : ℕ) → in_span first end r ≡ true → IsThereIfUsed rows.new r }
    ensures others { (r : ℕ) → in_span first end r ≡ false
        → has_row rows.new r ≡ has_row rows.old r }
{
    for r in first..end {
        forget_row(rows, r);
    }
}
