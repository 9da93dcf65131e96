//! The next row of a file, and its next block, from an index on.
ghost use Rattle.std.specs.Prelude.{◌≡◌, true, ℕ, ◌<◌, ◌^◌, Some, option_map, IfSome};
ghost use Rattle.std.specs.Ordering.{nat_cmp};
ghost use Rattle.std.specs.BTreeMap as tree;
ghost use Rattle.qblocks.specs.Row.{IsFirstFrom};
ghost use Rattle.qblocks.specs.Rows.{IsNextRow, filled, has_row};

use crate::row::{self, ROW_BLOCKS, Row};
use crate::rows::Rows;

/// The first row from `from` on, with its number, by a search.
fn search_row(rows: &Rows, from: u64) -> Option<(u64, &Box<Row>)>
    ensures next { IsNextRow rows.now from (option_map (λ e. e.0) result) }
    ensures row { IfSome result (λ e. tree.get nat_cmp rows.now e.0 ≡ Some e.1.now) }
{
    match rows.range(from..).next() {
        Some((r, row)) => Some((*r, row)),
        None => None,
    }
}

/// The first row from `from` on, with its number. Where that is the last row, or none, nothing is searched.
pub(crate) fn next_row(rows: &Rows, from: u64) -> Option<(u64, &Box<Row>)>
    ensures next { IsNextRow rows.now from (option_map (λ e. e.0) result) }
    ensures row { IfSome result (λ e. tree.get nat_cmp rows.now e.0 ≡ Some e.1.now) }
{
    let Some((last, row)) = rows.last_key_value() else {
        return None;
    };
    if *last > from {
        return search_row(rows, from);
    }
    if *last == from {
        Some((*last, row))
    } else {
        None
    }
}

/// The index of the first block from `from` on.
pub(crate) fn next_block(rows: &Rows, from: u64) -> Option<u64>
    requires { (r : ℕ) → has_row rows.now r ≡ true → r < 2 ^ 28 }
    ensures { IsFirstFrom (filled rows.now) from result }
{
    let mut at = from;
    while let Some((r, row)) = next_row(rows, at / ROW_BLOCKS) {
        let first = at.max(r * ROW_BLOCKS) - r * ROW_BLOCKS;
        if let Some(slot) = row::next_slot(row, first) {
            return Some(r * ROW_BLOCKS + slot);
        }
        at = (r + 1) * ROW_BLOCKS;
    }
    None
}
