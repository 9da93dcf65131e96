//! Cutting the rows of a file off at a size.
ghost use Rattle.std.specs.Prelude.{◌≡◌, true, ℕ, ◌+◌, ◌-◌, ◌*◌, ◌/◌, ◌<◌, ◌≤◌, ◌^◌, ◌&&◌, nat_lt, None};
ghost use Rattle.std.specs.Prelude.{IsSome, IfSome, IfNone};
ghost use Rattle.std.specs.Ordering.{nat_cmp};
ghost use Rattle.std.specs.BTreeMap as tree;
ghost use Rattle.std.specs.BTreeMap.{btree_map_len};
ghost use Rattle.qblocks.specs.declared.block.TheConstants.{BLOCK_SIZE};
ghost use Rattle.qblocks.specs.Row.{CutsOff, LosesBlocks, row_filled, row_byte};
ghost use Rattle.qblocks.specs.Rows.{AreRows, ChangesRow, Frees, HasFrom, IsThereIfUsed};
ghost use Rattle.qblocks.specs.Rows.{has_row, row_of, filled, byte_at};

use crate::block::BLOCK_SIZE;
use crate::next::next_row;
use crate::room::forget_row;
use crate::row::{self, ROW_BLOCKS, ROW_SIZE};
use crate::rows::Rows;

/// Takes out the last row if its number is `keep` or above, and gives the number of its blocks.
fn pop_row(rows: &mut Rows, keep: u64) -> Option<u64>
    ensures len { IsSome result → btree_map_len rows.new + 1 ≡ btree_map_len rows.old }
    ensures before { (r : ℕ) → r < keep
        → tree.get nat_cmp rows.new r ≡ tree.get nat_cmp rows.old r }
    ensures frees { IfSome result (Frees rows.old rows.new) }
    ensures same { IfNone result
        ((r : ℕ) → tree.get nat_cmp rows.new r ≡ tree.get nat_cmp rows.old r) }
    ensures none { IfNone result
        ((r : ℕ) → keep ≤ r → tree.get nat_cmp rows.old r ≡ None) }
{
    let Some((r, _)) = rows.last_key_value() else {
        return None;
    };
    if *r < keep {
        return None;
    }
    match rows.pop_last() {
        Some((_, row)) => Some(ROW_BLOCKS - row::missing(&row, 0, ROW_BLOCKS)),
        None => None,
    }
}

/// Takes out the rows from `keep` on, and gives the number of their blocks.
fn pop_rows(rows: &mut Rows, keep: u64) -> u64
    requires { (r : ℕ) → has_row rows.old r ≡ true → r < 2 ^ 28 }
    ensures before { (r : ℕ) → r < keep
        → tree.get nat_cmp rows.new r ≡ tree.get nat_cmp rows.old r }
    ensures none { (r : ℕ) → keep ≤ r → tree.get nat_cmp rows.new r ≡ None }
    ensures frees { Frees rows.old rows.new result }
    ensures bound { result ≤ 2 ^ 32 }
{
    let mut freed = 0;
    while let Some(blocks) = pop_row(rows, keep) {
        freed += blocks;
    }
    freed
}

/// Cuts the row `r` off at `at`, and gives how many blocks were taken out.
fn cut_row(rows: &mut Rows, r: u64, at: u64) -> u64
    requires { at < ROW_SIZE }
    ensures cuts { CutsOff (row_byte (row_of rows.old r)) (row_byte (row_of rows.new r)) at }
    ensures filled { (j : ℕ) → row_filled (row_of rows.new r) j
        ≡ (row_filled (row_of rows.old r) j && nat_lt (j * BLOCK_SIZE) at) }
    ensures freed { LosesBlocks (row_of rows.old r) (row_of rows.new r) result }
    ensures bound { result ≤ ROW_BLOCKS }
    ensures only { ChangesRow rows.old rows.new r }
{
    match rows.get_mut(&r) {
        Some(row) => row::cut(row, at),
        None => 0,
    }
}

/// Forgets the bytes from `size` on, takes out the blocks that begin there or after, and gives their
/// number.
pub(crate) fn cut(rows: &mut Rows, size: u64) -> u64
    requires size { size ≤ 2 ^ 40 }
    requires rows { AreRows rows.old }
    ensures cuts { CutsOff (byte_at rows.old) (byte_at rows.new) size }
    ensures filled { (k : ℕ) → filled rows.new k
        ≡ (filled rows.old k && nat_lt (k * BLOCK_SIZE) size) }
    ensures used { (r : ℕ) → IsThereIfUsed rows.new r }
    ensures frees { Frees rows.old rows.new result }
{
    let freed = pop_rows(rows, (size + ROW_SIZE - 1) / ROW_SIZE);
    let cut = cut_row(rows, size / ROW_SIZE, size % ROW_SIZE);
    forget_row(rows, size / ROW_SIZE);
    freed + cut
}

/// How many blocks begin at `size` or after.
pub(crate) fn freed_by(rows: &Rows, size: u64) -> u64
    requires size { size ≤ 2 ^ 40 }
    requires bound { (r : ℕ) → has_row rows.now r ≡ true → r < 2 ^ 28 }
    ensures { HasFrom rows.now ((size + BLOCK_SIZE - 1) / BLOCK_SIZE) result }
{
    let mut at = (size + BLOCK_SIZE - 1) / BLOCK_SIZE;
    let mut freed = 0;
    while let Some((r, row)) = next_row(rows, at / ROW_BLOCKS) {
        let first = at.max(r * ROW_BLOCKS) - r * ROW_BLOCKS;
        freed += ROW_BLOCKS - first - row::missing(row, first, ROW_BLOCKS);
        at = (r + 1) * ROW_BLOCKS;
    }
    freed
}
