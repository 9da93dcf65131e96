//! What all rows of an image together show not to be so.
ghost use Rattle.std.specs.Prelude.{◌≡◌, ◌+◌, ◌<◌, ◌≤◌, ◌^◌, ◌++◌, ◌&&◌, nat_le, List, None, All, length, map, sum_by};
ghost use Rattle.std.specs.Prelude.{IfOk};
ghost use Rattle.std.specs.BTreeMap.{is_at};
ghost use Rattle.std.specs.Map.{lookup};
ghost use Rattle.std.specs.Ordering.{nat_cmp};
ghost use Rattle.qrules.specs.declared.kind.Kind.{Kind};
ghost use Rattle.qplain.specs.declared.setup.TheConstants.{MAX_BLOCKS, MAX_INODES};
ghost use Rattle.qplain.specs.State.{State, is_dir};
ghost use Rattle.qplain_image.specs.Parts.{HolderPart};
ghost use Rattle.qstore_tree.specs.TreeOf.{IsTreeOf};
ghost use Rattle.qstore_open.specs.Counting.{AreCounted, AreCountsOf, FindsTree, IsOpened, goes_on, rows_line};
ghost use Rattle.qstore_open.specs.Ending.{end_line, records_line};
ghost use Rattle.qstore_open.specs.Told.{part_of, parts_of};

use crate::bounds::Bounds;
use crate::reach::Reach;
use crate::records::{ToldRecord, ToldRecords};
use crate::uses::is_told_right;
use qaudit::{CountRow, Counts, recount};
use qplain::{NoMemory, ROOT};
use qrules::InodeRow;
use qstore_tree::Tree;
use std::alloc::Global;

/// The line of a row that is not so.
#[derive(Clone, Copy, Debug)]
pub(crate) struct WrongLine {
    line: u64,
}

/// The line behind these records, of which the first stands in this line, if all of them are told right.
fn right_records(counts: &[CountRow], records: &[ToldRecord], from: u64) -> Result<u64, WrongLine>
    requires { from + length records.now < 2 ^ 64 }
    ensures behind { IfOk result (λ behind. behind ≡ from + length records.now) }
    ensures lines { (S : State) (kind : Kind) (rest : List HolderPart) → AreCountsOf S kind counts.now
        → records_line S from (map (part_of kind) records.now ++ rest)
        ≡ goes_on (λ behind. records_line S behind rest) result }
{
    let mut line = from;
    for record in records {
        if !is_told_right(counts, record) {
            return Err(WrongLine { line });
        }
        line += 1;
    }
    Ok(line)
}

/// The line behind these inodes and their blocks, of which the first stands in this line, if names lead up from each
/// to the root.
fn right_inodes(inodes: &[InodeRow], reach: &Reach, from: u64) -> Result<u64, WrongLine>
    requires { from + length inodes.now + sum_by (λ row. row.blocks) inodes.now < 2 ^ 64 }
    ensures { rows_line reach.now from inodes.now ≡ goes_on (λ behind. None) result }
{
    let mut line = from;
    for inode in inodes {
        if !reach.has(inode.ino) {
            return Err(WrongLine { line });
        }
        line += 1 + inode.blocks as u64;
    }
    Ok(line)
}

/// The line behind all records and inodes, if all of them are right.
fn right_rows(
    counts: &Counts,
    records: &ToldRecords,
    inodes: &[InodeRow],
    reach: &Reach,
) -> Result<u64, WrongLine>
    requires { length inodes.now + sum_by (λ row. row.blocks) inodes.now < 2 ^ 32 }
    ensures { (S : State) → AreCounted S counts.now inodes.now → FindsTree S reach.now
        → records_line S 4 (parts_of records.now) ≡ goes_on (λ behind. None) result }
{
    let groups = right_records(counts.users.as_slice(), &records.users, 4)?;
    let projects = right_records(counts.groups.as_slice(), &records.groups, groups)?;
    let behind = right_records(counts.projects.as_slice(), &records.projects, projects)?;
    right_inodes(inodes, reach, behind)
}

/// The blocks are within the bounds, and the root is there.
fn are_within(counts: &Counts, bounds: &Bounds, tree: &Tree) -> bool
    ensures { result ≡ (nat_le counts.now.blocks bounds.now.size
        && is_dir (lookup (is_at (nat_cmp ROOT)) tree.now.inodes)) }
{
    counts.blocks <= bounds.size && tree.names_in(ROOT).is_some()
}

/// The line of the first record or inode, if there is one, that is not right.
fn wrong_line(
    alloc: Global,
    counts: &Counts,
    records: &ToldRecords,
    inodes: &[InodeRow],
    tree: &Tree,
) -> Result<Option<u64>, NoMemory>
    requires { length inodes.now + sum_by (λ row. row.blocks) inodes.now < 2 ^ 32 }
    ensures { (S : State) → IsTreeOf S tree.now → AreCounted S counts.now inodes.now
        → IfOk result (λ line. line ≡ records_line S 4 (parts_of records.now)) }
{
    let reach = Reach::of(alloc, tree)?;
    match right_rows(counts, records, inodes, &reach) {
        Ok(_) => Ok(None),
        Err(wrong) => Ok(Some(wrong.line)),
    }
}

/// The line of the first row, if there is one, that all rows together show not to be so. O(n log n).
pub(crate) fn end_line(
    alloc: Global,
    bounds: &Bounds,
    records: &ToldRecords,
    tree: &Tree,
) -> Result<Option<u64>, NoMemory>
    requires size { bounds.now.size ≤ MAX_BLOCKS }
    requires most { bounds.now.most_inodes ≤ MAX_INODES }
    requires blocks { All (λ e. length e.1.file.allocated < 2 ^ 32) tree.now.inodes }
    ensures { (S : State) → IsOpened S bounds.now tree.now
        → IfOk result (λ line. line ≡ end_line S (parts_of records.now)) }
{
    let inodes = tree.inode_rows(alloc)?;
    if inodes.len() as u64 > bounds.most_inodes {
        return Ok(Some(2));
    }
    let counts = recount(alloc, &inodes, &[])?;
    if !are_within(&counts, bounds, tree) {
        return Ok(Some(2));
    }
    wrong_line(alloc, &counts, records, &inodes, tree)
}
