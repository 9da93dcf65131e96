//! What the rows of each owner come to.
ghost use Rattle.std.specs.Prelude.{◌≡◌, ◌<◌, ◌+◌, ◌==◌, ◌^◌, ℕ, if◌then◌else◌, IfOk, OnOk, sum_by};
ghost use Rattle.std.specs.BTreeMap.{keys};
ghost use Rattle.std.specs.BTreeSet.{insert_key};
ghost use Rattle.std.specs.Ordering.{nat_cmp};
ghost use Rattle.qaudit.specs.Differences.{no_use};
ghost use Rattle.qaudit.specs.Owners.{counted_at, counted_with, keys_with, with_owner, with_row, with_run};
ghost use Rattle.qrules.specs.Kinds.{is_id};
ghost use Rattle.qaudit.specs.Recount.{counts_by, owner_of};

use crate::{CountRow, NoMemory};
use qrules::{InodeRow, Kind};
use std::alloc::Global;
use std::collections::BTreeMap;

/// Whose a row is. It may have no project.
fn owner_of(kind: Kind, row: &InodeRow) -> Option<u32>
    ensures { result ≡ owner_of kind row.now }
{
    match kind {
        Kind::User => Some(row.uid),
        Kind::Group => Some(row.gid),
        Kind::Project => row.project,
    }
}

/// The count of an owner of no rows.
fn no_count(id: u32) -> CountRow
    ensures { result ≡ no_use id }
{
    CountRow {
        id,
        blocks: 0,
        inodes: 0,
    }
}

/// What is counted of an owner so far: nothing where no row of it was met.
pub(crate) fn count_at(counts: &BTreeMap<u32, CountRow>, id: u32) -> CountRow
    ensures { result ≡ counted_at counts.now id }
{
    match counts.get(&id) {
        Some(count) => *count,
        None => no_count(id),
    }
}

/// The count of an owner's first row.
fn first_count(id: u32, blocks: u32) -> CountRow
    ensures { result ≡ with_row (no_use id) blocks }
{
    CountRow {
        id,
        blocks: blocks as u64,
        inodes: 1,
    }
}

/// Adds a run of an owner's rows to what is counted.
fn add_rows(counts: &mut BTreeMap<u32, CountRow>, run: CountRow) -> Result<(), NoMemory>
    requires blocks { (counted_at counts.old run.id).blocks + run.blocks < 2 ^ 64 }
    requires inodes { (counted_at counts.old run.id).inodes + run.inodes < 2 ^ 64 }
    ensures keys { OnOk result (keys counts.new ≡ insert_key nat_cmp (keys counts.old) run.id) }
    ensures counts { OnOk result ((q : ℕ) → counted_at counts.new q
        ≡ (if run.id == q then with_run (counted_at counts.old q) run else counted_at counts.old q)) }
{
    match counts.get_mut(&run.id) {
        Some(count) => {
            count.blocks += run.blocks;
            count.inodes += run.inodes;
        }
        None => {
            counts.insert(run.id, run)?;
        }
    }
    Ok(())
}

/// Adds a run to what is counted, unless it has no rows.
fn add_run(counts: &mut BTreeMap<u32, CountRow>, run: CountRow) -> Result<(), NoMemory>
    requires blocks { (counted_with counts.old run run.id).blocks < 2 ^ 64 }
    requires inodes { (counted_with counts.old run run.id).inodes < 2 ^ 64 }
    ensures keys { OnOk result (keys counts.new ≡ keys_with counts.old run) }
    ensures counts { OnOk result ((q : ℕ) → counted_at counts.new q ≡ counted_with counts.old run q) }
{
    if run.inodes == 0 {
        return Ok(());
    }
    add_rows(counts, run)
}

/// Counts one more row of an owner: in the run, where the row before it was the same owner's, so that mostly no owner
/// is looked up.
fn count_row(
    counts: &mut BTreeMap<u32, CountRow>,
    run: &mut CountRow,
    id: u32,
    blocks: u32,
) -> Result<(), NoMemory>
    requires blocks { (q : ℕ) → (counted_with counts.old run.old q).blocks + blocks < 2 ^ 64 }
    requires inodes { (q : ℕ) → (counted_with counts.old run.old q).inodes + 1 < 2 ^ 64 }
    ensures keys { OnOk result (keys_with counts.new run.new ≡ insert_key nat_cmp (keys_with counts.old run.old) id) }
    ensures counts { OnOk result ((q : ℕ) → counted_with counts.new run.new q ≡ (if id == q
        then with_row (counted_with counts.old run.old q) blocks else counted_with counts.old run.old q)) }
{
    if run.inodes > 0 && run.id == id {
        run.blocks += blocks as u64;
        run.inodes += 1;
        return Ok(());
    }
    add_run(counts, *run)?;
    *run = first_count(id, blocks);
    Ok(())
}

/// Counts one more row, if it has an owner.
fn count_owned(
    counts: &mut BTreeMap<u32, CountRow>,
    run: &mut CountRow,
    owner: Option<u32>,
    blocks: u32,
) -> Result<(), NoMemory>
    requires blocks { (q : ℕ) → (counted_with counts.old run.old q).blocks + blocks < 2 ^ 64 }
    requires inodes { (q : ℕ) → (counted_with counts.old run.old q).inodes + 1 < 2 ^ 64 }
    ensures keys { OnOk result (keys_with counts.new run.new ≡ with_owner (keys_with counts.old run.old) owner) }
    ensures counts { OnOk result ((q : ℕ) → counted_with counts.new run.new q ≡ (if is_id q owner
        then with_row (counted_with counts.old run.old q) blocks else counted_with counts.old run.old q)) }
{
    match owner {
        Some(id) => count_row(counts, run, id, blocks),
        None => Ok(()),
    }
}

/// What each owner's rows come to, by id.
pub(crate) fn counts_by(
    alloc: Global,
    kind: Kind,
    inodes: &[InodeRow],
) -> Result<Vec<CountRow>, NoMemory>
    requires fits { sum_by (λ row. row.blocks) inodes.now < 2 ^ 64 }
    ensures { IfOk result (λ counts. counts.items ≡ counts_by kind inodes.now) }
{
    let mut counts = BTreeMap::new(alloc);
    let mut run = no_count(0);
    for row in inodes {
        count_owned(&mut counts, &mut run, owner_of(kind, row), row.blocks)?;
    }
    add_run(&mut counts, run)?;
    let mut rows = Vec::with_capacity(alloc, counts.len())?;
    for (_, row) in &counts {
        rows.push(*row)?;
    }
    Ok(rows)
}
