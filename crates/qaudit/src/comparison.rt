//! A recount checked against quota records.
ghost use Rattle.std.specs.Prelude.{◌≡◌, ◌++◌, ◌∷◌, [], ◌==◌, ℕ, not, if◌then◌else◌, IfOk, OnOk, Some, None};
ghost use Rattle.std.specs.BTreeMap.{get};
ghost use Rattle.std.specs.BTreeSet.{contains};
ghost use Rattle.std.specs.List.{find};
ghost use Rattle.std.specs.Option.{option_or};
ghost use Rattle.std.specs.Ordering.{nat_cmp};
ghost use Rattle.qaudit.specs.Differences.{counts_in, differences_of, has_record, is_off, link_differences};
ghost use Rattle.qaudit.specs.Differences.{owners_without_record, use_differences};

use crate::owners::count_at;
use crate::{CountRow, Counts, Difference, LinkRow, NoMemory};
use qrules::{Kind, PrincipalName, RecordRow};
use std::alloc::Global;
use std::collections::{BTreeMap, BTreeSet};

/// An equal row, or out of memory.
fn copy_of(alloc: Global, row: &RecordRow) -> Result<RecordRow, NoMemory>
    ensures { IfOk result (λ copy. copy ≡ row.now) }
{
    let text = String::from_str(alloc, row.name.as_str())?;
    Ok(RecordRow {
        kind: row.kind,
        id: row.id,
        name: PrincipalName::new(text),
        blocks: row.blocks,
        inodes: row.inodes,
        limits: row.limits,
        block_end: row.block_end,
        inode_end: row.inode_end,
    })
}

/// Keeps a count, unless one of its id is kept.
fn keep_first(found: &mut BTreeMap<u32, CountRow>, count: CountRow) -> Result<(), NoMemory>
    ensures { OnOk result ((q : ℕ) → get nat_cmp found.new q
        ≡ option_or (get nat_cmp found.old q) (if count.id == q then Some count else None)) }
{
    if !found.contains_key(&count.id) {
        found.insert(count.id, count)?;
    }
    Ok(())
}

/// The counts by id, of each id the first.
fn by_id(alloc: Global, counts: &[CountRow]) -> Result<BTreeMap<u32, CountRow>, NoMemory>
    ensures { IfOk result (λ found. (q : ℕ) → get nat_cmp found q ≡ find (λ c. c.id == q) counts.now) }
{
    let mut found = BTreeMap::new(alloc);
    for count in counts {
        keep_first(&mut found, *count)?;
    }
    Ok(found)
}

/// The ids of a kind that have a record.
fn recorded(alloc: Global, kind: Kind, records: &[RecordRow]) -> Result<BTreeSet<u32>, NoMemory>
    ensures { IfOk result (λ found. (q : ℕ) → contains nat_cmp found q ≡ has_record kind records.now q) }
{
    let mut found = BTreeSet::new(alloc);
    for record in records {
        if kind.is_same(record.kind) {
            found.insert(record.id)?;
        }
    }
    Ok(found)
}

/// Appends the difference between a record and what is counted of its owner, if they differ.
fn push_use(
    alloc: Global,
    counted: CountRow,
    row: &RecordRow,
    differences: &mut Vec<Difference>,
) -> Result<(), NoMemory>
    ensures { OnOk result (differences.new.items ≡ differences.old.items ++ (if is_off counted row.now
        then Difference.Uses row.now.kind row.now counted ∷ [] else [])) }
{
    if row.blocks != counted.blocks || row.inodes != counted.inodes {
        differences.push(Difference::Uses {
            kind: row.kind,
            row: copy_of(alloc, row)?,
            counted,
        })?;
    }
    Ok(())
}

/// Appends the records that show other uses than were counted.
fn push_uses(
    alloc: Global,
    counts: &Counts,
    records: &[RecordRow],
    differences: &mut Vec<Difference>,
) -> Result<(), NoMemory>
    ensures { OnOk result (differences.new.items ≡ differences.old.items ++ use_differences counts.now records.now) }
{
    let users = by_id(alloc, counts.users.as_slice())?;
    let groups = by_id(alloc, counts.groups.as_slice())?;
    let projects = by_id(alloc, counts.projects.as_slice())?;
    for record in records {
        let counted = match record.kind {
            Kind::User => count_at(&users, record.id),
            Kind::Group => count_at(&groups, record.id),
            Kind::Project => count_at(&projects, record.id),
        };
        push_use(alloc, counted, record, differences)?;
    }
    Ok(())
}

/// Appends the difference of an owner that was counted, if it has no record.
fn push_owner(
    kind: Kind,
    counted: CountRow,
    is_recorded: bool,
    differences: &mut Vec<Difference>,
) -> Result<(), NoMemory>
    ensures { OnOk result (differences.new.items ≡ differences.old.items
        ++ (if not is_recorded then Difference.NoRow kind counted ∷ [] else [])) }
{
    if !is_recorded {
        differences.push(Difference::NoRow { kind, counted })?;
    }
    Ok(())
}

/// The counts of one kind.
fn counts_in(kind: Kind, counts: &Counts) -> &[CountRow]
    ensures { result.now ≡ counts_in kind counts.now }
{
    match kind {
        Kind::User => counts.users.as_slice(),
        Kind::Group => counts.groups.as_slice(),
        Kind::Project => counts.projects.as_slice(),
    }
}

/// Appends the owners of a kind that were counted and have no record.
fn push_owners(
    alloc: Global,
    kind: Kind,
    counts: &Counts,
    records: &[RecordRow],
    differences: &mut Vec<Difference>,
) -> Result<(), NoMemory>
    ensures { OnOk result (differences.new.items
        ≡ differences.old.items ++ owners_without_record kind (counts_in kind counts.now) records.now) }
{
    let recorded = recorded(alloc, kind, records)?;
    let owners = counts_in(kind, counts);
    for counted in owners {
        push_owner(kind, *counted, recorded.contains(&counted.id), differences)?;
    }
    Ok(())
}

/// Appends the inodes that show other links than were counted.
fn push_links(links: &[LinkRow], differences: &mut Vec<Difference>) -> Result<(), NoMemory>
    ensures { OnOk result (differences.new.items ≡ differences.old.items ++ link_differences links.now) }
{
    for link in links {
        if link.recorded != link.counted {
            differences.push(Difference::Links(*link))?;
        }
    }
    Ok(())
}

/// Holds counts against quota records (quotacheck(8)): first the records, in order, that show other blocks or inodes
/// than were counted; then the users, the groups and the projects that own something and have no record; then the
/// inodes whose link counts differ.
///
/// Of an id that stands in several counts the first one counts. O((i + r) log (i + r)) for counts of i rows and r
/// records; an Err is out of memory, and leaves nothing made.
pub fn compare(
    alloc: Global,
    counts: &Counts,
    records: &[RecordRow],
) -> Result<Vec<Difference>, NoMemory>
    ensures { IfOk result (λ differences. differences.items ≡ differences_of counts.now records.now) }
{
    let mut differences = Vec::new(alloc);
    push_uses(alloc, counts, records, &mut differences)?;
    push_owners(alloc, Kind::User, counts, records, &mut differences)?;
    push_owners(alloc, Kind::Group, counts, records, &mut differences)?;
    push_owners(alloc, Kind::Project, counts, records, &mut differences)?;
    push_links(counts.links.as_slice(), &mut differences)?;
    Ok(differences)
}
