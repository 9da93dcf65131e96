//! The link counts of inodes, counted in rows.
ghost use Rattle.std.specs.Prelude.{◌≡◌, ◌<◌, ◌≤◌, ◌^◌, ℕ, IfOk, length, map, slice_index};
ghost use Rattle.std.specs.BTreeSet.{contains};
ghost use Rattle.std.specs.List.Sorted.{IsStrictlyIncreasing};
ghost use Rattle.std.specs.Ordering.{nat_cmp};
ghost use Rattle.qaudit.specs.Recount.{is_directory, link_row, names_to, subdirectories};

use crate::numbers::numbers_of;
use crate::tallies::{add_one, add_where, count_at, no_counts};
use crate::{LinkRow, NoMemory};
use qrules::{InodeRow, NameRow};
use std::alloc::Global;
use std::collections::BTreeSet;

/// How many names lead to each of these numbers.
fn names_by_number(alloc: Global, numbers: &[u64], names: &[NameRow]) -> Result<Vec<u64>, NoMemory>
    requires { IsStrictlyIncreasing numbers.now }
    ensures len { IfOk result (λ counts. length counts.items ≡ length numbers.now) }
    ensures counts { IfOk result (λ counts. (k : ℕ) → k < length numbers.now
        → slice_index counts.items k ≡ names_to names.now (slice_index numbers.now k)) }
{
    let mut counts = no_counts(alloc, numbers)?;
    for name in names {
        add_one(numbers, &mut counts, name.ino);
    }
    Ok(counts)
}

/// The numbers that a row of a directory has.
fn directories(alloc: Global, inodes: &[InodeRow]) -> Result<BTreeSet<u64>, NoMemory>
    ensures { IfOk result (λ found. (q : ℕ) → contains nat_cmp found q ≡ is_directory inodes.now q) }
{
    let mut found = BTreeSet::new(alloc);
    for inode in inodes {
        if inode.dir {
            found.insert(inode.ino)?;
        }
    }
    Ok(found)
}

/// How many names in the directory of each of these numbers lead to directories.
fn subdirectories_by_number(
    alloc: Global,
    numbers: &[u64],
    inodes: &[InodeRow],
    names: &[NameRow],
) -> Result<Vec<u64>, NoMemory>
    requires { IsStrictlyIncreasing numbers.now }
    ensures len { IfOk result (λ counts. length counts.items ≡ length numbers.now) }
    ensures counts { IfOk result (λ counts. (k : ℕ) → k < length numbers.now
        → slice_index counts.items k ≡ subdirectories inodes.now names.now (slice_index numbers.now k)) }
{
    let directories = directories(alloc, inodes)?;
    let mut counts = no_counts(alloc, numbers)?;
    for name in names {
        let is_counted = directories.contains(&name.ino);
        add_where(numbers, &mut counts, name.dir, is_counted);
    }
    Ok(counts)
}

/// The link counts of the rows, in order, each beside the one that its row shows.
pub(crate) fn link_rows(
    alloc: Global,
    inodes: &[InodeRow],
    names: &[NameRow],
) -> Result<Vec<LinkRow>, NoMemory>
    ensures { IfOk result (λ rows. rows.items ≡ map (link_row inodes.now names.now) inodes.now) }
{
    let numbers = numbers_of(alloc, inodes)?;
    let names_to = names_by_number(alloc, &numbers, names)?;
    let subdirectories = subdirectories_by_number(alloc, &numbers, inodes, names)?;
    let mut rows = Vec::with_capacity(alloc, inodes.len())?;
    for inode in inodes {
        let counted = if inode.dir {
            2 + count_at(&numbers, &subdirectories, inode.ino)
        } else {
            count_at(&numbers, &names_to, inode.ino)
        };
        rows.push(LinkRow {
            ino: inode.ino,
            recorded: inode.links,
            counted,
        })?;
    }
    Ok(rows)
}
