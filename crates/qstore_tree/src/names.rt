//! The names in one directory.
ghost use Rattle.std.specs.Prelude.{◌≡◌, ◌<◌, ◌≤◌, ◌==◌, ◌++◌, [], length, map, string_bytes, None, IfOk};
ghost use Rattle.std.specs.Prelude.{IsPermutation, OnOk};
ghost use Rattle.std.specs.Ordering.{nat_cmp};
ghost use Rattle.std.specs.Cmp.Lexicographic.{slice_cmp};
ghost use Rattle.std.specs.BTreeMap.{insert_entry, is_at};
ghost use Rattle.std.specs.List.Sorted.{IsStrictlySortedBy};
ghost use Rattle.std.specs.Map.{keys_of, lookup};
ghost use Rattle.qstore_tree.specs.InOrder.{in_order};
ghost use Rattle.qstore_tree.specs.Listed.{name_entry};
ghost use Rattle.qstore_tree.specs.Names.{LosesName, borrowed_entry, name_row};
ghost use Rattle.qstore_tree.specs.Tree.{keyed};

use crate::name::Name;
use crate::name_hasher::NameHasher;
use qplain::NoMemory;
use qrules::NameRow;
use std::alloc::Global;
use std::collections::HashMap;
use std::marker::Model;

/// The names in a directory, each with the number of the inode that it leads to.
///
/// Contracts see them in the order of their bytes, and beside them how many more there is room for.
#[derive(Drop)]
pub struct Names {
    table: HashMap<String, u64, NameHasher>,
}

impl Model for Names {
    ghost use Rattle.qstore_tree.specs.Names.{RoomyNames};

    ghost Value = { RoomyNames };

    ghost use Rattle.std.specs.HashMap.{spare};
    ghost use Rattle.qstore_tree.specs.Names.{names_of};

    ghost view = { λ n. record { entries = names_of n.table.entries; room = spare n.table } };
}

impl Names {
    /// No names. It takes no memory. The hashes of names begin at the seed, on which no answer depends.
    pub(crate) fn new(alloc: Global, seed: u64) -> Names
        ensures { result.entries ≡ [] }
    {
        Names {
            table: HashMap::with_hasher(alloc, NameHasher::new(seed)),
        }
    }

    /// The inode that a name leads to.
    pub fn get(&self, name: &str) -> Option<u64>
        ensures { result ≡ lookup (is_at (slice_cmp nat_cmp name.now)) self.now.entries }
    {
        self.table.get(name).copied()
    }

    /// No name is here. O(1).
    pub(crate) fn is_empty(&self) -> bool
        ensures { result ≡ (length self.now.entries == 0) }
    {
        self.table.is_empty()
    }

    /// Makes room for one more name.
    pub(crate) fn make_room(&mut self) -> Result<(), NoMemory>
        ensures same { self.new.entries ≡ self.old.entries }
        ensures room { OnOk result (0 < self.new.room) }
    {
        self.table.reserve(1)
    }

    /// Puts a new name, for which there is room. It takes no memory and always succeeds.
    pub(crate) fn put(&mut self, name: String, number: u64)
        requires room { 0 < self.old.room }
        requires absent { lookup (is_at (slice_cmp nat_cmp (string_bytes name))) self.old.entries ≡ None }
        ensures { self.new.entries ≡ insert_entry (slice_cmp nat_cmp) self.old.entries (string_bytes name) number }
    {
        match self.table.insert(name, number) {
            Ok(_) => {}
            Err(_) => unreachable!(),
        }
    }

    /// Takes this name out, if it is there. There is no less room then.
    pub(crate) fn take(&mut self, name: &str)
        ensures names { LosesName name.now self.old.entries self.new.entries }
        ensures room { self.old.room ≤ self.new.room }
    {
        self.table.remove(name);
    }

    /// Appends a row for each of these names, which are in this directory, in the order of their bytes.
    /// O(n log n), and for audits alone.
    pub(crate) fn push_rows(
        &self,
        alloc: Global,
        dir: u64,
        rows: &mut Vec<NameRow>,
    ) -> Result<(), NoMemory>
        ensures { OnOk result (rows.new.items
            ≡ rows.old.items ++ map (name_row dir) (in_order (slice_cmp nat_cmp) self.now.entries)) }
    {
        let names = self.by_bytes(alloc)?;
        for name in names.iter() {
            rows.push(NameRow { dir, ino: name.1 })?;
        }
        Ok(())
    }

    /// Appends each of these names, which are in this directory, borrowed, in the order of their bytes. O(n log n).
    pub(crate) fn push_names<'a>(
        &'a self,
        alloc: Global,
        dir: u64,
        all: &mut Vec<Name<'a>>,
    ) -> Result<(), NoMemory>
        ensures { OnOk result (map name_entry all.new.items
            ≡ map name_entry all.old.items ++ keyed dir (in_order (slice_cmp nat_cmp) self.now.entries)) }
    {
        let names = self.by_bytes(alloc)?;
        for name in names.iter() {
            all.push(Name {
                dir,
                text: name.0.as_str(),
                ino: name.1,
            })?;
        }
        Ok(())
    }

    /// The names in the order of their bytes, borrowed, each with the number that it leads to. O(n log n).
    fn by_bytes(&self, alloc: Global) -> Result<Vec<(&String, u64)>, NoMemory>
        ensures { IfOk result (λ names.
            map borrowed_entry names.items ≡ in_order (slice_cmp nat_cmp) self.now.entries) }
    {
        let mut names = Vec::with_capacity(alloc, self.table.len())?;
        for (name, number) in self.table.iter() {
            names.push((name, *number))?;
        }
        names.sort_unstable();
        Ok(names)
    }

    /// Appends a row for each of these names, which are in this directory, in any order. O(n), and for audits alone.
    pub(crate) fn push_rows_unordered(
        &self,
        dir: u64,
        rows: &mut Vec<NameRow>,
    ) -> Result<(), NoMemory>
        ensures rows { OnOk result
            (IsPermutation (rows.old.items ++ map (name_row dir) self.now.entries) rows.new.items) }
        ensures in_order { OnOk result
            (IsStrictlySortedBy (slice_cmp nat_cmp) (keys_of self.now.entries)) }
    {
        for ino in self.table.values() {
            rows.push(NameRow { dir, ino: *ino })?;
        }
        Ok(())
    }
}
