//! The rows of a tree, for audits, and its inodes and names, for who lists them.
ghost use Rattle.std.specs.Prelude.{◌≡◌, ◌<◌, ◌^◌, length, map, All, IfOk, IsPermutation, OnOk};
ghost use Rattle.std.specs.Ordering.{nat_cmp};
ghost use Rattle.std.specs.List.Sorted.{IsStrictlySortedBy};
ghost use Rattle.std.specs.Map.{keys_of};
ghost use Rattle.qplain.specs.State.{name_key_cmp};
ghost use Rattle.qstore_tree.specs.Listed.{name_entry, node_entry};
ghost use Rattle.qstore_tree.specs.Tree.{kept_row, name_row_of, names_in_all};

use crate::name::Name;
use crate::names::Names;
use crate::node::Node;
use crate::tree::Tree;
use qplain::NoMemory;
use qrules::{InodeRow, NameRow};
use std::alloc::Global;

impl Tree {
    /// A row for each inode, by number. O(n log n), O(n) where none was taken out, and for audits alone.
    pub fn inode_rows(&self, alloc: Global) -> Result<Vec<InodeRow>, NoMemory>
        requires { All (λ e. length e.1.file.allocated < 2 ^ 32) self.now.inodes }
        ensures rows { IfOk result (λ rows. rows.items ≡ map (kept_row self.now.links) self.now.inodes) }
        ensures by_number { OnOk result (IsStrictlySortedBy nat_cmp (keys_of self.now.inodes)) }
    {
        let mut rows = Vec::with_capacity(alloc, self.nodes.len())?;
        for (number, node) in self.nodes.iter() {
            rows.push(node.row(*number))?;
        }
        rows.sort_unstable_by_key(|row| row.ino);
        Ok(rows)
    }

    /// The inodes by number, borrowed. O(n log n), O(n) where none was taken out.
    pub fn nodes(&self, alloc: Global) -> Result<Vec<(u64, &Node)>, NoMemory>
        ensures nodes { IfOk result (λ nodes. map node_entry nodes.items ≡ self.now.inodes) }
        ensures by_number { OnOk result (IsStrictlySortedBy nat_cmp (keys_of self.now.inodes)) }
    {
        let mut nodes = Vec::with_capacity(alloc, self.nodes.len())?;
        for (number, node) in self.nodes.iter() {
            nodes.push((*number, node))?;
        }
        nodes.sort_unstable_by_key(|node| node.0);
        Ok(nodes)
    }

    /// A row for each name, by directory, then by name. O(n log n), and for audits alone.
    pub fn name_rows(&self, alloc: Global) -> Result<Vec<NameRow>, NoMemory>
        ensures rows { IfOk result (λ rows. rows.items ≡ map name_row_of self.now.names) }
        ensures by_key { OnOk result (IsStrictlySortedBy name_key_cmp (keys_of self.now.names)) }
    {
        let directories = self.directories(alloc)?;
        let mut rows = Vec::new(alloc);
        for (dir, names) in directories.iter() {
            names.push_rows(alloc, *dir, &mut rows)?;
        }
        Ok(rows)
    }

    /// The names, by directory, then by name, borrowed. O(n log n).
    pub fn names(&self, alloc: Global) -> Result<Vec<Name<'_>>, NoMemory>
        ensures names { IfOk result (λ names. map name_entry names.items ≡ self.now.names) }
        ensures by_key { OnOk result (IsStrictlySortedBy name_key_cmp (keys_of self.now.names)) }
    {
        let directories = self.directories(alloc)?;
        let mut all = Vec::new(alloc);
        for (dir, names) in directories.iter() {
            names.push_names(alloc, *dir, &mut all)?;
        }
        Ok(all)
    }

    /// The directories by number, borrowed, each with its names. O(n), and a sort of the directories.
    fn directories(&self, alloc: Global) -> Result<Vec<(u64, &Names)>, NoMemory>
        ensures names { IfOk result (λ directories. names_in_all directories.items ≡ self.now.names) }
        ensures by_key { OnOk result (IsStrictlySortedBy name_key_cmp (keys_of self.now.names)) }
    {
        let mut directories = Vec::new(alloc);
        for (number, node) in self.nodes.iter() {
            let Some(names) = node.names() else {
                continue;
            };
            directories.push((*number, names))?;
        }
        directories.sort_unstable_by_key(|directory| directory.0);
        Ok(directories)
    }

    /// A row for each name, in any order. O(n), and for audits alone.
    pub fn name_rows_unordered(&self, alloc: Global) -> Result<Vec<NameRow>, NoMemory>
        ensures rows { IfOk result (λ rows. IsPermutation (map name_row_of self.now.names) rows.items) }
        ensures each_once { OnOk result (IsStrictlySortedBy name_key_cmp (keys_of self.now.names)) }
    {
        let mut rows = Vec::new(alloc);
        for (number, node) in self.nodes.iter() {
            node.push_names_unordered(*number, &mut rows)?;
        }
        Ok(rows)
    }
}
