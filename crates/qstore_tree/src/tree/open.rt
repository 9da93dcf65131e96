//! A tree that is built of inodes told one by one, as by who reads what another has written down.
ghost use Rattle.std.specs.Prelude.{◌≡◌, ◌<◌, ◌≤◌, [], None, OnErr, OnOk};
ghost use Rattle.std.specs.Ordering.{nat_cmp};
ghost use Rattle.std.specs.BTreeMap.{insert_entry, is_at};
ghost use Rattle.std.specs.Map.{lookup};
ghost use Rattle.qplain.specs.State.{new_directory};
ghost use Rattle.qstore_tree.specs.Nodes.{inode_of, names_in, unfilled_file};
ghost use Rattle.qstore_tree.specs.Tree.{IsSameTree};

use crate::names::Names;
use crate::node::{Content, Node};
use crate::tree::Tree;
use qblocks::{BlockFile, MAX_SIZE};
use qplain::{NoMemory, Owners};
use std::alloc::Global;
use std::collections::HashMap;

impl Tree {
    /// No inode, not even the root, and so no name. It takes no memory. The hashes of names will begin at the seed,
    /// on which no answer depends.
    pub fn empty(alloc: Global, seed: u64) -> Tree
        ensures inodes { result.inodes ≡ [] }
        ensures names { result.names ≡ [] }
        ensures links { result.links ≡ [] }
    {
        Tree {
            nodes: HashMap::new(alloc),
            seed,
        }
    }

    /// Puts a directory, with no name in it, under a new number. None of its links is counted yet: `set_links`.
    ///
    /// O(1) amortized. An Err leaves the tree as it was.
    pub fn open_directory(
        &mut self,
        alloc: Global,
        number: u64,
        owners: Owners,
    ) -> Result<(), NoMemory>
        requires { lookup (is_at (nat_cmp number)) self.old.inodes ≡ None }
        ensures inodes { OnOk result
            (self.new.inodes ≡ insert_entry nat_cmp self.old.inodes number (new_directory owners)) }
        ensures names { self.new.names ≡ self.old.names }
        ensures links { OnOk result (self.new.links ≡ insert_entry nat_cmp self.old.links number 0) }
        ensures err { OnErr result (IsSameTree self.old self.new) }
    {
        let names = Names::new(alloc, self.seed);
        self.open_node(
            number,
            Node {
                owners,
                links: 0,
                content: Content::Directory(names),
            },
        )
    }

    /// Puts a file of this size in bytes, with no block, under a new number. None of its links is counted yet:
    /// `set_links`.
    ///
    /// O(1) amortized. An Err leaves the tree as it was.
    pub fn open_file(
        &mut self,
        alloc: Global,
        number: u64,
        owners: Owners,
        size: u64,
    ) -> Result<(), NoMemory>
        requires absent { lookup (is_at (nat_cmp number)) self.old.inodes ≡ None }
        requires bound { size ≤ MAX_SIZE }
        ensures inodes { OnOk result
            (self.new.inodes ≡ insert_entry nat_cmp self.old.inodes number (unfilled_file owners size)) }
        ensures names { self.new.names ≡ self.old.names }
        ensures links { OnOk result (self.new.links ≡ insert_entry nat_cmp self.old.links number 0) }
        ensures err { OnErr result (IsSameTree self.old self.new) }
    {
        let mut file = BlockFile::new(alloc);
        let _freed = file.truncate(size);
        self.open_node(
            number,
            Node {
                owners,
                links: 0,
                content: Content::File(file),
            },
        )
    }

    /// Puts an inode, with no name in it, under a new number.
    fn open_node(&mut self, number: u64, node: Node) -> Result<(), NoMemory>
        requires absent { lookup (is_at (nat_cmp number)) self.old.inodes ≡ None }
        requires empty { names_in node.content ≡ [] }
        ensures inodes { OnOk result
            (self.new.inodes ≡ insert_entry nat_cmp self.old.inodes number (inode_of node)) }
        ensures names { self.new.names ≡ self.old.names }
        ensures links { OnOk result (self.new.links ≡ insert_entry nat_cmp self.old.links number node.links) }
        ensures err { OnErr result (IsSameTree self.old self.new) }
    {
        self.make_inode_room()?;
        self.put_node(number, node);
        Ok(())
    }

    /// Makes room for one more inode.
    fn make_inode_room(&mut self) -> Result<(), NoMemory>
        ensures same { IsSameTree self.old self.new }
        ensures room { OnOk result (0 < self.new.room.inodes) }
    {
        self.nodes.reserve(1)
    }
}
