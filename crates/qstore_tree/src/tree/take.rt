//! To take inodes, names and bytes out of a tree, and to change whose an inode is.
ghost use Rattle.std.specs.Prelude.{◌≡◌, ◌≤◌, Some, None, false};
ghost use Rattle.std.specs.Ordering.{nat_cmp};
ghost use Rattle.std.specs.BTreeMap.{is_at};
ghost use Rattle.std.specs.Map.{lookup, remove_entry, set_value};
ghost use Rattle.qblocks.specs.File.{MoreBlocks, after_truncate};
ghost use Rattle.qplain.specs.State.{Inode, name_key_cmp};
ghost use Rattle.qplain.specs.Owners.{with_owners};
ghost use Rattle.qstore_tree.specs.Room.{KeepsRoom};
ghost use Rattle.qstore_tree.specs.Tree.{HasNoNames};

use crate::tree::Tree;
use qblocks::MAX_SIZE;
use qplain::Owners;

impl Tree {
    /// Takes this name out of the directory, if it is in it. There is no less room then. It takes no memory
    /// and always succeeds.
    pub fn take_name(&mut self, dir: u64, name: &str)
        ensures inodes { self.new.inodes ≡ self.old.inodes }
        ensures names { self.new.names ≡ remove_entry (is_at (name_key_cmp (dir, name.now))) self.old.names }
        ensures gone { lookup (is_at (name_key_cmp (dir, name.now))) self.new.names ≡ None }
        ensures links { self.new.links ≡ self.old.links }
        ensures room { KeepsRoom self.old.room self.new.room }
    {
        match self.nodes.get_mut(&dir) {
            Some(node) => node.take_name(name),
            None => {}
        }
    }

    /// Takes the inode of this number out, if it is there, with the blocks that it holds. No name may
    /// stand in it. It takes no memory and always succeeds.
    pub fn take_node(&mut self, number: u64)
        requires { HasNoNames self.old number }
        ensures inodes { self.new.inodes ≡ remove_entry (is_at (nat_cmp number)) self.old.inodes }
        ensures names { self.new.names ≡ self.old.names }
        ensures links { self.new.links ≡ remove_entry (is_at (nat_cmp number)) self.old.links }
    {
        self.nodes.remove(&number);
    }

    /// Gives an inode to these owners.
    pub fn set_owners(&mut self, number: u64, owners: Owners)
        ensures inodes { (inode : Inode) → lookup (is_at (nat_cmp number)) self.old.inodes ≡ Some inode
            → self.new.inodes ≡ set_value (is_at (nat_cmp number)) self.old.inodes
            (with_owners inode owners) }
        ensures names { self.new.names ≡ self.old.names }
        ensures links { self.new.links ≡ self.old.links }
    {
        match self.nodes.get_mut(&number) {
            Some(node) => node.set_owners(owners),
            None => {}
        }
    }

    /// Sets the size of a file, and gives the number of blocks freed. It takes no memory and always
    /// succeeds. O(blocks freed, times log n).
    pub fn truncate(&mut self, number: u64, size: u64) -> u64
        requires file { (inode : Inode) × (lookup (is_at (nat_cmp number)) self.old.inodes ≡ Some inode)
            × (inode.dir ≡ false) }
        requires bound { size ≤ MAX_SIZE }
        ensures inodes { (inode : Inode) → lookup (is_at (nat_cmp number)) self.old.inodes ≡ Some inode
            → self.new.inodes ≡ set_value (is_at (nat_cmp number)) self.old.inodes
            (record inode { file = after_truncate inode.file size }) }
        ensures count { (inode : Inode) → lookup (is_at (nat_cmp number)) self.old.inodes ≡ Some inode
            → MoreBlocks (after_truncate inode.file size) inode.file result }
        ensures names { self.new.names ≡ self.old.names }
        ensures links { self.new.links ≡ self.old.links }
    {
        match self.nodes.get_mut(&number) {
            Some(node) => node.truncate(size),
            None => unreachable!(),
        }
    }
}
