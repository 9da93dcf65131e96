//! To put inodes, names and bytes into a tree.
ghost use Rattle.std.specs.Prelude.{◌≡◌, ◌+◌, ◌<◌, ◌≤◌, ◌^◌, [], false, true, None, Some, length, string_bytes};
ghost use Rattle.std.specs.Prelude.{is_some, IfOk, IfSome, OnOk};
ghost use Rattle.std.specs.Ordering.{nat_cmp};
ghost use Rattle.std.specs.BTreeMap.{insert_entry, is_at};
ghost use Rattle.std.specs.Map.{lookup, remove_entry, set_value};
ghost use Rattle.qblocks.specs.File.{Adds, MoreBlocks, after_write};
ghost use Rattle.qblocks.specs.Input.{input_bytes};
ghost use Rattle.qblocks.specs.WriteRoom.{IsReadyToPut, IsThereToPut};
ghost use Rattle.qplain.specs.State.{Inode, is_dir, name_key_cmp, new_directory, new_file};
ghost use Rattle.qstore_tree.specs.Nodes.{inode_of, names_in};
ghost use Rattle.qstore_tree.specs.Tree.{HasRoomFor, IsSameTree, file_room, name_room};

use crate::node::Node;
use crate::tree::Tree;
use qblocks::{Input, MAX_SIZE, Spare};
use qplain::{NoMemory, Owners};
use std::alloc::Global;

impl Tree {
    /// Makes room for one more inode, and for one more name in this directory.
    pub fn make_room(&mut self, dir: u64) -> Result<(), NoMemory>
        requires { is_dir (lookup (is_at (nat_cmp dir)) self.old.inodes) ≡ true }
        ensures same { IsSameTree self.old self.new }
        ensures room { OnOk result (HasRoomFor self.new dir) }
    {
        self.make_name_room(dir)?;
        self.nodes.reserve(1)
    }

    /// Makes room for one more name in this directory. The room for inodes stays.
    #[inline(always)]
    pub fn make_name_room(&mut self, dir: u64) -> Result<(), NoMemory>
        requires { is_dir (lookup (is_at (nat_cmp dir)) self.old.inodes) ≡ true }
        ensures same { IsSameTree self.old self.new }
        ensures room { OnOk result (0 < name_room self.new.room dir) }
        ensures inode_room { self.new.room.inodes ≡ self.old.room.inodes }
    {
        match self.nodes.get_mut(&dir) {
            Some(node) => node.make_room(),
            None => unreachable!(),
        }
    }

    /// Puts a new name for this number into a directory that has room for it. It takes no memory and
    /// always succeeds.
    pub fn put_name(&mut self, dir: u64, name: String, number: u64)
        requires room { 0 < name_room self.old.room dir }
        requires unnamed { lookup (is_at (name_key_cmp (dir, string_bytes name))) self.old.names ≡ None }
        ensures inodes { self.new.inodes ≡ self.old.inodes }
        ensures names { self.new.names
            ≡ insert_entry name_key_cmp self.old.names (dir, string_bytes name) number }
        ensures links { self.new.links ≡ self.old.links }
        ensures inode_room { self.new.room.inodes ≡ self.old.room.inodes }
    {
        match self.nodes.get_mut(&dir) {
            Some(node) => node.put_name(name, number),
            None => unreachable!(),
        }
    }

    /// Puts a new inode, with no name in it, under a number for which there is room. It takes no memory
    /// and always succeeds.
    #[inline(always)]
    pub(crate) fn put_node(&mut self, number: u64, node: Node)
        requires room { 0 < self.old.room.inodes }
        requires absent { lookup (is_at (nat_cmp number)) self.old.inodes ≡ None }
        requires empty { names_in node.content ≡ [] }
        ensures inodes { self.new.inodes ≡ insert_entry nat_cmp self.old.inodes number (inode_of node) }
        ensures names { self.new.names ≡ self.old.names }
        ensures links { self.new.links ≡ insert_entry nat_cmp self.old.links number node.links }
    {
        match self.nodes.insert(number, node) {
            Ok(_) => {}
            Err(_) => unreachable!(),
        }
    }

    /// Puts a new file under a new number and a new name, for which there is room. It takes no
    /// memory and always succeeds.
    pub fn add_file(&mut self, number: u64, dir: u64, name: String, owners: Owners, alloc: Global)
        requires room { HasRoomFor self.old dir }
        requires absent { lookup (is_at (nat_cmp number)) self.old.inodes ≡ None }
        requires unnamed { lookup (is_at (name_key_cmp (dir, string_bytes name))) self.old.names ≡ None }
        ensures inodes { self.new.inodes
            ≡ insert_entry nat_cmp self.old.inodes number (new_file owners) }
        ensures names { self.new.names
            ≡ insert_entry name_key_cmp self.old.names (dir, string_bytes name) number }
        ensures links { self.new.links ≡ insert_entry nat_cmp self.old.links number 1 }
    {
        self.put_name(dir, name, number);
        self.put_node(number, Node::new_file(alloc, owners));
    }

    /// Puts a new directory under a new number and a new name, for which there is room. The link that it
    /// gives its parent is not counted yet: `add_link`. It takes no memory and always succeeds.
    pub fn add_directory(
        &mut self,
        number: u64,
        dir: u64,
        name: String,
        owners: Owners,
        alloc: Global,
    )
        requires room { HasRoomFor self.old dir }
        requires absent { lookup (is_at (nat_cmp number)) self.old.inodes ≡ None }
        requires unnamed { lookup (is_at (name_key_cmp (dir, string_bytes name))) self.old.names ≡ None }
        ensures inodes { self.new.inodes
            ≡ insert_entry nat_cmp self.old.inodes number (new_directory owners) }
        ensures names { self.new.names
            ≡ insert_entry name_key_cmp self.old.names (dir, string_bytes name) number }
        ensures links { self.new.links ≡ insert_entry nat_cmp self.old.links number 2 }
    {
        self.put_name(dir, name, number);
        self.put_node(number, Node::new_directory(alloc, self.seed, owners));
    }

    /// Takes a name away, and puts the other for this number, which leads to nothing else then. Where the
    /// other was there, its room is free again. It takes no memory and always succeeds.
    pub fn move_name(&mut self, dir: u64, name: &str, to_dir: u64, to_name: String, number: u64)
        requires { 0 < name_room self.old.room to_dir }
        ensures inodes { self.new.inodes ≡ self.old.inodes }
        ensures names { self.new.names ≡ insert_entry name_key_cmp
            (remove_entry (is_at (name_key_cmp (to_dir, string_bytes to_name)))
            (remove_entry (is_at (name_key_cmp (dir, name.now))) self.old.names))
            (to_dir, string_bytes to_name) number }
        ensures links { self.new.links ≡ self.old.links }
        ensures inode_room { self.new.room.inodes ≡ self.old.room.inodes }
    {
        self.take_name(dir, name);
        self.take_name(to_dir, &to_name);
        self.put_name(to_dir, to_name, number);
    }

    /// Makes the room of a write for which `missing` blocks are not in this file yet.
    pub fn ready_write(
        &mut self,
        number: u64,
        off: u64,
        len: u64,
        missing: u64,
    ) -> Result<Spare, NoMemory>
        requires file { (inode : Inode) × (lookup (is_at (nat_cmp number)) self.old.inodes ≡ Some inode)
            × (inode.dir ≡ false) × Adds inode.file off len missing }
        requires bound { off + len ≤ MAX_SIZE }
        requires few { missing ≤ 2 ^ 28 }
        ensures same { IsSameTree self.old self.new }
        ensures there { is_some (file_room self.new.room number) ≡ true }
        ensures room { IfOk result
            (λ spare. IfSome (file_room self.new.room number) (λ f. IsReadyToPut f off len spare)) }
    {
        match self.nodes.get_mut(&number) {
            Some(node) => node.ready_write(off, len, missing),
            None => unreachable!(),
        }
    }

    /// Writes where room is made, and gives the number of blocks newly allocated. It takes no memory
    /// and always succeeds.
    pub fn put(&mut self, number: u64, off: u64, input: Input, spare: Spare) -> u64
        requires bound { off + length (input_bytes input) ≤ MAX_SIZE }
        requires file { IsThereToPut (file_room self.old.room number) off (length (input_bytes input)) spare }
        ensures inodes { (inode : Inode) → lookup (is_at (nat_cmp number)) self.old.inodes ≡ Some inode
            → self.new.inodes ≡ set_value (is_at (nat_cmp number)) self.old.inodes
            (record inode { file = after_write inode.file off (input_bytes input.entry) }) }
        ensures count { (inode : Inode) → lookup (is_at (nat_cmp number)) self.old.inodes ≡ Some inode
            → MoreBlocks inode.file (after_write inode.file off (input_bytes input.entry)) result }
        ensures names { self.new.names ≡ self.old.names }
        ensures links { self.new.links ≡ self.old.links }
    {
        match self.nodes.get_mut(&number) {
            Some(node) => node.put(off, input, spare),
            None => unreachable!(),
        }
    }
}
