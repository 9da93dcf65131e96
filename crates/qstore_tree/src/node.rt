//! One inode, as a store keeps it.
ghost use Rattle.std.specs.Prelude.{◌≡◌, ◌+◌, ◌<◌, ◌≤◌, ◌==◌, ◌^◌, ◌++◌, [], length, map, string_bytes, None, false};
ghost use Rattle.std.specs.Prelude.{true, is_some, IfOk, IfSome, IsSomeAnd, IsPermutation, OnOk};
ghost use Rattle.std.specs.Ordering.{nat_cmp};
ghost use Rattle.std.specs.Cmp.Lexicographic.{slice_cmp};
ghost use Rattle.std.specs.BTreeMap.{insert_entry, is_at};
ghost use Rattle.std.specs.Map.{lookup};
ghost use Rattle.qblocks.specs.File.{Adds, MoreBlocks, after_truncate, after_write};
ghost use Rattle.qblocks.specs.Input.{input_bytes};
ghost use Rattle.qblocks.specs.WriteRoom.{IsReadyToPut, IsThereToPut};
ghost use Rattle.qplain.specs.State.{new_directory, new_file};
ghost use Rattle.qrules.specs.Sort.{Blocks};
ghost use Rattle.qplain.specs.Owners.{with_owners};
ghost use Rattle.qplain.specs.Use.{weight};
ghost use Rattle.qstore_tree.specs.InOrder.{in_order};
ghost use Rattle.qstore_tree.specs.Names.{LosesName, name_row};
ghost use Rattle.qstore_tree.specs.Nodes.{IsSameNode, inode_of, is_dir_content, name_room_in, names_in, node_row};
ghost use Rattle.qstore_tree.specs.Nodes.{roomy_file_in};

use crate::names::Names;
use qblocks::{BlockFile, Input, MAX_SIZE, Spare};
use qplain::{NoMemory, Owners};
use qrules::{InodeRow, NameRow};
use std::alloc::Global;

/// What an inode is.
#[derive(Drop)]
pub enum Content {
    File(BlockFile),
    Directory(Names),
}

/// An inode: its owners, the link count that is kept for it, and what it holds.
#[derive(Drop)]
pub struct Node {
    pub owners: Owners,
    pub links: u64,
    pub content: Content,
}

impl Node {
    /// A directory of these owners, with no name in it. It takes no memory. The hashes of its names begin
    /// at the seed.
    pub(crate) fn new_directory(alloc: Global, seed: u64, owners: Owners) -> Node
        ensures inode { inode_of result ≡ new_directory owners }
        ensures links { result.links ≡ 2 }
        ensures names { names_in result.content ≡ [] }
    {
        Node {
            owners,
            links: 2,
            content: Content::Directory(Names::new(alloc, seed)),
        }
    }

    /// An empty file of these owners, under one name. It takes no memory.
    pub fn new_file(alloc: Global, owners: Owners) -> Node
        ensures inode { inode_of result ≡ new_file owners }
        ensures links { result.links ≡ 1 }
        ensures names { names_in result.content ≡ [] }
    {
        Node {
            owners,
            links: 1,
            content: Content::File(BlockFile::new(alloc)),
        }
    }

    /// Makes room for one more name in this directory.
    pub(crate) fn make_room(&mut self) -> Result<(), NoMemory>
        requires { is_dir_content self.old.content ≡ true }
        ensures same { IsSameNode self.old self.new }
        ensures room { OnOk result (0 < name_room_in self.new.content) }
    {
        match &mut self.content {
            Content::Directory(names) => names.make_room(),
            Content::File(_) => unreachable!(),
        }
    }

    /// Puts a new name into this directory, where there is room. It takes no memory and always succeeds.
    pub(crate) fn put_name(&mut self, name: String, number: u64)
        requires room { 0 < name_room_in self.old.content }
        requires absent { lookup (is_at (slice_cmp nat_cmp (string_bytes name))) (names_in self.old.content)
            ≡ None }
        ensures inode { inode_of self.new ≡ inode_of self.old }
        ensures links { self.new.links ≡ self.old.links }
        ensures names { names_in self.new.content
            ≡ insert_entry (slice_cmp nat_cmp) (names_in self.old.content) (string_bytes name) number }
    {
        match &mut self.content {
            Content::Directory(names) => names.put(name, number),
            Content::File(_) => unreachable!(),
        }
    }

    /// Takes this name out, if it is in this directory. There is no less room then.
    pub(crate) fn take_name(&mut self, name: &str)
        ensures inode { inode_of self.new ≡ inode_of self.old }
        ensures links { self.new.links ≡ self.old.links }
        ensures names { LosesName name.now (names_in self.old.content) (names_in self.new.content) }
        ensures room { name_room_in self.old.content ≤ name_room_in self.new.content }
        ensures file { roomy_file_in self.new.content ≡ roomy_file_in self.old.content }
    {
        match &mut self.content {
            Content::Directory(names) => names.take(name),
            Content::File(_) => {}
        }
    }

    /// Gives it to these owners.
    pub(crate) fn set_owners(&mut self, owners: Owners)
        ensures inode { inode_of self.new ≡ with_owners (inode_of self.old) owners }
        ensures links { self.new.links ≡ self.old.links }
        ensures names { names_in self.new.content ≡ names_in self.old.content }
    {
        self.owners = owners;
    }

    /// Sets the size of this file, and gives the number of blocks freed. It takes no memory and always
    /// succeeds.
    pub(crate) fn truncate(&mut self, size: u64) -> u64
        requires file { is_dir_content self.old.content ≡ false }
        requires bound { size ≤ MAX_SIZE }
        ensures inode { inode_of self.new
            ≡ record (inode_of self.old) { file = after_truncate (inode_of self.old).file size } }
        ensures count { MoreBlocks (inode_of self.new).file (inode_of self.old).file result }
        ensures links { self.new.links ≡ self.old.links }
        ensures names { names_in self.new.content ≡ names_in self.old.content }
    {
        match &mut self.content {
            Content::File(file) => file.truncate(size),
            Content::Directory(_) => unreachable!(),
        }
    }

    /// Makes the room of a write for which `missing` blocks are not in this file yet.
    pub(crate) fn ready_write(
        &mut self,
        off: u64,
        len: u64,
        missing: u64,
    ) -> Result<Spare, NoMemory>
        requires bound { off + len ≤ MAX_SIZE }
        requires missing { IsSomeAnd (roomy_file_in self.old.content) (λ f. Adds f.file off len missing) }
        requires few { missing ≤ 2 ^ 28 }
        ensures same { IsSameNode self.old self.new }
        ensures there { is_some (roomy_file_in self.new.content) ≡ true }
        ensures room { IfOk result
            (λ spare. IfSome (roomy_file_in self.new.content) (λ f. IsReadyToPut f off len spare)) }
    {
        match &mut self.content {
            Content::File(file) => file.ready_for(off, len, missing),
            Content::Directory(_) => unreachable!(),
        }
    }

    /// Writes into this file where room is made, and gives the number of blocks newly allocated. It
    /// takes no memory and always succeeds.
    pub(crate) fn put(&mut self, off: u64, input: Input, spare: Spare) -> u64
        requires bound { off + length (input_bytes input) ≤ MAX_SIZE }
        requires file { IsThereToPut (roomy_file_in self.old.content) off (length (input_bytes input)) spare }
        ensures inode { inode_of self.new ≡ record (inode_of self.old)
            { file = after_write (inode_of self.old).file off (input_bytes input.entry) } }
        ensures count { MoreBlocks (inode_of self.old).file (inode_of self.new).file result }
        ensures links { self.new.links ≡ self.old.links }
        ensures names { names_in self.new.content ≡ names_in self.old.content }
    {
        match &mut self.content {
            Content::File(file) => file.put(off, input, spare),
            Content::Directory(_) => unreachable!(),
        }
    }

    /// The allocated blocks of this inode. O(1).
    pub fn blocks(&self) -> u64
        ensures { result ≡ weight Blocks (inode_of self.now) }
    {
        match &self.content {
            Content::Directory(_) => 0,
            Content::File(file) => file.allocated(),
        }
    }

    /// The names in this directory, if it is one.
    pub(crate) fn names(&self) -> Option<&Names>
        ensures directory { is_some result ≡ is_dir_content self.now.content }
        ensures names { IfSome result (λ names. names.now.entries ≡ names_in self.now.content) }
    {
        match &self.content {
            Content::Directory(names) => Some(names),
            Content::File(_) => None,
        }
    }

    /// No name stands in this inode; in a file there is none. O(1).
    pub(crate) fn has_no_names(&self) -> bool
        ensures { result ≡ (length (names_in self.now.content) == 0) }
    {
        match &self.content {
            Content::Directory(names) => names.is_empty(),
            Content::File(_) => true,
        }
    }

    /// The row of this inode, whose number this is.
    pub(crate) fn row(&self, number: u64) -> InodeRow
        requires { length (inode_of self.now).file.allocated < 2 ^ 32 }
        ensures { result ≡ node_row number self.now }
    {
        let (dir, blocks) = match &self.content {
            Content::File(file) => (false, file.allocated() as u32),
            Content::Directory(_) => (true, 0),
        };
        InodeRow {
            ino: number,
            dir,
            uid: self.owners.uid,
            gid: self.owners.gid,
            project: self.owners.project,
            blocks,
            links: self.links,
        }
    }

    /// Appends a row for each name in this inode, whose number this is, in any order.
    pub(crate) fn push_names_unordered(
        &self,
        number: u64,
        rows: &mut Vec<NameRow>,
    ) -> Result<(), NoMemory>
        ensures { OnOk result (IsPermutation
            (rows.old.items ++ map (name_row number) (in_order (slice_cmp nat_cmp) (names_in self.now.content)))
            rows.new.items) }
    {
        match &self.content {
            Content::File(_) => Ok(()),
            Content::Directory(names) => names.push_rows_unordered(number, rows),
        }
    }
}
