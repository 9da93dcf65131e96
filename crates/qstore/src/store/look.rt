//! To read from a file (read(2)), to ask for an inode's numbers (stat(2)), and the rows of what a store keeps.
ghost use Rattle.std.specs.Prelude.{◌≡◌, ℕ, IfOk, IfErr, IsPermutation, OnOk, map};
ghost use Rattle.std.specs.Ordering.{nat_cmp};
ghost use Rattle.std.specs.List.{AllPairs};
ghost use Rattle.std.specs.List.Sorted.{IsStrictlySortedBy};
ghost use Rattle.std.specs.Map.{keys_of};
ghost use Rattle.std.specs.Result.{IsOk};
ghost use Rattle.qblocks.specs.File.{read_at};
ghost use Rattle.qplain.specs.Attempt.{Answer, Refuse, at_path};
ghost use Rattle.qplain.specs.Caller.{Caller};
ghost use Rattle.qplain.specs.Files.{read_from, stat_at};
ghost use Rattle.qplain.specs.Journal.{row_of};
ghost use Rattle.qplain.specs.State.{name_key_cmp};
ghost use Rattle.qplain.specs.Step.{settle, step};
ghost use Rattle.qstore_tree.specs.Listed.{name_entry, node_entry};
ghost use Rattle.qstore.specs.Applied.{IsReadInto};
ghost use Rattle.qstore.specs.Ready.{IsRefused};
ghost use Rattle.qstore.specs.Rows.{StandsBefore, inode_row_of, name_row_of, record_row_of};

use crate::{Call, Content, Cred, Name, NoMemory, Node, Refusal, Reply, Store};
use qblocks::BlockFile;
use qplain::{MAX_DATA, SharedItems};
use qrules::{BoardRow, InodeRow, NameRow, RecordRow};
use qstore_walk::{find, path_fault, stat_of};

impl Store {
    /// A stat by `apply`, of a path that is borrowed. It takes no memory, and leaves the store and what is ready in it.
    pub fn stat(&mut self, cred: &Cred, moment: u64, path: &str) -> Reply
        ensures same { self.new ≡ self.old }
        ensures step { (self.old.state, result) ≡ step self.old.state cred.now moment (Call.Stat path.now) }
    {
        match self.check(cred, moment, false, path_fault(path)) {
            Ok(_) => self.decide_stat(path),
            Err(refusal) => Reply::Refused(refusal),
        }
    }

    /// A read by `apply` of as many bytes as the buffer has, of a path that is borrowed: they stand at its front, the
    /// result says how many, and those behind them stay. An Err is the refusal. The store is left as by `stat`.
    pub fn read_into(
        &mut self,
        cred: &Cred,
        moment: u64,
        path: &str,
        off: u64,
        buffer: &mut [u8],
    ) -> Result<usize, Refusal>
        ensures same { self.new ≡ self.old }
        ensures read { IsReadInto self.old.state cred.now moment path.now off buffer.old buffer.new result }
    {
        let bad_number = buffer.len() as u64 > MAX_DATA;
        self.check(cred, moment, bad_number, path_fault(path))?;
        Ok(self.file(path)?.read_into(off, buffer))
    }

    /// The file that a path leads to, or the refusal of a read from it.
    fn file(&self, path: &str) -> Result<&BlockFile, Refusal>
        ensures found { IfOk result (λ file. (off len : ℕ) → at_path self.now.state (read_from off len) path.now
            ≡ Answer (Reply.Bytes (read_at file.now.file off len))) }
        ensures fault { IfErr result (λ refusal. (off len : ℕ) → at_path self.now.state (read_from off len) path.now
            ≡ Refuse refusal) }
    {
        match &find(self.tree(), path)?.node.content {
            Content::Directory(_) => Err(Refusal::EISDIR),
            Content::File(file) => Ok(file),
        }
    }

    /// The reply to a read.
    pub(super) fn decide_read(&self, path: &str, off: u64, len: u64) -> Result<Reply, NoMemory>
        ensures step { IfOk result (λ reply. (cred : Caller) (moment : ℕ) → (self.now.state, reply)
            ≡ settle self.now.state cred moment (at_path self.now.state (read_from off len) path.now)) }
        ensures refused_first { (cred : Caller) (moment : ℕ) → IsRefused (settle self.now.state cred moment
            (at_path self.now.state (read_from off len) path.now)).1 → IsOk result }
    {
        match self.file(path) {
            Ok(file) => Ok(Reply::Bytes(SharedItems::new(file.read(off, len)?)?)),
            Err(refusal) => Ok(Reply::Refused(refusal)),
        }
    }

    /// The reply to a stat.
    pub(super) fn decide_stat(&self, path: &str) -> Reply
        ensures { (cred : Caller) (moment : ℕ) → (self.now.state, result)
            ≡ settle self.now.state cred moment (at_path self.now.state (stat_at self.now.state) path.now) }
    {
        match find(self.tree(), path) {
            Ok(found) => Reply::Stat(stat_of(found.number, found.node)),
            Err(refusal) => Reply::Refused(refusal),
        }
    }

    /// The quota records, each once: users by id, then groups, then projects. Uses are in blocks of 4096 bytes,
    /// block limits in KiB, ends in seconds. O(n), as many as are declared.
    pub fn record_rows(&self) -> Result<Vec<RecordRow>, NoMemory>
        ensures rows { IfOk result (λ rows. rows.items ≡ map (record_row_of self.now.state) self.now.state.holders) }
        ensures by_id { OnOk result (AllPairs StandsBefore self.now.state.holders) }
    {
        self.accounts.rows(self.alloc)
    }

    /// The rows of a board: the quota records, users by id, then groups, then projects. O(n).
    pub fn board_rows(&self) -> Result<Vec<BoardRow>, NoMemory>
        ensures { IfOk result (λ rows. rows.items ≡ map (row_of self.now.state) self.now.state.holders) }
    {
        self.accounts.board_rows(self.alloc)
    }

    /// The inodes by number, each once, in blocks of 4096 bytes. O(n log n), O(n) where none was taken out.
    pub fn inode_rows(&self) -> Result<Vec<InodeRow>, NoMemory>
        ensures rows { IfOk result (λ rows. rows.items ≡ map (inode_row_of self.now.state) self.now.state.inodes) }
        ensures by_number { OnOk result (IsStrictlySortedBy nat_cmp (keys_of self.now.state.inodes)) }
    {
        self.tree.inode_rows(self.alloc)
    }

    /// The inodes by number, each once, borrowed. O(n log n), O(n) where none was taken out.
    pub fn nodes(&self) -> Result<Vec<(u64, &Node)>, NoMemory>
        ensures nodes { IfOk result (λ nodes. map node_entry nodes.items ≡ self.now.state.inodes) }
        ensures by_number { OnOk result (IsStrictlySortedBy nat_cmp (keys_of self.now.state.inodes)) }
    {
        self.tree.nodes(self.alloc)
    }

    /// The names by directory, then by name, each once. O(n log n).
    pub fn name_rows(&self) -> Result<Vec<NameRow>, NoMemory>
        ensures rows { IfOk result (λ rows. rows.items ≡ map name_row_of self.now.state.names) }
        ensures by_key { OnOk result (IsStrictlySortedBy name_key_cmp (keys_of self.now.state.names)) }
    {
        self.tree.name_rows(self.alloc)
    }

    /// The names by directory, then by name, each once, borrowed. O(n log n).
    pub fn names(&self) -> Result<Vec<Name<'_>>, NoMemory>
        ensures names { IfOk result (λ names. map name_entry names.items ≡ self.now.state.names) }
        ensures by_key { OnOk result (IsStrictlySortedBy name_key_cmp (keys_of self.now.state.names)) }
    {
        self.tree.names(self.alloc)
    }

    /// The names, each once, in any order, for who only counts them. O(n).
    pub fn name_rows_unordered(&self) -> Result<Vec<NameRow>, NoMemory>
        ensures rows { IfOk result (λ rows. IsPermutation (map name_row_of self.now.state.names) rows.items) }
        ensures each_once { OnOk result (IsStrictlySortedBy name_key_cmp (keys_of self.now.state.names)) }
    {
        self.tree.name_rows_unordered(self.alloc)
    }
}
