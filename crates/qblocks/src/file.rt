//! A file: its size, its blocks and the room for its next write.
ghost use Rattle.std.specs.Prelude.{◌≡◌, ◌+◌, ◌≤◌, ◌^◌, drop, length, take, IfOk, OnOk, OnErr};
ghost use Rattle.qblocks.specs.File.{empty_file, size_of, MoreBlocks, Adds, AllocatesTouched, after_write};
ghost use Rattle.qblocks.specs.File.{after_truncate, read_at};
ghost use Rattle.qblocks.specs.Input.{input_bytes};
ghost use Rattle.qblocks.specs.WriteRoom.{no_room, IsReadyToPut};

use crate::block::BLOCK_SIZE;
use crate::cut::{cut, freed_by};
use crate::input::Input;
use crate::room::{forget_rows, make_rows};
use crate::row::ROW_SIZE;
use crate::rows::{self, Rows};
use crate::span::{span_end, touched_from};
use crate::spare::Spare;
use std::alloc::{AllocError as NoMemory, Global};
use std::collections::BTreeMap;
use std::marker::Model;

mod allocated;

/// The greatest size in bytes: a bound of this crate's arithmetic, below which a store sets its own.
pub const MAX_SIZE: u64 = 1 << 40;

/// A sparse file in memory, in blocks of 4096 bytes.
///
/// A block is allocated by the first write that touches it. A byte below the size that was never
/// written reads as 0 (lseek(2), on holes). Contracts see a file, and beside it the room that
/// `ready` makes, of which "as before" does not speak.
#[derive(Drop)]
pub struct BlockFile {
    size: u64,
    count: u64,
    rows: Rows,
    room_off: u64,
    room_len: u64,
    alloc: Global,
}

impl Model for BlockFile {
    ghost use Rattle.qblocks.specs.WriteRoom.{RoomyFile};

    ghost Value = { RoomyFile };

    ghost use Rattle.qblocks.specs.Rows.{FieldsFit, file_of};

    ghost view = { λ f. record { file = file_of f.rows f.size; room = record { off = f.room_off; len = f.room_len } } };

    ghost invariant = { λ f. FieldsFit f.rows f.size f.count (record { off = f.room_off; len = f.room_len }) };
}

impl BlockFile {
    /// An empty file. No memory is taken before the first write or `ready`.
    pub fn new(alloc: Global) -> Self
        ensures { result ≡ record { file = empty_file; room = no_room } }
    {
        BlockFile {
            size: 0,
            count: 0,
            rows: BTreeMap::new(alloc),
            room_off: 0,
            room_len: 0,
            alloc,
        }
    }

    /// The size in bytes, holes included. O(1).
    pub fn size(&self) -> u64
        ensures value { result ≡ size_of self.now.file }
        ensures bound { result ≤ MAX_SIZE }
    {
        self.size
    }

    /// How many blocks a write of `len` bytes at `off` would allocate.
    ///
    /// O(1) where no block below the size is missing, as in a file that was written from its front on, and else
    /// O(log n) for each 64 KiB that it touches, n being the number of allocated blocks. It takes no memory.
    #[inline(always)]
    pub fn missing(&self, off: u64, len: u64) -> u64
        requires { off + len ≤ MAX_SIZE }
        ensures missing { Adds self.now.file off len result }
        ensures bound { result ≤ 2 ^ 28 }
    {
        if self.size <= self.count * BLOCK_SIZE {
            return touched_from(self.count, off, len);
        }
        rows::missing(&self.rows, off, len)
    }

    /// How many blocks `truncate` to this size would free.
    ///
    /// O(log n) for each 64 KiB in which it would free some, n being the number of allocated blocks. It
    /// takes no memory.
    pub fn freed_by(&self, size: u64) -> u64
        requires { size ≤ MAX_SIZE }
        ensures freed { MoreBlocks (after_truncate self.now.file size) self.now.file result }
        ensures bound { result ≤ 2 ^ 28 }
    {
        freed_by(&self.rows, size)
    }

    /// The bytes from `off` up to `off + len` or the size, where that is less; none at the size or
    /// past it. `off` and `len` may be any numbers (read(2)).
    ///
    /// O(bytes read), and O(log n) for each 64 KiB of them.
    pub fn read(&self, off: u64, len: u64) -> Result<Vec<u8>, NoMemory>
        ensures { IfOk result (λ bytes. bytes.items ≡ read_at self.now.file off len) }
    {
        let end = self.size.min(off.saturating_add(len));
        if end <= off {
            return Ok(Vec::new(self.alloc));
        }
        let mut bytes = Vec::with_capacity(self.alloc, (end - off) as usize)?;
        rows::read(&self.rows, off, end, &mut bytes)?;
        Ok(bytes)
    }

    /// Fills the front of a buffer with what `read` gives of as many bytes as it has, and gives how many those are.
    /// What is behind them in the buffer stays. It takes no memory and always succeeds. Cost as for `read`.
    pub fn read_into(&self, off: u64, buffer: &mut [u8]) -> usize
        ensures bytes { take result buffer.new ≡ read_at self.now.file off (length buffer.old) }
        ensures count { result ≡ length (read_at self.now.file off (length buffer.old)) }
        ensures behind { drop result buffer.new ≡ drop result buffer.old }
    {
        let end = self.size.min(off.saturating_add(buffer.len() as u64));
        if end <= off {
            return 0;
        }
        let count = (end - off) as usize;
        rows::read_into(&self.rows, off, &mut buffer[..count]);
        count
    }

    /// Makes all that a write of `len` bytes at `off` needs, and leaves the file as it was.
    ///
    /// The `Spare` is for a `put` of that offset and length, before any other change of the file. It
    /// may be dropped: the next call that changes the file gives back what was made beside it. An
    /// Err leaves no room behind. Cost as for `write`.
    pub fn ready(&mut self, off: u64, len: u64) -> Result<Spare, NoMemory>
        requires { off + len ≤ MAX_SIZE }
        ensures same { self.new.file ≡ self.old.file }
        ensures ok { IfOk result (λ spare. IsReadyToPut self.new off len spare) }
        ensures err { OnErr result (self.new.room ≡ no_room) }
    {
        let missing = self.missing(off, len);
        self.ready_for(off, len, missing)
    }

    /// `ready`, where `missing` has counted the blocks already.
    pub fn ready_for(&mut self, off: u64, len: u64, missing: u64) -> Result<Spare, NoMemory>
        requires bound { off + len ≤ MAX_SIZE }
        requires missing { Adds self.old.file off len missing }
        requires few { missing ≤ 2 ^ 28 }
        ensures same { self.new.file ≡ self.old.file }
        ensures ok { IfOk result (λ spare. IsReadyToPut self.new off len spare) }
        ensures err { OnErr result (self.new.room ≡ no_room) }
    {
        self.forget_room();
        let spare = Spare::new(self.alloc, missing)?;
        self.make_room(off, len, missing)?;
        Ok(spare)
    }

    /// Takes out what was made for a write that did not come.
    fn forget_room(&mut self)
        ensures same { self.new.file ≡ self.old.file }
        ensures room { self.new.room ≡ no_room }
    {
        let end = span_end(ROW_SIZE, self.room_off, self.room_len);
        forget_rows(&mut self.rows, self.room_off / ROW_SIZE, end);
        self.room_off = 0;
        self.room_len = 0;
    }

    /// Makes the rows that a write of `len` bytes at `off` needs. They are there if no block is missing.
    fn make_room(&mut self, off: u64, len: u64, missing: u64) -> Result<(), NoMemory>
        requires bound { off + len ≤ MAX_SIZE }
        requires room { self.old.room ≡ no_room }
        requires missing { Adds self.old.file off len missing }
        ensures same { self.new.file ≡ self.old.file }
        ensures ok { OnOk result (self.new.room ≡ record { off = off; len = len }) }
        ensures err { OnErr result (self.new.room ≡ no_room) }
    {
        let first = off / ROW_SIZE;
        let end = if missing == 0 {
            first
        } else {
            span_end(ROW_SIZE, off, len)
        };
        if let Err(refused) = make_rows(&mut self.rows, first, end, self.alloc) {
            forget_rows(&mut self.rows, first, end);
            return Err(refused);
        }
        self.room_off = off;
        self.room_len = len;
        Ok(())
    }

    /// Writes `input` at `off` with what `ready` made for that offset and length, and gives the
    /// number of blocks newly allocated. It takes no memory and always succeeds.
    pub fn put(&mut self, off: u64, input: Input, spare: Spare) -> u64
        requires bound { off + length (input_bytes input) ≤ MAX_SIZE }
        requires ready { IsReadyToPut self.old off (length (input_bytes input)) spare }
        ensures file { self.new.file ≡ after_write self.old.file off (input_bytes input.entry) }
        ensures count { MoreBlocks self.old.file self.new.file result }
        ensures touched { AllocatesTouched self.old.file self.new.file off
            (length (input_bytes input.entry)) }
        ensures room { self.new.room ≡ no_room }
    {
        self.room_off = 0;
        self.room_len = 0;
        if input.is_empty() {
            return 0;
        }
        let mut spare = spare;
        let fresh = spare.len();
        rows::put(&mut self.rows, off, input, &mut spare);
        self.size = self.size.max(off + input.len());
        self.count += fresh;
        fresh
    }

    /// Writes `input` at `off`, by `ready` and `put`, and gives the number of blocks newly allocated.
    ///
    /// The write is whole or refused; of no bytes it changes nothing, not the size either (profile,
    /// after write(2)). O(bytes written), and O(log n) for each 64 KiB that it touches.
    pub fn write(&mut self, off: u64, input: Input) -> Result<u64, NoMemory>
        requires { off + length (input_bytes input) ≤ MAX_SIZE }
        ensures ok { OnOk result
            (self.new.file ≡ after_write self.old.file off (input_bytes input.entry)) }
        ensures count { IfOk result (MoreBlocks self.old.file self.new.file) }
        ensures touched { OnOk result
            (AllocatesTouched self.old.file self.new.file off (length (input_bytes input.entry))) }
        ensures err { OnErr result (self.new.file ≡ self.old.file) }
        ensures room { self.new.room ≡ no_room }
    {
        let spare = self.ready(off, input.len())?;
        Ok(self.put(off, input, spare))
    }

    /// Sets the size, and gives the number of blocks freed. It takes no memory and always succeeds.
    ///
    /// To a smaller size: the blocks that begin there or after are freed, and the bytes from there
    /// on read as 0 when the size grows again. To a greater one: no block is allocated (truncate(2)).
    /// O(blocks freed, times log n).
    pub fn truncate(&mut self, size: u64) -> u64
        requires { size ≤ MAX_SIZE }
        ensures file { self.new.file ≡ after_truncate self.old.file size }
        ensures count { MoreBlocks self.new.file self.old.file result }
        ensures room { self.new.room ≡ no_room }
    {
        self.forget_room();
        if size >= self.size {
            self.size = size;
            return 0;
        }
        let freed = cut(&mut self.rows, size);
        self.count -= freed;
        self.size = size;
        freed
    }
}
