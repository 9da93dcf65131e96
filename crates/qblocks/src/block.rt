//! A block: the memory of 4096 bytes, of which those that were not written yet are 0.
ghost use Rattle.std.specs.Prelude.{◌≡◌, ℕ, ◌+◌, ◌<◌, ◌≤◌, ◌^◌, ◌++◌, [], length, slice_index, map, vec_len};
ghost use Rattle.std.specs.Prelude.{IfOk, OnOk};
ghost use Rattle.std.specs.List.{range_with_len};
ghost use Rattle.qblocks.specs.File.{resized};
ghost use Rattle.qblocks.specs.Input.{input_bytes};
ghost use Rattle.qblocks.specs.Row.{Overwrites};

use crate::input::Input;
use std::alloc::{AllocError as NoMemory, Global};
use std::marker::Model;

/// How many bytes a block has.
pub const BLOCK_SIZE: u64 = 4096;

/// A block, whose memory is taken whole when it is made, and written no further than its last byte
/// that was written. Contracts see the bytes up to there: those after them read as 0.
#[derive(Drop)]
pub(crate) struct Block {
    bytes: Vec<u8>,
}

impl Model for Block {
    ghost use Rattle.std.specs.Prelude.{ℕ, ◌≤◌, List, vec_len, vec_capacity};

    ghost Value = { List ℕ };

    ghost view = { λ block. block.bytes.items };

    ghost invariant = { λ block. (vec_len block.bytes ≤ 4096) × (4096 ≤ vec_capacity block.bytes) };
}

impl Block {
    pub(crate) fn new(alloc: Global) -> Result<Block, NoMemory>
        ensures { IfOk result (λ block. block ≡ []) }
    {
        Ok(Block {
            bytes: Vec::with_capacity(alloc, 4096)?,
        })
    }

    /// Writes `input` at the byte `at`. It takes no memory and always succeeds.
    pub(crate) fn overwrite(&mut self, at: usize, input: Input)
        requires { at + length (input_bytes input) ≤ 4096 }
        ensures { Overwrites (slice_index self.old) (slice_index self.new) at
            (input_bytes input.entry) }
    {
        let end = at + input.len() as usize;
        if end <= self.bytes.len() {
            place(&mut self.bytes[at..end], input);
        } else {
            self.extend(at, input);
        }
    }

    /// Writes `input` at the byte `at`, where it does not end before the last byte that was written.
    pub(crate) fn extend(&mut self, at: usize, input: Input)
        requires fits { at + length (input_bytes input) ≤ 4096 }
        requires behind { length self.old ≤ at + length (input_bytes input) }
        ensures { Overwrites (slice_index self.old) (slice_index self.new) at
            (input_bytes input.entry) }
    {
        self.resize(at);
        self.append(input);
    }

    /// Cuts it off at `at`, or fills it up to there with zeros. It takes no memory.
    fn resize(&mut self, at: usize)
        requires { at ≤ 4096 }
        ensures { self.new ≡ resized self.old at }
    {
        let Ok(()) = self.bytes.resize(at, 0) else {
            unreachable!()
        };
    }

    /// Appends `input`. It takes no memory.
    fn append(&mut self, input: Input)
        requires { length self.old + length (input_bytes input) ≤ 4096 }
        ensures { self.new ≡ self.old ++ input_bytes input.entry }
    {
        let end = self.bytes.len() + input.len() as usize;
        let appended = match input {
            Input::Bytes(bytes) => self.bytes.extend_from_slice(bytes),
            Input::Fill { byte, .. } => self.bytes.resize(end, byte),
        };
        let Ok(()) = appended else { unreachable!() };
    }

    /// Forgets the bytes from `at` on.
    pub(crate) fn cut(&mut self, at: usize)
        ensures before { (i : ℕ) → i < at → slice_index self.new i ≡ slice_index self.old i }
        ensures tail { (i : ℕ) → at ≤ i → slice_index self.new i ≡ 0 }
    {
        self.bytes.truncate(at);
    }

    /// Appends `len` bytes from the byte `at` on.
    pub(crate) fn read(&self, at: usize, len: usize, out: &mut Vec<u8>) -> Result<(), NoMemory>
        requires within { at + len ≤ 4096 }
        requires room { vec_len out.old ≤ 2 ^ 42 }
        ensures { OnOk result
            (out.new.items ≡ out.old.items ++ map (slice_index self.now) (range_with_len at len)) }
    {
        let end = out.len() + len;
        let from = at.min(self.bytes.len());
        let to = (at + len).min(self.bytes.len());
        out.extend_from_slice(&self.bytes[from..to])?;
        out.resize(end, 0)?;
        Ok(())
    }

    /// Fills `out` with the bytes from the byte `at` on.
    pub(crate) fn read_into(&self, at: usize, out: &mut [u8])
        requires { at + length out.old ≤ 4096 }
        ensures { out.new ≡ map (slice_index self.now) (range_with_len at (length out.old)) }
    {
        let from = at.min(self.bytes.len());
        let to = (at + out.len()).min(self.bytes.len());
        out[..to - from].copy_from_slice(&self.bytes[from..to]);
        out[to - from..].fill(0);
    }
}

/// Writes `input` over all of `bytes`.
fn place(bytes: &mut [u8], input: Input)
    requires { length bytes.old ≡ length (input_bytes input) }
    ensures { bytes.new ≡ input_bytes input.entry }
{
    match input {
        Input::Bytes(input) => bytes.copy_from_slice(input),
        Input::Fill { byte, .. } => bytes.fill(byte),
    }
}
