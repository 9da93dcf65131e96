//! Where the answers to a worker's lines stand.
ghost use Rattle.std.specs.Prelude.{◌≡◌, ◌+◌, ◌<◌, ◌≤◌, ◌^◌, ◌++◌, ◌∷◌, [], ℕ, length, slice_index_or};
ghost use Rattle.std.specs.Prelude.{IfOk, OnErr, OnOk, Result, Ok, Err};
ghost use Rattle.qplain.specs.declared.bounds.TheConstants.{MAX_ENTRIES};
ghost use Rattle.qrun_replay.specs.declared.failed_line.FailedLine.{FailedLine as FailedLineValue};
ghost use Rattle.qrun_replay.specs.KeptPlaces.{stand_seen};

use crate::failed_line::FailedLine;
use qplain::{CallFault, Line, NoMemory};
use std::alloc::Global;
use std::marker::Model;

/// Where an answer stands, as it is kept: at this place of the journal, or beside the failed line of this index.
#[derive(Clone, Copy, Debug)]
enum Kept {
    Journaled(u32),
    Failed(u32),
}

/// Where an answer stands: at this place of the journal, from 1, or beside its line, which is in no journal.
#[derive(Clone, Copy)]
pub(crate) enum Stand<'a> {
    Journaled(u64),
    Failed(&'a FailedLine),
}

/// Where the answers to the first lines of a worker stand, in their order: each at its place in the journal, from 1, or
/// beside its line, which is in no journal then. A line takes 8 bytes, and 96 more where it failed.
#[derive(Drop)]
pub struct Places {
    kept: Vec<Kept>,
    failed: Vec<FailedLine>,
    room: usize,
}

impl Model for Places {
    ghost use Rattle.std.specs.Prelude.{◌+◌, ◌<◌, ◌≤◌, ◌^◌, map, All, vec_capacity, vec_len};
    ghost use Rattle.qrun_replay.specs.KeptPlaces.{IsThere, stand_of};
    ghost use Rattle.qrun_replay.specs.Places.{Standing};

    ghost Value = { Standing };

    ghost view = { λ p. record { stands = map (stand_of p.failed.items) p.kept.items; room = p.room } };

    ghost invariant = { λ p. All (IsThere p.failed.items) p.kept.items
        × (vec_len p.kept + p.room ≤ vec_capacity p.kept) × (vec_len p.failed + p.room ≤ vec_capacity p.failed)
        × (vec_len p.failed + p.room < 2 ^ 32) × (vec_len p.failed ≤ vec_len p.kept) };
}

impl Places {
    /// Room for the places of the answers to N lines, of which none is told yet, and for as many that fail: 104 bytes
    /// each, of which the 96 of a line that fails are written only where one does. Lines that fail are numbered in 32
    /// bits, so N is below 2^32. An Err is out of memory.
    pub fn new(alloc: Global, many: usize) -> Result<Self, NoMemory>
        requires { many < 2 ^ 32 }
        ensures { IfOk result (λ p. p ≡ record { stands = []; room = many }) }
    {
        Ok(Places {
            kept: Vec::with_capacity(alloc, many)?,
            failed: Vec::with_capacity(alloc, many)?,
            room: many,
        })
    }

    /// No places, and room for none, which takes no memory.
    pub fn empty(alloc: Global) -> Self
        ensures { result ≡ record { stands = []; room = 0 } }
    {
        Places {
            kept: Vec::new(alloc),
            failed: Vec::new(alloc),
            room: 0,
        }
    }

    /// Makes room for the place of one answer more. An Err is out of memory.
    pub fn make_room(&mut self) -> Result<(), NoMemory>
        requires { length self.old.stands + self.old.room + 1 < 2 ^ 32 }
        ensures ok { OnOk result (self.new ≡ record self.old { room = self.old.room + 1 }) }
        ensures err { OnErr result (self.new ≡ self.old) }
    {
        self.kept.reserve(self.room + 1)?;
        self.failed.reserve(self.room + 1)?;
        self.room += 1;
        Ok(())
    }

    /// How many lines were answered.
    pub fn len(&self) -> usize
        ensures { result ≡ length self.now.stands }
    {
        self.kept.len()
    }

    /// Takes the place of the next line, for which there is room.
    #[inline(always)]
    pub fn push(&mut self, place: u64)
        requires room { 0 < self.old.room }
        requires low { place ≤ MAX_ENTRIES }
        ensures stands { self.new.stands ≡ self.old.stands ++ Ok place ∷ [] }
        ensures room { self.new.room + 1 ≡ self.old.room }
    {
        self.room -= 1;
        self.kept.push_reserved(Kept::Journaled(place as u32));
    }

    /// Takes the next line, for which there is room, where it is in no journal, and why it is in none.
    pub fn push_failed(&mut self, line: Line, fault: CallFault)
        requires room { 0 < self.old.room }
        ensures stands { self.new.stands ≡ self.old.stands ++ Err (record { line = line; fault = fault }) ∷ [] }
        ensures room { self.new.room + 1 ≡ self.old.room }
    {
        let index = self.failed.len() as u32;
        self.room -= 1;
        self.failed.push_reserved(FailedLine { line, fault });
        self.kept.push_reserved(Kept::Failed(index));
    }

    /// Takes the place of the next line, for which room is made.
    pub(crate) fn add(&mut self, place: u64) -> Result<(), NoMemory>
        requires { place ≤ MAX_ENTRIES }
        ensures stands { OnOk result (self.new.stands ≡ self.old.stands ++ Ok place ∷ []) }
        ensures room { self.new.room ≡ self.old.room }
    {
        self.kept.reserve(self.room + 1)?;
        self.kept.push_reserved(Kept::Journaled(place as u32));
        Ok(())
    }

    /// The same, which takes no more answers: the room that is left is given back.
    pub fn close(self) -> Self
        ensures { result ≡ record { stands = self.stands; room = 0 } }
    {
        let Places {
            mut kept,
            mut failed,
            room: _,
        } = self;
        kept.shrink_to_fit();
        failed.shrink_to_fit();
        Places {
            kept,
            failed,
            room: 0,
        }
    }

    /// Where the answer to the line of this index stands, from 0.
    #[inline(always)]
    pub(crate) fn get(&self, index: usize) -> Stand<'_>
        requires { index < length self.now.stands }
        ensures { (default : Result ℕ FailedLineValue) → stand_seen result
            ≡ slice_index_or self.now.stands index default }
    {
        match self.kept[index] {
            Kept::Journaled(place) => Stand::Journaled(place as u64),
            Kept::Failed(index) => Stand::Failed(&self.failed[index as usize]),
        }
    }
}
