//! A row: 16 slots beside each other, for 64 KiB of the file.
ghost use Rattle.std.specs.Prelude.{◌≡◌, ◌≢◌, true, false, ℕ, ◌+◌, ◌-◌, ◌*◌, ◌/◌, ◌<◌, ◌≤◌, ◌&&◌, ◌^◌, nat_lt};
ghost use Rattle.std.specs.Prelude.{length, is_some, IfOk, IfSome, OnOk, None, if◌then◌else◌, ◌++◌, map, vec_len};
ghost use Rattle.std.specs.List.{range_with_len};
ghost use Rattle.qblocks.specs.Input.{input_bytes};
ghost use Rattle.qblocks.specs.Row.{CutsOff, IsFirstFrom, PutsInRow, PutsInSlot, LosesBlocks, byte_of, slot_at};
ghost use Rattle.qblocks.specs.Row.{row_filled, row_byte, gaps, gaps_in};

use crate::block::{BLOCK_SIZE, Block};
use crate::input::Input;
use crate::spare::Spare;
use std::alloc::{AllocError as NoMemory, Global};

/// How many slots a row has.
pub(crate) const ROW_BLOCKS: u64 = 16;

/// How many bytes of the file a row is for.
pub(crate) const ROW_SIZE: u64 = 65536;

/// Room for a block, which may be there.
pub(crate) type Slot = Option<Block>;

pub(crate) type Row = [Slot; 16];

pub(crate) fn empty_row(alloc: Global) -> Result<Box<Row>, NoMemory>
    ensures { IfOk result (λ row. (j : ℕ) → slot_at row.value j ≡ None) }
{
    Ok(Box::new(alloc, std::array::from_fn(|_| None))?)
}

/// How many slots from `first` up to `end` hold no block.
pub(crate) fn missing(row: &Row, first: u64, end: u64) -> u64
    requires order { first ≤ end }
    requires within { end ≤ ROW_BLOCKS }
    ensures missing { result ≡ gaps (row_filled row.now) first (end - first) }
    ensures bound { result ≤ end - first }
{
    let mut missing = 0;
    for j in first..end {
        if row[j as usize].is_none() {
            missing += 1;
        }
    }
    missing
}

/// Whether no slot holds a block. It looks no further than the first that does.
pub(crate) fn is_vacant(row: &Row) -> bool
    ensures vacant { result ≡ true → gaps (row_filled row.now) 0 ROW_BLOCKS ≡ ROW_BLOCKS }
    ensures used { result ≡ false → gaps (row_filled row.now) 0 ROW_BLOCKS ≢ ROW_BLOCKS }
{
    for j in 0..ROW_BLOCKS {
        if row[j as usize].is_some() {
            return false;
        }
    }
    true
}

/// The first slot from `first` on that holds a block.
pub(crate) fn next_slot(row: &Row, first: u64) -> Option<u64>
    requires { first ≤ ROW_BLOCKS }
    ensures next { IsFirstFrom (row_filled row.now) first result }
    ensures bound { IfSome result (λ j. j < ROW_BLOCKS) }
{
    for j in first..ROW_BLOCKS {
        if row[j as usize].is_some() {
            return Some(j);
        }
    }
    None
}

/// Writes `input` at the byte `at` of the block `j`, which comes from `spare` where there is none yet.
fn put_block(row: &mut Row, j: u64, at: u64, input: Input, spare: &mut Spare)
    requires slot { j < ROW_BLOCKS }
    requires fits { at + length (input_bytes input) ≤ BLOCK_SIZE }
    requires spare { (if row_filled row.old j then 0 else 1) ≤ spare.old }
    ensures { PutsInSlot row.old row.new j spare.old spare.new at (input_bytes input.entry) }
{
    let slot = &mut row[j as usize];
    if let Some(block) = slot {
        block.overwrite(at as usize, input);
        return;
    }
    let mut block = spare.take();
    block.extend(at as usize, input);
    *slot = Some(block);
}

/// Writes `input` at the byte `at` of the row, with a block of `spare` for each that is missing.
pub(crate) fn put(row: &mut Row, at: u64, input: Input, spare: &mut Spare)
    requires some { 0 < length (input_bytes input) }
    requires fits { at + length (input_bytes input) ≤ ROW_SIZE }
    requires spare { gaps_in (row_filled row.old) at (length (input_bytes input)) ≤ spare.old }
    ensures { PutsInRow row.old row.new spare.old spare.new at (input_bytes input.entry) }
{
    let mut done = 0;
    while done < input.len() {
        let at = at + done;
        let len = (BLOCK_SIZE - at % BLOCK_SIZE).min(input.len() - done);
        put_block(
            row,
            at / BLOCK_SIZE,
            at % BLOCK_SIZE,
            input.part(done, len),
            spare,
        );
        done += len;
    }
}

/// Takes out the blocks from the slot `first` on.
fn free_from(row: &mut Row, first: u64)
    ensures before { (j : ℕ) → j < first → slot_at row.new j ≡ slot_at row.old j }
    ensures freed { (j : ℕ) → first ≤ j → slot_at row.new j ≡ None }
{
    for j in first..ROW_BLOCKS {
        row[j as usize] = None;
    }
}

/// Forgets the bytes of the block `j` from `at` on.
fn zero_tail(row: &mut Row, j: u64, at: u64)
    requires slot { j < ROW_BLOCKS }
    requires within { at ≤ BLOCK_SIZE }
    ensures filled { (q : ℕ) → row_filled row.new q ≡ row_filled row.old q }
    ensures others { (q : ℕ) → q ≢ j → slot_at row.new q ≡ slot_at row.old q }
    ensures before { (i : ℕ) → i < at
        → byte_of (slot_at row.new j) i ≡ byte_of (slot_at row.old j) i }
    ensures tail { (i : ℕ) → at ≤ i → byte_of (slot_at row.new j) i ≡ 0 }
{
    let slot = &mut row[j as usize];
    if let Some(mut block) = slot.take() {
        block.cut(at as usize);
        *slot = Some(block);
    }
}

/// Forgets the bytes from `at` on, takes out the blocks that begin there or after, and gives their
/// number.
pub(crate) fn cut(row: &mut Row, at: u64) -> u64
    requires { at < ROW_SIZE }
    ensures cuts { CutsOff (row_byte row.old) (row_byte row.new) at }
    ensures filled { (j : ℕ) → row_filled row.new j
        ≡ (row_filled row.old j && nat_lt (j * BLOCK_SIZE) at) }
    ensures freed { LosesBlocks row.old row.new result }
    ensures bound { result ≤ ROW_BLOCKS }
{
    let first = (at + BLOCK_SIZE - 1) / BLOCK_SIZE;
    let freed = ROW_BLOCKS - first - missing(row, first, ROW_BLOCKS);
    free_from(row, first);
    zero_tail(row, at / BLOCK_SIZE, at % BLOCK_SIZE);
    freed
}

/// Appends `len` bytes of the block `j` from `at` on.
fn read_block(row: &Row, j: u64, at: u64, len: u64, out: &mut Vec<u8>) -> Result<(), NoMemory>
    requires slot { j < ROW_BLOCKS }
    requires within { at + len ≤ BLOCK_SIZE }
    requires room { vec_len out.old ≤ 2 ^ 42 }
    ensures { OnOk result
        (out.new.items ≡ out.old.items ++ map (byte_of (slot_at row.now j)) (range_with_len at len)) }
{
    match &row[j as usize] {
        Some(block) => block.read(at as usize, len as usize, out)?,
        None => out.resize(out.len() + len as usize, 0)?,
    }
    Ok(())
}

/// Appends the bytes of the row from `from` up to `to`.
pub(crate) fn read(row: &Row, from: u64, to: u64, out: &mut Vec<u8>) -> Result<(), NoMemory>
    requires order { from ≤ to }
    requires within { to ≤ ROW_SIZE }
    requires room { vec_len out.old ≤ 2 ^ 41 }
    ensures { OnOk result
        (out.new.items ≡ out.old.items ++ map (row_byte row.now) (range_with_len from (to - from))) }
{
    let mut at = from;
    while at < to {
        let len = (BLOCK_SIZE - at % BLOCK_SIZE).min(to - at);
        read_block(row, at / BLOCK_SIZE, at % BLOCK_SIZE, len, out)?;
        at += len;
    }
    Ok(())
}

/// Fills `out` with bytes of the block `j` from `at` on.
fn read_block_into(row: &Row, j: u64, at: u64, out: &mut [u8])
    requires slot { j < ROW_BLOCKS }
    requires within { at + length out.old ≤ BLOCK_SIZE }
    ensures { out.new ≡ map (byte_of (slot_at row.now j)) (range_with_len at (length out.old)) }
{
    match &row[j as usize] {
        Some(block) => block.read_into(at as usize, out),
        None => out.fill(0),
    }
}

/// Fills `out` with the bytes of the row from `from` on.
pub(crate) fn read_into(row: &Row, from: u64, out: &mut [u8])
    requires { from + length out.old ≤ ROW_SIZE }
    ensures { out.new ≡ map (row_byte row.now) (range_with_len from (length out.old)) }
{
    let mut done = 0;
    while done < out.len() {
        let at = from + done as u64;
        let len = ((BLOCK_SIZE - at % BLOCK_SIZE) as usize).min(out.len() - done);
        read_block_into(
            row,
            at / BLOCK_SIZE,
            at % BLOCK_SIZE,
            &mut out[done..done + len],
        );
        done += len;
    }
}
