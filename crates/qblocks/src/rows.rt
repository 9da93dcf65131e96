//! The rows of a file by their numbers: what is missing, writing and reading.
ghost use Rattle.std.specs.Prelude.{◌≡◌, true, ℕ, ◌+◌, ◌-◌, ◌*◌, ◌/◌, ◌<◌, ◌≤◌, ◌^◌, ◌++◌, length, map};
ghost use Rattle.std.specs.Prelude.{vec_len, OnOk};
ghost use Rattle.std.specs.List.{range_with_len};
ghost use Rattle.qblocks.specs.Input.{input_bytes};
ghost use Rattle.qblocks.specs.Row.{PutsInRow, gaps, gaps_in, in_pieces, row_filled, row_byte};
ghost use Rattle.qblocks.specs.Rows.{ChangesRow, PutsInRows, has_row, row_of, filled, byte_at};

use crate::block::BLOCK_SIZE;
use crate::input::Input;
use crate::row::{self, ROW_BLOCKS, ROW_SIZE, Row};
use crate::span::span_end;
use crate::spare::Spare;
use std::alloc::AllocError as NoMemory;
use std::collections::BTreeMap;

pub(crate) type Rows = BTreeMap<u64, Box<Row>>;

/// How many slots of the row `r` from `first` up to `end` hold no block.
pub(crate) fn missing_in_row(rows: &Rows, r: u64, first: u64, end: u64) -> u64
    requires order { first ≤ end }
    requires within { end ≤ ROW_BLOCKS }
    ensures missing { result ≡ gaps (row_filled (row_of rows.now r)) first (end - first) }
    ensures bound { result ≤ end - first }
{
    match rows.get(&r) {
        Some(row) => row::missing(row, first, end),
        None => end - first,
    }
}

/// Writes `input` at the byte `at` of the row `r`.
fn put_in_row(rows: &mut Rows, r: u64, at: u64, input: Input, spare: &mut Spare)
    requires some { 0 < length (input_bytes input) }
    requires fits { at + length (input_bytes input) ≤ ROW_SIZE }
    requires row { has_row rows.old r ≡ true }
    requires spare { gaps_in (row_filled (row_of rows.old r)) at (length (input_bytes input)) ≤ spare.old }
    ensures puts { PutsInRow (row_of rows.old r) (row_of rows.new r) spare.old spare.new at
        (input_bytes input.entry) }
    ensures only { ChangesRow rows.old rows.new r }
{
    if let Some(row) = rows.get_mut(&r) {
        row::put(row, at, input, spare);
    }
}

/// Appends `len` bytes of the row `r` from `at` on.
fn read_row(rows: &Rows, r: u64, at: u64, len: u64, out: &mut Vec<u8>) -> Result<(), NoMemory>
    requires within { at + len ≤ ROW_SIZE }
    requires room { vec_len out.old ≤ 2 ^ 41 }
    ensures { OnOk result
        (out.new.items ≡ out.old.items ++ map (row_byte (row_of rows.now r)) (range_with_len at len)) }
{
    match rows.get(&r) {
        Some(row) => row::read(row, at, at + len, out)?,
        None => out.resize(out.len() + len as usize, 0)?,
    }
    Ok(())
}

/// How many of the blocks that `len` bytes at `off` touch are missing.
// The hint keeps its loop out of the one function that a store's calls become: there it makes a stat dearer, too.
#[inline(never)]
pub(crate) fn missing(rows: &Rows, off: u64, len: u64) -> u64
    requires { off + len ≤ 2 ^ 40 }
    ensures missing { result ≡ gaps_in (filled rows.now) off len }
    ensures bound { result ≤ 2 ^ 28 }
{
    let start = off / BLOCK_SIZE;
    let stop = span_end(BLOCK_SIZE, off, len);
    let mut missing = 0;
    for r in off / ROW_SIZE..span_end(ROW_SIZE, off, len) {
        let first = start.max(r * ROW_BLOCKS);
        let end = stop.min(r * ROW_BLOCKS + ROW_BLOCKS);
        missing += missing_in_row(rows, r, first - r * ROW_BLOCKS, end - r * ROW_BLOCKS);
    }
    missing
}

/// Writes `input` at `off`, with a block of `spare` for each that is missing.
pub(crate) fn put(rows: &mut Rows, off: u64, input: Input, spare: &mut Spare)
    requires bound { off + length (input_bytes input) ≤ 2 ^ 40 }
    requires some { 0 < length (input_bytes input) }
    requires rows { (r : ℕ) → in_pieces ROW_SIZE off (length (input_bytes input)) r ≡ true
        → has_row rows.old r ≡ true }
    requires spare { gaps_in (filled rows.old) off (length (input_bytes input)) ≤ spare.old }
    ensures puts { PutsInRows rows.old rows.new spare.old spare.new off (input_bytes input.entry) }
    ensures rows { (r : ℕ) → has_row rows.new r ≡ has_row rows.old r }
{
    let mut done = 0;
    while done < input.len() {
        let at = off + done;
        let len = (ROW_SIZE - at % ROW_SIZE).min(input.len() - done);
        put_in_row(
            rows,
            at / ROW_SIZE,
            at % ROW_SIZE,
            input.part(done, len),
            spare,
        );
        done += len;
    }
}

/// Appends the bytes from `off` up to `end`.
pub(crate) fn read(rows: &Rows, off: u64, end: u64, out: &mut Vec<u8>) -> Result<(), NoMemory>
    requires order { off ≤ end }
    requires bound { end ≤ 2 ^ 40 }
    requires room { vec_len out.old ≤ 2 ^ 40 }
    ensures { OnOk result
        (out.new.items ≡ out.old.items ++ map (byte_at rows.now) (range_with_len off (end - off))) }
{
    let mut at = off;
    while at < end {
        let len = (ROW_SIZE - at % ROW_SIZE).min(end - at);
        read_row(rows, at / ROW_SIZE, at % ROW_SIZE, len, out)?;
        at += len;
    }
    Ok(())
}

/// Fills `out` with bytes of the row `r` from `at` on.
fn read_row_into(rows: &Rows, r: u64, at: u64, out: &mut [u8])
    requires { at + length out.old ≤ ROW_SIZE }
    ensures { out.new ≡ map (row_byte (row_of rows.now r)) (range_with_len at (length out.old)) }
{
    match rows.get(&r) {
        Some(row) => row::read_into(row, at, out),
        None => out.fill(0),
    }
}

/// Fills `out` with the bytes from `off` on.
pub(crate) fn read_into(rows: &Rows, off: u64, out: &mut [u8])
    requires { off + length out.old ≤ 2 ^ 40 }
    ensures { out.new ≡ map (byte_at rows.now) (range_with_len off (length out.old)) }
{
    let mut done = 0;
    while done < out.len() {
        let at = off + done as u64;
        let len = ((ROW_SIZE - at % ROW_SIZE) as usize).min(out.len() - done);
        read_row_into(
            rows,
            at / ROW_SIZE,
            at % ROW_SIZE,
            &mut out[done..done + len],
        );
        done += len;
    }
}
