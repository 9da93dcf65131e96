//! What is published: a board, with the history of which it is.
ghost use Rattle.std.specs.Prelude.{◌≡◌, IfErr, IfOk, None, Some};
ghost use Rattle.qplain.specs.declared.look_fault.LookFault.TheVariants.{ESRCH, OutOfMemory};
ghost use Rattle.std.specs.List.{find};
ghost use Rattle.qplain.specs.Boards.{with_row, with_rows};
ghost use Rattle.qshare_boards.specs.Boards.{changed_by};
ghost use Rattle.qshare_boards.specs.Sheets.{board_in};
ghost use Rattle.qshare_boards.specs.Whole.{is_row_of, row_in};

use crate::board_change::BoardChange;
use left_right::Absorb;
use qplain::{Board, LookFault, NoMemory, PlacedRow};
use qrules::{BoardRow, Items, Kind};
use qshare_history::Prefix;
use std::alloc::{AllocError, Global};

/// A board with its history, as a clause reads it. No value of it is made.
pub struct Sealed {
    pub board: Board,
    pub prefix: Prefix,
}

/// A board, and the history of which it is.
#[derive(Drop)]
pub struct Sheet {
    pub(crate) version: u64,
    pub(crate) rows: Vec<BoardRow>,
    pub(crate) blocks: u64,
    pub(crate) inodes: u64,
    pub(crate) prefix: Prefix,
}

/// The change of one publication, and the history that it brings.
#[derive(Drop)]
pub struct Batch {
    pub(crate) change: BoardChange,
    pub(crate) prefix: Prefix,
}

/// Puts a row in its place, if there is such a place.
fn put_row(rows: &mut Vec<BoardRow>, placed: &PlacedRow)
    ensures { rows.new.items ≡ with_row rows.old.items placed.now }
{
    if placed.place < rows.len() {
        rows[placed.place] = placed.row;
    }
}

/// Puts each of these in its place, one after the other.
fn put_rows(rows: &mut Vec<BoardRow>, all: &[PlacedRow])
    ensures { rows.new.items ≡ with_rows rows.old.items all.now }
{
    for placed in all {
        put_row(rows, placed);
    }
}

/// Whether the row is that of this principal.
fn is_row_of(row: &BoardRow, kind: Kind, id: u32) -> bool
    ensures { result ≡ is_row_of kind id row.now }
{
    kind.is_same(row.kind) && row.id == id
}

/// The row of a principal, if there is one.
fn find_row(rows: &[BoardRow], kind: Kind, id: u32) -> Option<BoardRow>
    ensures { result ≡ find (is_row_of kind id) rows.now }
{
    for row in rows {
        if is_row_of(row, kind, id) {
            return Some(*row);
        }
    }
    None
}

impl Sheet {
    /// A sheet with a copy of this board.
    pub(crate) fn with(alloc: Global, board: &Board, prefix: Prefix) -> Result<Sheet, NoMemory>
        ensures prefix { IfOk result (λ s. s.prefix ≡ prefix) }
        ensures board { IfOk result (λ s. board_in s ≡ board.now) }
    {
        let rows = Vec::from_slice(alloc, board.rows.as_slice())?;
        Ok(Sheet {
            version: board.version,
            rows,
            blocks: board.blocks,
            inodes: board.inodes,
            prefix,
        })
    }

    /// Does a change to the board.
    fn take_in(&mut self, change: &BoardChange)
        ensures board { board_in self.new ≡ changed_by (board_in self.old) change.now }
    {
        put_rows(&mut self.rows, change.rows.as_slice());
        self.version = change.version;
        self.blocks = change.blocks;
        self.inodes = change.inodes;
    }

    /// A copy of the board. Err is OutOfMemory.
    pub(crate) fn board(&self, alloc: Global) -> Result<Board, LookFault>
        ensures ok { IfOk result (λ b. b ≡ board_in self.now) }
        ensures err { IfErr result (λ f. f ≡ OutOfMemory) }
    {
        let Ok(rows) = Vec::from_slice(alloc, self.rows.as_slice()) else {
            return Err(LookFault::OutOfMemory);
        };
        Ok(Board {
            version: self.version,
            rows: Items::new(rows),
            blocks: self.blocks,
            inodes: self.inodes,
        })
    }

    /// The row of a principal under the board's version. Err is ESRCH, where there is none.
    pub(crate) fn record(&self, kind: Kind, id: u32) -> Result<(u64, BoardRow), LookFault>
        ensures ok { IfOk result (λ r. (r.0 ≡ (board_in self.now).version)
            × (row_in (board_in self.now) kind id ≡ Some r.1)) }
        ensures err { IfErr result (λ f. (f ≡ ESRCH) × (row_in (board_in self.now) kind id ≡ None)) }
    {
        match find_row(self.rows.as_slice(), kind, id) {
            Some(row) => Ok((self.version, row)),
            None => Err(LookFault::ESRCH),
        }
    }
}

impl Absorb<Batch> for Sheet {
    ghost use Rattle.qshare_boards.specs.Sheets.{sealed_in, taken_in};

    type State = Sealed;

    ghost state = { sealed_in };

    ghost applied = { taken_in };

    ghost never_fails = { Unit {0} };

    fn absorb_first(&mut self, operation: &Batch, _other: &Sheet) -> Result<(), AllocError> {
        self.take_in(&operation.change);
        self.prefix = operation.prefix.again();
        Ok(())
    }
}
