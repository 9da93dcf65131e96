//! Boards checked against a journal: some that were written by hand, and those of a run.

use crate::given::{journal, lines, setup};
use qaudit_checks::{BoardFault, check_boards, check_looks};
use qplain::{Board, Edition, Line, LookFault, MAX_LINES, Script};
use qrules::{BoardRow, Items, Kind, Limits};
use qrun::{Beginning, Machine, NoGate, Options, run_scripts};
use qrun_replay::Outcome;
use qstore::Store;
use std::alloc::Global;
use std::sync::Wait;
use std::test::Fail;
use std::thread::Threads;

/// The journal of a file that is made, written and asked about. Its replies, at which no check looks, are no store's.
const JOURNAL: &[u8] = b"\
quotafs journal 2 workers 1
1 0 1001:0 create /a => refused EEXIST
1 0 1001:0 write /a 0 78 => refused EEXIST
1 0 1001:0 stat /a => refused EEXIST
";

/// A file that comes and goes.
const COMES_AND_GOES: &[u8] =
    b"0 1001:0 create /a\n0 1001:0 write /a 0 78\n0 1001:0 stat /a\n0 1001:0 unlink /a\n";

/// A row without limits.
fn row(kind: Kind, id: u32, blocks: u64, inodes: u64) -> BoardRow {
    BoardRow {
        kind,
        id,
        blocks,
        inodes,
        limits: Limits::default(),
        block_end: None,
        inode_end: None,
    }
}

/// A board of one file, on which bob has N blocks, and all together have so many.
fn board(alloc: Global, version: u64, bob: u64, all: u64) -> Result<Board, Fail> {
    let root = row(Kind::User, 0, 0, 1);
    let bob = row(Kind::User, 1001, bob, 1);
    let group = row(Kind::Group, 0, all, 2);
    let project = row(Kind::Project, 0, all, 2);
    let rows = vec![in alloc; root, bob, group, project]?;
    Ok(Board {
        version,
        rows: Items::new(rows),
        blocks: all,
        inodes: 2,
    })
}

/// Such boards.
fn boards(alloc: Global, rows: &[(u64, u64, u64)]) -> Result<Vec<Board>, Fail> {
    let mut boards = Vec::new(alloc);
    for (version, bob, all) in rows {
        boards.push(board(alloc, *version, *bob, *all)?)?;
    }
    Ok(boards)
}

/// Holds such boards against the journal.
fn checked(alloc: Global, rows: &[(u64, u64, u64)]) -> Result<Result<(), BoardFault>, Fail> {
    let boards = boards(alloc, rows)?;
    let journal = journal(alloc, JOURNAL)?;
    let store = Store::new(alloc, setup(alloc)?, 0)?;
    Ok(check_boards(store, journal.entries(), &boards))
}

// One is right, one wrong in a row alone, one in all, one falls, and one is beyond the journal.
const ROWS: [(&[(u64, u64, u64)], Result<(), BoardFault>); 5] = [
    (&[(1, 0, 0), (2, 1, 1)], Ok(())),
    (&[(2, 2, 1)], Err(BoardFault::Board(1))),
    (&[(1, 0, 0), (2, 2, 2)], Err(BoardFault::Board(2))),
    (&[(2, 1, 1), (1, 0, 0)], Err(BoardFault::Board(2))),
    (&[(4, 1, 1)], Err(BoardFault::Board(1))),
];

#[test]
fn the_first_board_that_fails_is_told(rt: HostRuntime) -> Result<(), Fail> {
    for (rows, found) in ROWS {
        assert_eq!(rt; checked(rt.alloc(), rows)?, found);
    }
    Ok(())
}

/// Holds a look without a board and one with a board against the journal.
fn looks_checked(alloc: Global) -> Result<Result<(), BoardFault>, Fail> {
    let looks = vec![in alloc; Err(LookFault::NoBoard), Ok(board(alloc, 3, 1, 1)?)]?;
    let journal = journal(alloc, JOURNAL)?;
    let store = Store::new(alloc, setup(alloc)?, 0)?;
    Ok(check_looks(store, journal.entries(), &looks))
}

#[test]
fn a_look_without_a_board_is_passed_over(rt: HostRuntime) -> Result<(), Fail> {
    assert_eq!(rt; looks_checked(rt.alloc())?, Ok(()));
    Ok(())
}

/// A script in which a file comes and goes so often.
fn busy(alloc: Global, times: usize) -> Result<Script, Fail> {
    let given = lines(alloc, COMES_AND_GOES)?;
    let mut script: Vec<Line> = Vec::new(alloc);
    for _ in 0..times {
        for line in given.as_slice() {
            script.push(line.copy()?)?;
        }
    }
    if script.len() > MAX_LINES {
        return Err(Fail::from("lines that fit a script"));
    }
    Ok(Script::new(Items::new(script)))
}

/// A run of 15 workers and 1000 boards.
fn crowd<R: Threads + Wait + Sync>(rt: &R, alloc: Global, batch: u64) -> Result<Outcome, Fail> {
    let mut scripts: Vec<Script> = Vec::new(alloc);
    for _ in 0..15 {
        scripts.push(busy(alloc, 250)?)?;
    }
    if scripts.len() != 15 || batch == 0 || batch > 64 {
        return Err(Fail::from("15 scripts in batches"));
    }
    let options = Options {
        boards: 1000,
        batch,
    };
    let setup = setup(alloc)?.edition(Edition::Two);
    let machine = Machine { rt, alloc, seed: 0 };
    let beginning = Beginning::new(alloc, setup, 0, true)?;
    match run_scripts(&machine, beginning, scripts, options, &NoGate) {
        Ok(outcome) => Ok(outcome),
        Err(_) => Err(Fail::from("an outcome")),
    }
}

/// The blocks and the inodes that the rows of a kind have together.
fn sums(board: &Board, kind: Kind) -> (u64, u64) {
    let mut blocks: u64 = 0;
    let mut inodes: u64 = 0;
    for row in board.rows.as_slice() {
        if row.kind == kind {
            blocks = blocks.wrapping_add(row.blocks);
            inodes = inodes.wrapping_add(row.inodes);
        }
    }
    (blocks, inodes)
}

/// Whether users, groups and projects each have all that is in use, and no more than there is.
pub(crate) fn balances(board: &Board) -> bool {
    let all = (board.blocks, board.inodes);
    sums(board, Kind::User) == all
        && sums(board, Kind::Group) == all
        && sums(board, Kind::Project) == all
        && board.blocks <= 10
        && board.inodes <= 6
}

/// Whether each look has shown a board that balances, and no version falls.
fn are_whole(looks: &[Result<Board, LookFault>]) -> bool {
    let mut last: u64 = 0;
    for look in looks {
        match look {
            Ok(board) => {
                if board.version < last || !balances(board) {
                    return false;
                }
                last = board.version;
            }
            Err(_) => return false,
        }
    }
    true
}

/// Whether the boards of an outcome are whole, and the journal's.
fn are_right(alloc: Global, outcome: &Outcome) -> Result<bool, Fail> {
    let looks = outcome.boards.as_slice();
    let entries = outcome.journal.get().entries();
    let store = Store::new(alloc, outcome.setup.copy(alloc)?, 0)?;
    Ok(
        looks.len() == 1000
            && entries.len() == 15_000
            && are_whole(looks)
            && check_looks(store, entries, looks).is_ok(),
    )
}

#[test]
fn boards_beside_15_workers_are_whole(rt: HostRuntime) -> Result<(), Fail> {
    let outcome = crowd(&rt, rt.alloc(), 1)?;
    assert!(rt; are_right(rt.alloc(), &outcome)?);
    Ok(())
}

#[test]
fn boards_beside_batches_are_whole(rt: HostRuntime) -> Result<(), Fail> {
    let outcome = crowd(&rt, rt.alloc(), 64)?;
    assert!(rt; are_right(rt.alloc(), &outcome)?);
    Ok(())
}
