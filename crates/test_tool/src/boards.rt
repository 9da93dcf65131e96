//! Outcomes with looks at the boards made by hand.

use crate::memory_files::{CONFIG, JOURNAL};
use crate::short::Short;
use qplain::{Board, LookFault};
use qrules::Items;
use qtool::{Config, FromText, Journal, Outcome, replay, write_outcome};
use std::alloc::{AllocError, Global};
use std::test::Fail;

/// What becomes of the script, with five looks at its boards.
const WITH_BOARDS: &[u8] = b"\
worker 1
1 done 2 blocks +0 -0 inodes +1 -0
2 done 2 blocks +1 -0 inodes +0 -0
3 stat 2 file 0 0 1 1 1
boards 5
board - failed OutOfMemory
board 0 blocks 0 inodes 1
board - failed NoBoard
board 3 blocks 1 inodes 2
board - failed ESRCH
quota at 0
user    root             --          4          0          0          -          2          0          0          -
group   root             --          4          0          0          -          2          0          0          -
totals blocks 1 of 10 inodes 2 of 6
tally blocks +1 -0 inodes +1 -0 calls 3
audit ok
";

/// A board of no records.
fn board(alloc: Global, version: u64, blocks: u64, inodes: u64) -> Board {
    Board {
        version,
        rows: Items::new(Vec::new(alloc)),
        blocks,
        inodes,
    }
}

/// What the journal leaves.
fn played(alloc: Global) -> Result<Outcome, &'static str> {
    let Ok(journal) = Journal::read(alloc, JOURNAL) else {
        return Err("a journal");
    };
    let Ok(config) = Config::read(alloc, CONFIG) else {
        return Err("a configuration");
    };
    match replay(alloc, config, &journal, 7) {
        Ok(outcome) => Ok(outcome),
        Err(_) => Err("an outcome"),
    }
}

/// Five looks.
fn looks(alloc: Global) -> Result<Vec<Result<Board, LookFault>>, AllocError> {
    Ok(vec![in alloc;
        Err(LookFault::OutOfMemory),
        Ok(board(alloc, 0, 0, 1)),
        Err(LookFault::NoBoard),
        Ok(board(alloc, 3, 1, 2)),
        Err(LookFault::ESRCH),
    ]?)
}

/// What the journal leaves, as if five looks had been taken.
fn looked_at(alloc: Global) -> Result<Outcome, Fail> {
    let looks = looks(alloc)?;
    let mut outcome = played(alloc)?;
    outcome.boards = Items::new(looks);
    Ok(outcome)
}

/// Whether an outcome is written with its boards to a writer that takes so many bytes: whole, or a beginning of that
/// length, of which the writer's refusal is told.
fn is_written(alloc: Global, outcome: &Outcome, left: usize) -> bool {
    let mut out = Short::new(alloc, left, true);
    let is_told = match write_outcome(outcome, 0, &mut out) {
        Ok(()) => left == WITH_BOARDS.len(),
        Err(fault) => left < WITH_BOARDS.len() && fault.number() == 62,
    };
    is_told && out.taken.len() == left && WITH_BOARDS.starts_with(out.taken.as_slice())
}

#[test]
fn looks_are_told_behind_the_transcripts(rt: HostRuntime) -> Result<(), Fail> {
    let outcome = looked_at(rt.alloc())?;
    assert!(rt; is_written(rt.alloc(), &outcome, WITH_BOARDS.len()));
    Ok(())
}

#[test]
fn a_refusing_writer_holds_a_beginning_of_the_looks(rt: HostRuntime) -> Result<(), Fail> {
    let outcome = looked_at(rt.alloc())?;
    for left in 0..WITH_BOARDS.len() {
        assert!(rt; is_written(rt.alloc(), &outcome, left), "at {left}");
    }
    Ok(())
}
