//! A journal that is full: who calls is told so, each time, and nothing changes.
ghost use Rattle.std.specs.Prelude.{◌≡◌};

use crate::given::{lines, setup};
use crate::looks::{LINES, board, call, record};
use crate::seats::end;
use qplain::{CallFault, Line, Receipt, Tallies};
use qrules::Kind;
use qshare::{Boards, Ended, Opened, Seat, Share, Shared, Viewer};
use qshare_history::StoreId;
use std::alloc::Global;
use std::marker::Brand;
use std::sync::Wait;
use std::test::Fail;

/// Makes a call so often. It tells whether each was answered.
fn repeat<S: StoreId, B: Boards<S>, W: Wait>(
    rt: &W,
    shared: &Shared<S, B>,
    seat: &mut Seat<S, Viewer<S>>,
    line: &Line,
    times: usize,
) -> bool {
    for _ in 0..times {
        if call(rt, shared, seat, line).is_none() {
            return false;
        }
    }
    true
}

/// Makes a file, writes a block of it, and asks about it until the journal has 1,048,576 entries.
fn fill<S: StoreId, B: Boards<S>, W: Wait>(
    rt: &W,
    shared: &Shared<S, B>,
    seat: &mut Seat<S, Viewer<S>>,
    lines: &[Line],
) -> bool {
    let [create, write, stat] = lines else {
        return false;
    };
    let made = call(rt, shared, seat, create);
    let written = call(rt, shared, seat, write);
    made.is_some() && written.is_some() && repeat(rt, shared, seat, stat, 1_048_574)
}

/// Whether a call was told of a full journal.
fn is_full(answer: &Result<Receipt, CallFault>) -> bool {
    matches!(answer, Err(CallFault::JournalFull))
}

/// Whether a call is told of a full journal.
fn call_is_full<S: StoreId, B: Boards<S>, W: Wait>(
    rt: &W,
    shared: &Shared<S, B>,
    seat: &mut Seat<S, Viewer<S>>,
    line: &Line,
) -> bool {
    is_full(&shared.call(rt, seat, &line.cred, line.moment, &line.call))
}

/// Whether a call under a lock that is held is told of a full journal, and leaves the room as it was.
fn apply_is_full<S: StoreId, B: Boards<S>, W: Wait>(
    rt: &W,
    shared: &Shared<S, B>,
    seat: &mut Seat<S, Viewer<S>>,
    line: &Line,
) -> bool {
    let mut held = shared.hold(rt, seat);
    let answer = held.apply(seat, &line.cred, line.moment, &line.call);
    let room = held.room();
    held.release(rt, seat);
    is_full(&answer) && room == 64
}

/// Whether a call of a seat is told of a full journal, by itself and under the lock.
fn is_refused<S: StoreId, B: Boards<S>, W: Wait>(
    rt: &W,
    shared: &Shared<S, B>,
    seat: &mut Seat<S, Viewer<S>>,
    line: &Line,
) -> bool {
    let by_itself = call_is_full(rt, shared, seat, line);
    apply_is_full(rt, shared, seat, line) && by_itself
}

/// Whether a call of either seat is told of a full journal, and the board is as it was.
fn refuse<S: StoreId, B: Boards<S>, W: Wait>(
    rt: &W,
    shared: &Shared<S, B>,
    first: &mut Seat<S, Viewer<S>>,
    second: &mut Seat<S, Viewer<S>>,
    line: &Line,
) -> bool {
    let refused = [
        is_refused(rt, shared, first, line),
        is_refused(rt, shared, second, line),
    ];
    let shown = (board(second), record(second, Kind::User, 1001));
    refused == [true, true] && shown == (Ok((1_048_576, 1, 2)), Ok((1_048_576, 1, 1)))
}

/// Calls that would change the store, and one that the rules would refuse.
const REFUSED: &[u8] = b"0 1001:0 unlink /a\n0 1001:0 create /a\n0 1001:0 create /b\n";

/// Fills the journal of a store of two seats. Whether every further call is refused.
fn fill_and_refuse<S: StoreId, B: Boards<S>, W: Wait>(
    rt: &W,
    shared: &Shared<S, B>,
    seats: &mut [Seat<S, Viewer<S>>],
    lines: &[Line],
    refused: &[Line],
) -> bool {
    let [first, second] = seats else {
        return false;
    };
    if !fill(rt, shared, first, lines) {
        return false;
    }
    for line in refused {
        if !refuse(rt, shared, first, second, line) {
            return false;
        }
    }
    true
}

/// Whether the journal of a store that has ended has its 1,048,576 calls, and no other was counted.
fn is_whole(ended: &Ended) -> bool {
    let tallies = Tallies {
        blocks_charged: 1,
        blocks_released: 0,
        inodes_charged: 1,
        inodes_released: 0,
        calls: 1_048_576,
    };
    ended.tallies == tallies && ended.journal.len() == 1_048_576
}

/// Fills the journal of a store of two seats, makes further calls, and ends it. Whether all comes out.
fn play<S: StoreId, B: Boards<S>, W: Wait>(
    rt: &W,
    shared: Shared<S, B>,
    mut seats: Vec<Seat<S, Viewer<S>>>,
    shares: Vec<Share<S>>,
    given: (&[Line], &[Line]),
) -> Result<bool, Fail> {
    let (lines, refused) = given;
    let is_full = fill_and_refuse(rt, &shared, seats.as_mut_slice(), lines, refused);
    let ended = end(rt, shared, seats, shares)?;
    Ok(is_full && is_whole(&ended))
}

/// The same over a new store.
fn seated<S: StoreId, R: Wait>(
    rt: &R,
    alloc: Global,
    opened: Opened,
    given: (&[Line], &[Line]),
) -> Result<bool, Fail>
    requires { opened ≡ S.id }
{
    match opened.with_viewers::<S, &R>(rt) {
        Ok((shared, seats)) => play(rt, shared, seats, Vec::new(alloc), given),
        Err(_) => Err(Fail::from("a store")),
    }
}

#[test]
fn a_full_journal_stays_as_it_is(rt: HostRuntime) -> Result<(), Fail> {
    let alloc = rt.alloc();
    let told = lines(alloc, LINES)?;
    let refused = lines(alloc, REFUSED)?;
    let given = (told.as_slice(), refused.as_slice());
    match Opened::new(alloc, setup(alloc)?, 2, 0) {
        Ok(opened) => assert!(rt; seated::<Brand, _>(&rt, alloc, opened, given)?),
        Err(_) => return Err(Fail::from("a store")),
    }
    Ok(())
}
