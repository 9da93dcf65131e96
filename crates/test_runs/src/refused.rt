//! Each allocation refused in turn, over two seats of one store: what everybody can see is as before, and the same call
//! then gets its receipt.
ghost use Rattle.std.specs.Prelude.{◌≡◌};

use crate::given::{lines, setup};
use crate::insists::{insist_apply, insist_behind, insist_call, room, shown, tell_refused};
use crate::looks::record;
use crate::seats::end;
use qaudit_checks::check_boards;
use qplain::{Board, Entry, Line};
use qrules::{Items, Kind};
use qshare::{Boards, Held, Opened, Seat, ShareFault, Shared, Viewer};
use qshare_history::StoreId;
use qstore::Store;
use std::alloc::Global;
use std::io::Print;
use std::marker::Brand;
use std::process::Abort;
use std::sync::Wait;
use std::test::Fail;

/// The lines of the calls.
const LINES: &[u8] = b"\
0 1001:0 create /a
0 1001:0 write /a 0 78
0 1001:0 create /b
0 1001:0 unlink /a
";

/// Notes the board that a seat is shown. Whether there was one.
fn note<S: StoreId>(
    rt: &impl Print,
    seat: &mut Seat<S, Viewer<S>>,
    boards: &mut Vec<Board>,
) -> bool {
    match shown(rt, seat) {
        Some(board) => boards.push(board).is_ok(),
        None => false,
    }
}

/// Makes three calls under the lock.
fn apply_three<S: StoreId, B: Boards<S>, R: Print>(
    rt: &R,
    held: &mut Held<'_, S, B>,
    first: &mut Seat<S, Viewer<S>>,
    second: &mut Seat<S, Viewer<S>>,
    lines: (&Line, &Line, &Line),
) -> [Option<(u64, bool)>; 3]
    requires by { first.old.worker ≡ held.old.by }
    ensures by { (first.new.worker ≡ first.old.worker) × (held.new.by ≡ held.old.by) }
{
    let (create, write, other) = lines;
    let one = insist_apply(rt, held, first, second, write);
    let two = insist_apply(rt, held, first, second, other);
    [one, two, insist_apply(rt, held, first, second, create)]
}

/// Holds the lock for three calls, the last of which is refused by the rules. Whether all is told and shown.
fn hold_three<S: StoreId, B: Boards<S>, R: Wait + Print>(
    rt: &R,
    shared: &Shared<S, B>,
    first: &mut Seat<S, Viewer<S>>,
    second: &mut Seat<S, Viewer<S>>,
    lines: (&Line, &Line, &Line),
) -> bool {
    let mut held = shared.hold(rt, first);
    let told = apply_three(rt, &mut held, first, second, lines);
    let room = held.room();
    let before = record(second, Kind::User, 1001);
    held.release(rt, first);
    let after = record(second, Kind::User, 1001);
    told == [Some((2, false)), Some((3, false)), Some((4, true))]
        && (room, before, after) == (61, Ok((1, 0, 1)), Ok((4, 1, 2)))
}

/// Makes a call under the lock, and drops it: the call is not shown.
fn apply_and_drop<S: StoreId, B: Boards<S>, R: Wait + Print>(
    rt: &R,
    shared: &Shared<S, B>,
    first: &mut Seat<S, Viewer<S>>,
    second: &mut Seat<S, Viewer<S>>,
    unlink: &Line,
) -> bool {
    let mut held = shared.hold(rt, first);
    let told = insist_apply(rt, &mut held, first, second, unlink);
    drop(held);
    (told, record(second, Kind::User, 1001)) == (Some((5, false)), Ok((4, 1, 2)))
}

/// Makes the next call behind what was dropped, which is shown with it.
fn call_behind<S: StoreId, B: Boards<S>, R: Wait + Print>(
    rt: &R,
    shared: &Shared<S, B>,
    first: &mut Seat<S, Viewer<S>>,
    second: &mut Seat<S, Viewer<S>>,
    create: &Line,
) -> bool {
    let told = insist_behind(rt, shared, first, second, create, (5, 0, 1));
    (told, record(second, Kind::User, 1001)) == (Some((6, false)), Ok((6, 0, 2)))
}

/// Makes all calls, and notes the boards that are shown before the first step and after each. Whether all comes out.
fn walk<S: StoreId, B: Boards<S>, R: Wait + Print>(
    rt: &R,
    shared: &Shared<S, B>,
    first: &mut Seat<S, Viewer<S>>,
    second: &mut Seat<S, Viewer<S>>,
    lines: &[Line],
    boards: &mut Vec<Board>,
) -> bool {
    let [create, write, other, unlink] = lines else {
        return false;
    };
    note(rt, second, boards)
        && insist_call(rt, shared, first, second, create) == Some((1, false))
        && note(rt, second, boards)
        && hold_three(rt, shared, first, second, (create, write, other))
        && note(rt, second, boards)
        && apply_and_drop(rt, shared, first, second, unlink)
        && call_behind(rt, shared, first, second, create)
        && note(rt, first, boards)
}

/// A new store.
fn store(alloc: Global) -> Result<Store, &'static str> {
    match Store::new(alloc, setup(alloc)?, 0) {
        Ok(store) => Ok(store),
        Err(_) => Err("a store"),
    }
}

/// Whether the boards are those of the journal, which has the calls that were answered, and none is older than one
/// before it.
fn are_right(alloc: Global, journal: &[Entry], boards: &[Board]) -> bool {
    match store(alloc) {
        Ok(store) => {
            (journal.len(), boards.len()) == (6, 4) && check_boards(store, journal, boards).is_ok()
        }
        Err(_) => false,
    }
}

/// Walks through the calls of the two seats of a store. Whether all comes out.
fn walk_both<S: StoreId, B: Boards<S>, R: Wait + Print>(
    rt: &R,
    shared: &Shared<S, B>,
    seats: &mut [Seat<S, Viewer<S>>],
    lines: &[Line],
    boards: &mut Vec<Board>,
) -> bool {
    match seats {
        [first, second] => walk(rt, shared, first, second, lines, boards),
        _ => false,
    }
}

/// Whether the boards are right. Where an allocation is refused, they are held against the journal once more.
fn are_right_at_last(rt: &impl Print, alloc: Global, journal: &[Entry], boards: &[Board]) -> bool {
    if are_right(alloc, journal, boards) {
        return true;
    }
    tell_refused(rt);
    are_right(alloc, journal, boards)
}

/// Walks through the calls of a store, ends it, and holds the boards against its journal. Whether all comes out.
fn play<S: StoreId, B: Boards<S>, R: Wait + Print>(
    rt: &R,
    alloc: Global,
    shared: Shared<S, B>,
    mut seats: Vec<Seat<S, Viewer<S>>>,
    lines: &[Line],
) -> Result<bool, Fail> {
    let mut boards = room(rt, alloc, 4)?;
    let shares = room(rt, alloc, 2)?;
    let is_walked = walk_both(rt, &shared, seats.as_mut_slice(), lines, &mut boards);
    let ended = end(rt, shared, seats, shares)?;
    Ok(is_walked && are_right_at_last(rt, alloc, &ended.journal, &boards))
}

/// Plays over a store. It tells whether there was one: an allocation may be refused to its making.
fn seated<S: StoreId, R: Wait + Abort + Print>(
    rt: &R,
    alloc: Global,
    opened: Opened,
    lines: &[Line],
) -> Result<bool, Fail>
    requires { opened ≡ S.id }
{
    match opened.with_viewers::<S, &R>(rt) {
        Ok((shared, seats)) => {
            assert!(rt; play(rt, alloc, shared, seats, lines)?);
            Ok(true)
        }
        Err(fault) => {
            tell_refused(rt);
            assert!(rt; matches!(fault, ShareFault::OutOfMemory | ShareFault::NoReader));
            Ok(false)
        }
    }
}

/// A new store for two seats, and the lines.
fn begin(alloc: Global) -> Result<(Opened, Items<Line>), &'static str> {
    let lines = lines(alloc, LINES)?;
    match Opened::new(alloc, setup(alloc)?, 2, 0) {
        Ok(opened) => Ok((opened, lines)),
        Err(_) => Err("a store"),
    }
}

/// Opens a store, and plays over it. It tells whether there was one.
fn tell<R: Wait + Abort + Print>(rt: &R, alloc: Global) -> Result<bool, Fail> {
    let (opened, lines) = match begin(alloc) {
        Ok(begun) => begun,
        Err(_) => {
            tell_refused(rt);
            begin(alloc)?
        }
    };
    seated::<Brand, R>(rt, alloc, opened, lines.as_slice())
}

#[test]
fn a_refused_call_changes_nothing(rt: HostRuntime) -> Result<(), Fail> {
    let is_opened = tell(&rt, rt.alloc())?;
    assert!(rt; is_opened || tell(&rt, rt.alloc())?);
    Ok(())
}
