//! What is asked for once more where an allocation is refused: nobody sees a change, and then it comes. What does not
//! come out is told as nothing.
ghost use Rattle.std.specs.Prelude.{◌≡◌};

use crate::boards::balances;
use crate::looks::{apply, call, record};
use qplain::{Board, Line, LookFault};
use qrules::Kind;
use qshare::{Boards, Held, Seat, Shared, Viewer};
use qshare_history::StoreId;
use std::alloc::{AllocError, Global};
use std::io::Print;
use std::sync::Wait;

/// Tells `checks/allocations` that this run has refused an allocation of the test.
pub(crate) fn tell_refused(rt: &impl Print) {
    let _ = println!(rt; "an allocation was refused");
}

/// Room for N items. Where it is refused, it is asked for once more.
pub(crate) fn room<T: Drop>(
    rt: &impl Print,
    alloc: Global,
    items: usize,
) -> Result<Vec<T>, AllocError> {
    match Vec::with_capacity(alloc, items) {
        Ok(room) => Ok(room),
        Err(_) => {
            tell_refused(rt);
            Vec::with_capacity(alloc, items)
        }
    }
}

/// The board that a seat is shown. Where memory for its copy is refused, it looks once more.
fn looked<S: StoreId>(rt: &impl Print, seat: &mut Seat<S, Viewer<S>>) -> Result<Board, LookFault> {
    match seat.board() {
        Err(LookFault::OutOfMemory) => {
            tell_refused(rt);
            seat.board()
        }
        answer => answer,
    }
}

/// The board that a seat is shown, by whatever look: it balances, and has the version of a record that was shown before
/// it, which takes no memory.
pub(crate) fn shown<S: StoreId>(rt: &impl Print, seat: &mut Seat<S, Viewer<S>>) -> Option<Board> {
    let Ok((version, _, _)) = record(seat, Kind::User, 1001) else {
        return None;
    };
    let Ok(board) = looked(rt, seat) else {
        return None;
    };
    if board.version == version && balances(&board) {
        Some(board)
    } else {
        None
    }
}

/// Whether a seat is shown this board.
fn is_shown<S: StoreId>(rt: &impl Print, seat: &mut Seat<S, Viewer<S>>, board: &Board) -> bool {
    match shown(rt, seat) {
        Some(shown) => shown == *board,
        None => false,
    }
}

/// Makes a call of the first seat. Where an allocation is refused, nobody sees a change, and it is made once more.
pub(crate) fn insist_call<S: StoreId, B: Boards<S>, R: Wait + Print>(
    rt: &R,
    shared: &Shared<S, B>,
    first: &mut Seat<S, Viewer<S>>,
    second: &mut Seat<S, Viewer<S>>,
    line: &Line,
) -> Option<(u64, bool)> {
    let before = shown(rt, second)?;
    let told = call(rt, shared, first, line);
    if told.is_some() {
        return told;
    }
    tell_refused(rt);
    if is_shown(rt, first, &before) && is_shown(rt, second, &before) {
        call(rt, shared, first, line)
    } else {
        None
    }
}

/// Makes a call of the first seat under the lock that it holds. Where an allocation is refused, nobody sees a change,
/// the room is as before, and it is made once more.
pub(crate) fn insist_apply<S: StoreId, B: Boards<S>, R: Print>(
    rt: &R,
    held: &mut Held<'_, S, B>,
    first: &mut Seat<S, Viewer<S>>,
    second: &mut Seat<S, Viewer<S>>,
    line: &Line,
) -> Option<(u64, bool)>
    requires by { first.old.worker ≡ held.old.by }
    ensures by { (first.new.worker ≡ first.old.worker) × (held.new.by ≡ held.old.by) }
{
    let before = shown(rt, second)?;
    let room = held.room();
    let told = apply(held, first, line);
    if told.is_some() {
        return told;
    }
    tell_refused(rt);
    if held.room() == room && is_shown(rt, second, &before) {
        apply(held, first, line)
    } else {
        None
    }
}

/// Makes a call of the second seat behind one that a dropped hold has left waiting. Where an allocation is refused, the
/// first seat is shown a whole board with what waited, and this record of bob, and the call is made once more.
pub(crate) fn insist_behind<S: StoreId, B: Boards<S>, R: Wait + Print>(
    rt: &R,
    shared: &Shared<S, B>,
    first: &mut Seat<S, Viewer<S>>,
    second: &mut Seat<S, Viewer<S>>,
    line: &Line,
    waited: (u64, u64, u64),
) -> Option<(u64, bool)> {
    let told = call(rt, shared, second, line);
    if told.is_some() {
        return told;
    }
    tell_refused(rt);
    if record(first, Kind::User, 1001) == Ok(waited) && shown(rt, first).is_some() {
        call(rt, shared, second, line)
    } else {
        None
    }
}
