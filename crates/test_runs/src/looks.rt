//! Two seats of one store, in one thread: what one is shown of the calls of the other.
ghost use Rattle.std.specs.Prelude.{◌≡◌};

use crate::given::{lines, setup};
use qplain::{CallFault, Line, LookFault, Receipt, Refusal, Reply};
use qrules::Kind;
use qshare::{Boards, Held, Opened, Seat, Shared, Viewer};
use qshare_history::StoreId;
use std::alloc::Global;
use std::marker::Brand;
use std::sync::Wait;
use std::test::Fail;

/// What is told of two seats.
#[derive(Clone, Copy, Debug)]
enum Story {
    /// Each makes a call, and looks.
    Calls,
    /// The first holds the lock for one call, and releases it.
    OneHeld,
    /// It holds the lock for three calls, and releases it.
    ThreeHeld,
    /// It drops what it holds.
    Dropped,
}

/// The lines of all stories: a file is made, a block of it is written, and it is asked about.
pub(crate) const LINES: &[u8] = b"0 1001:0 create /a\n0 1001:0 write /a 0 78\n0 1001:0 stat /a\n";

/// The version, the blocks and the inodes of the board that a seat is shown.
pub(crate) fn board<S: StoreId>(
    seat: &mut Seat<S, Viewer<S>>,
) -> Result<(u64, u64, u64), LookFault> {
    let board = seat.board()?;
    Ok((board.version, board.blocks, board.inodes))
}

/// The version, the blocks and the inodes of a record that a seat is shown.
pub(crate) fn record<S: StoreId>(
    seat: &mut Seat<S, Viewer<S>>,
    kind: Kind,
    id: u32,
) -> Result<(u64, u64, u64), LookFault> {
    let (version, row) = seat.record(kind, id)?;
    Ok((version, row.blocks, row.inodes))
}

/// The place of a receipt, and whether the call was refused because the name is there.
fn told(answer: &Result<Receipt, CallFault>) -> Option<(u64, bool)> {
    match answer {
        Ok(Receipt { place, reply }) => {
            Some((*place, matches!(reply, Reply::Refused(Refusal::EEXIST))))
        }
        Err(_) => None,
    }
}

/// Makes a call of a seat.
pub(crate) fn call<S: StoreId, B: Boards<S>, W: Wait>(
    rt: &W,
    shared: &Shared<S, B>,
    seat: &mut Seat<S, Viewer<S>>,
    line: &Line,
) -> Option<(u64, bool)> {
    let answer = shared.call(rt, seat, &line.cred, line.moment, &line.call);
    told(&answer)
}

/// Makes a call of a seat under the lock that is held, where there is room for it.
pub(crate) fn apply<S: StoreId, B: Boards<S>>(
    held: &mut Held<'_, S, B>,
    seat: &mut Seat<S, Viewer<S>>,
    line: &Line,
) -> Option<(u64, bool)>
    requires by { seat.old.worker ≡ held.old.by }
    ensures by { (seat.new.worker ≡ seat.old.worker) × (held.new.by ≡ held.old.by) }
{
    if held.room() == 0 {
        return None;
    }
    let answer = held.apply(seat, &line.cred, line.moment, &line.call);
    told(&answer)
}

/// Each seat is shown what the other has done, also a call that was refused.
fn tell_calls<S: StoreId, B: Boards<S>, W: Wait>(
    rt: &W,
    shared: &Shared<S, B>,
    first: &mut Seat<S, Viewer<S>>,
    second: &mut Seat<S, Viewer<S>>,
    create: &Line,
) -> bool {
    let told = call(rt, shared, first, create);
    let shown = board(second);
    let bob = record(second, Kind::User, 1001);
    let nobody = record(second, Kind::User, 1002);
    let refused = call(rt, shared, second, create);
    (told, refused) == (Some((1, false)), Some((2, true)))
        && (shown, bob, nobody) == (Ok((1, 0, 2)), Ok((1, 0, 1)), Err(LookFault::ESRCH))
        && board(first) == Ok((2, 0, 2))
}

/// Makes a call under the lock. It tells what was told of it, and the board that another seat was shown before its
/// release.
fn hold_once<S: StoreId, B: Boards<S>, W: Wait>(
    rt: &W,
    shared: &Shared<S, B>,
    first: &mut Seat<S, Viewer<S>>,
    second: &mut Seat<S, Viewer<S>>,
    line: &Line,
) -> (Option<(u64, bool)>, Result<(u64, u64, u64), LookFault>) {
    let mut held = shared.hold(rt, first);
    let told = apply(&mut held, first, line);
    let shown = board(second);
    held.release(rt, first);
    (told, shown)
}

/// A look while the lock is held shows the board before, and the release publishes the call.
fn tell_one_held<S: StoreId, B: Boards<S>, W: Wait>(
    rt: &W,
    shared: &Shared<S, B>,
    first: &mut Seat<S, Viewer<S>>,
    second: &mut Seat<S, Viewer<S>>,
    lines: (&Line, &Line),
) -> bool {
    let (create, write) = lines;
    let told = call(rt, shared, first, create);
    let held = hold_once(rt, shared, first, second, write);
    let shown = board(second);
    let bob = record(second, Kind::User, 1001);
    let group = record(second, Kind::Group, 0);
    (told, held) == (Some((1, false)), (Some((2, false)), Ok((1, 0, 2))))
        && (shown, bob, group) == (Ok((2, 1, 2)), Ok((2, 1, 1)), Ok((2, 1, 2)))
}

/// Makes two calls under a lock that is held, and the first once more.
fn apply_three<S: StoreId, B: Boards<S>>(
    held: &mut Held<'_, S, B>,
    first: &mut Seat<S, Viewer<S>>,
    lines: (&Line, &Line),
) -> [Option<(u64, bool)>; 3]
    requires by { first.old.worker ≡ held.old.by }
    ensures by { (first.new.worker ≡ first.old.worker) × (held.new.by ≡ held.old.by) }
{
    let (create, write) = lines;
    let one = apply(held, first, create);
    let two = apply(held, first, write);
    [one, two, apply(held, first, create)]
}

/// Three calls are published at once.
fn tell_three_held<S: StoreId, B: Boards<S>, W: Wait>(
    rt: &W,
    shared: &Shared<S, B>,
    first: &mut Seat<S, Viewer<S>>,
    second: &mut Seat<S, Viewer<S>>,
    lines: (&Line, &Line),
) -> bool {
    let mut held = shared.hold(rt, first);
    let told = apply_three(&mut held, first, lines);
    let room = held.room();
    let before = board(second);
    held.release(rt, first);
    let after = [board(second), board(first)];
    told == [Some((1, false)), Some((2, false)), Some((3, true))]
        && (room, before) == (61, Ok((0, 0, 1)))
        && after == [Ok((3, 1, 2)), Ok((3, 1, 2))]
}

/// What a dropped hold has done is published by the next call.
fn tell_dropped<S: StoreId, B: Boards<S>, W: Wait>(
    rt: &W,
    shared: &Shared<S, B>,
    first: &mut Seat<S, Viewer<S>>,
    second: &mut Seat<S, Viewer<S>>,
    lines: (&Line, &Line),
) -> bool {
    let (create, stat) = lines;
    let mut held = shared.hold(rt, first);
    let told = apply(&mut held, first, create);
    drop(held);
    let before = board(second);
    let next = call(rt, shared, second, stat);
    (told, before, next) == (Some((1, false)), Ok((0, 0, 1)), Some((2, false)))
        && board(second) == Ok((2, 0, 2))
}

/// Whether the story of two seats comes out.
fn comes_out<S: StoreId, B: Boards<S>, W: Wait>(
    rt: &W,
    shared: &Shared<S, B>,
    seats: &mut [Seat<S, Viewer<S>>],
    lines: &[Line],
    story: Story,
) -> bool {
    let [first, second] = seats else {
        return false;
    };
    let [create, write, stat] = lines else {
        return false;
    };
    match story {
        Story::Calls => tell_calls(rt, shared, first, second, create),
        Story::OneHeld => tell_one_held(rt, shared, first, second, (create, write)),
        Story::ThreeHeld => tell_three_held(rt, shared, first, second, (create, write)),
        Story::Dropped => tell_dropped(rt, shared, first, second, (create, stat)),
    }
}

/// Whether the story of the two seats of a store comes out.
fn seated<S: StoreId, R: Wait>(rt: &R, opened: Opened, lines: &[Line], story: Story) -> bool
    requires { opened ≡ S.id }
{
    match opened.with_viewers::<S, &R>(rt) {
        Ok((shared, mut seats)) => comes_out(rt, &shared, seats.as_mut_slice(), lines, story),
        Err(_) => false,
    }
}

/// Whether the story of the two seats of a new store comes out.
fn tell<R: Wait>(rt: &R, alloc: Global, story: Story) -> Result<bool, Fail> {
    let lines = lines(alloc, LINES)?;
    match Opened::new(alloc, setup(alloc)?, 2, 0) {
        Ok(opened) => Ok(seated::<Brand, R>(rt, opened, lines.as_slice(), story)),
        Err(_) => Err(Fail::from("a store")),
    }
}

#[test]
fn calls_are_shown_to_others(rt: HostRuntime) -> Result<(), Fail> {
    assert!(rt; tell(&rt, rt.alloc(), Story::Calls)?);
    Ok(())
}

#[test]
fn a_held_call_is_shown_from_its_release_on(rt: HostRuntime) -> Result<(), Fail> {
    assert!(rt; tell(&rt, rt.alloc(), Story::OneHeld)?);
    Ok(())
}

#[test]
fn held_calls_are_published_together(rt: HostRuntime) -> Result<(), Fail> {
    assert!(rt; tell(&rt, rt.alloc(), Story::ThreeHeld)?);
    Ok(())
}

#[test]
fn the_next_call_publishes_what_was_dropped(rt: HostRuntime) -> Result<(), Fail> {
    assert!(rt; tell(&rt, rt.alloc(), Story::Dropped)?);
    Ok(())
}
