//! Three seats of one store, in one thread: a share that is missing at the end, and the end.
ghost use Rattle.std.specs.Prelude.{◌≡◌};

use crate::given::{FIRST_FILES, lines, setup};
use qplain::{CallFault, Line, Tallies};
use qshare::{Boards, EndFault, Ended, Opened, Seat, Share, Shared};
use qshare_history::StoreId;
use std::alloc::Global;
use std::marker::Brand;
use std::sync::Wait;
use std::test::Fail;

/// Makes the call of each line with another seat. Whether each was answered.
fn make_files<S: StoreId, B: Boards<S>, V: Drop, W: Wait>(
    rt: &W,
    shared: &Shared<S, B>,
    seats: &mut [Seat<S, V>],
    lines: &[Line],
) -> bool {
    for at in 0..seats.len() {
        if at < lines.len() {
            let line = &lines[at];
            let answer: Result<u64, CallFault> = shared.call(
                rt,
                &mut seats[at],
                &line.cred,
                line.moment,
                &line.call,
            );
            if answer.is_err() {
                return false;
            }
        }
    }
    true
}

/// Hands in the share of each seat.
fn hand_in<S: StoreId, V: Drop>(
    seats: Vec<Seat<S, V>>,
    shares: &mut Vec<Share<S>>,
) -> Result<(), Fail> {
    for seat in seats {
        shares.push(seat.finish())?;
    }
    Ok(())
}

/// Ends a store with these shares.
fn end_with<S: StoreId, B: Boards<S>, W: Wait>(
    rt: &W,
    shared: Shared<S, B>,
    shares: Vec<Share<S>>,
) -> Result<Ended, Fail> {
    match shared.end(rt, shares) {
        Ok(store) => Ok(store.into_parts()),
        Err(_) => Err(Fail::from("an end")),
    }
}

/// Ends a store with the shares of all its seats, for which there may be room already.
pub(crate) fn end<S: StoreId, B: Boards<S>, V: Drop, W: Wait>(
    rt: &W,
    shared: Shared<S, B>,
    seats: Vec<Seat<S, V>>,
    mut shares: Vec<Share<S>>,
) -> Result<Ended, Fail> {
    hand_in(seats, &mut shares)?;
    end_with(rt, shared, shares)
}

/// Asks for the end of a store without the second of three shares, which is told as missing. All is given back.
fn end_without_second<S: StoreId, B: Boards<S>, W: Wait>(
    rt: &W,
    shared: Shared<S, B>,
    shares: Vec<Share<S>>,
) -> Option<(Shared<S, B>, Vec<Share<S>>)> {
    let Err(fault) = shared.end(rt, shares) else {
        return None;
    };
    let number = fault.number();
    let EndFault::Missing {
        worker,
        shared,
        shares,
    } = fault;
    if (number, worker, shares.len()) == (25, 2, 2) {
        Some((shared, shares))
    } else {
        None
    }
}

/// The end of a store whose second share is handed in too late.
fn end_late<S: StoreId, B: Boards<S>, W: Wait>(
    rt: &W,
    shared: Shared<S, B>,
    mut shares: Vec<Share<S>>,
) -> Result<Ended, Fail> {
    if shares.len() < 2 {
        return Err(Fail::from("three shares"));
    }
    let second = shares.remove(1);
    match end_without_second(rt, shared, shares) {
        Some((shared, mut shares)) => {
            shares.push(second)?;
            end_with(rt, shared, shares)
        }
        None => Err(Fail::from("a missing share")),
    }
}

/// The end of a store whose seats make a file each, and whose second share is handed in too late.
fn end_twice<S: StoreId, R: Wait>(
    rt: &R,
    alloc: Global,
    opened: Opened,
    lines: &[Line],
) -> Result<Ended, Fail>
    requires { opened ≡ S.id }
{
    let Ok((shared, mut seats)) = opened.without_viewers::<S>() else {
        return Err(Fail::from("a store"));
    };
    if !make_files(rt, &shared, &mut seats, lines) {
        return Err(Fail::from("a receipt"));
    }
    let mut shares = Vec::new(alloc);
    hand_in(seats, &mut shares)?;
    end_late(rt, shared, shares)
}

/// Whether a store that has ended has its three calls, each of which has made a file.
fn is_whole(ended: &Ended) -> bool {
    let tallies = Tallies {
        blocks_charged: 0,
        blocks_released: 0,
        inodes_charged: 3,
        inodes_released: 0,
        calls: 3,
    };
    ended.tallies == tallies && ended.journal.len() == 3
}

#[test]
fn three_seats_end_together(rt: HostRuntime) -> Result<(), Fail> {
    let lines = lines(rt.alloc(), FIRST_FILES)?;
    let Ok(opened) = Opened::new(rt.alloc(), setup(rt.alloc())?, 3, 0) else {
        return Err(Fail::from("a store"));
    };
    let ended = end_twice::<Brand, _>(&rt, rt.alloc(), opened, lines.as_slice())?;
    assert!(rt; is_whole(&ended));
    Ok(())
}
