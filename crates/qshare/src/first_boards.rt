//! The boards of a new store, and the seats of which the last can look at them.
ghost use Rattle.std.specs.Prelude.{◌≡◌, ◌<◌, ◌≤◌, ◌-◌, [], Err, IfOk};
ghost use Rattle.qplain.specs.Journal.{board_of, no_tally};
ghost use Rattle.qplain_laws.specs.Beginnings.{IsStateOf};
ghost use Rattle.qshare.specs.Locked.{IsNewStore};
ghost use Rattle.qshare.specs.Seats.{new_seat, seats_of};
ghost use Rattle.qshare.specs.declared.opening.TheConstants.{MAX_SEATS};
ghost use Rattle.qshare.specs.declared.share_fault.ShareFault.TheVariants.{Seats};

use crate::locked_store::LockedStore;
use crate::no_boards::NoBoards;
use crate::opening::MAX_SEATS;
use crate::seat::{Blind, Seat};
use crate::seating::blind_seats;
use crate::share_fault::ShareFault;
use qplain::{Board, NoMemory};
use qrules::Items;
use qshare_boards::{Publisher, Viewer};
use qshare_history::{StoreId, TallyPart};
use qstore::Store;
use std::alloc::Global;
use std::sync::Wait;

/// The board of a new store.
fn first_board(store: &Store) -> Result<Board, NoMemory>
    ensures { IfOk result (λ board. board ≡ board_of store.now.state 0) }
{
    Ok(Board {
        version: 0,
        rows: Items::new(store.board_rows()?),
        blocks: store.blocks(),
        inodes: store.inodes(),
    })
}

/// The writing side of the boards of a new store, with a place for the reader of each of N seats.
pub(crate) fn first_publisher<S: StoreId, R: Wait + Drop>(
    alloc: Global,
    rt: R,
    locked: &LockedStore<S, NoBoards>,
    seats: u64,
) -> Result<Publisher<S, R>, NoMemory>
    requires new { IsNewStore locked.now }
    requires seats { (0 < seats) × (seats ≤ MAX_SEATS) }
    ensures published { IfOk result (λ p. p ≡ []) }
    ensures beginning { IsStateOf S.id.setting S.id.begun }
{
    let board = first_board(locked.store().store())?;
    Publisher::new(alloc, rt, &board, &locked.published(), seats as usize)
}

/// The writing side of the boards of a new store, with a place for one reader, the seats of the workers, numbered from
/// 1, and the last of N seats, which has that reader.
pub(crate) fn observed<S: StoreId, R: Wait + Drop>(
    alloc: Global,
    rt: R,
    locked: &LockedStore<S, NoBoards>,
    mut all: TallyPart<S>,
) -> Result<(Publisher<S, R>, Vec<Seat<S, Blind>>, Seat<S, Viewer<S>>), ShareFault>
    requires new { IsNewStore locked.now }
    requires all { (0 < all.parts) × (all ≡ record { tally = no_tally; parts = S.id.counters.parts }) }
    ensures publisher { IfOk result (λ r. r.0 ≡ []) }
    ensures workers { IfOk result (λ r. r.1.items ≡ seats_of (S.id.counters.parts - 1)) }
    ensures observer { IfOk result (λ r. r.2 ≡ new_seat S.id.counters.parts) }
    ensures few { result ≡ Err Seats → ⊥ }
{
    let (prefix, seats) = (locked.published(), locked.seats());
    let last = all.split_off();
    let Ok(mut publisher) = first_publisher::<S, R>(alloc, rt, locked, 1) else {
        return Err(ShareFault::OutOfMemory);
    };
    let Ok(viewer) = Viewer::new(alloc, &mut publisher, prefix.again()) else {
        return Err(ShareFault::NoReader);
    };
    let observer = Seat::new(seats, prefix.again(), last, viewer);
    let workers = blind_seats(alloc, &prefix, seats - 1, all)?;
    Ok((publisher, workers, observer))
}
