//! How a shared store is made: first a store, then its identity, then its seats.
ghost use Rattle.std.specs.Prelude.{◌≡◌, ◌<◌, ◌≤◌, ◌⊎◌, ◌-◌, [], false, true, Err, IfOk, IfErr, IsOk};
ghost use Rattle.std.specs.Bool.{Decides};
ghost use Rattle.qplain.specs.Journal.{no_tally};
ghost use Rattle.qplain.specs.State.{start};
ghost use Rattle.qshare.specs.Locked.{IsNewStore};
ghost use Rattle.qshare.specs.Seats.{new_seat, seats_of};
ghost use Rattle.qshare.specs.declared.share_fault.ShareFault.TheVariants.{Seats};

use crate::boards::Boards;
use crate::first_boards::{first_publisher, observed};
use crate::locked_store::LockedStore;
use crate::no_boards::NoBoards;
use crate::on_demand::OnDemand;
use crate::published::Published;
use crate::seat::{Blind, Seat};
use crate::seating::{blind_seats, viewing_seats};
use crate::share_fault::ShareFault;
use crate::shared::Shared;
use qplain::Setup;
use qshare_boards::Viewer;
use qshare_history::{BlankCounters, History, StoreId, TallyPart};
use qstore_journaled::JournaledStore;
use std::alloc::Global;
use std::marker::Model;
use std::sync::Wait;
use std::sync::atomic::AtomicBool;

/// The most seats that a store may have.
pub const MAX_SEATS: u64 = 16;

/// A shared store that has no identity yet. Contracts see the identity that it can have.
#[derive(Drop)]
pub struct Opened {
    alloc: Global,
    store: JournaledStore,
    history: History,
    counters: BlankCounters,
    seats: u64,
    /// Whether a clock rules it.
    clocked: bool,
}

impl Model for Opened {
    ghost use Rattle.std.specs.Prelude.{◌≡◌, ◌<◌, ◌≤◌, []};
    ghost use Rattle.qshare_history.specs.StoreIds.{Identity};

    ghost Value = { Identity };

    ghost view = { λ o. record {
      setting = o.store.setting;
      begun = o.store.begun;
      history = o.history.history;
      counters = o.counters;
      clocked = o.clocked;
    } };

    ghost use Rattle.qstore_journaled.specs.Journaled.{IsPlayed};

    ghost invariant = { λ o. IsPlayed o.store × (o.store.journal ≡ []) × (o.history.entries ≡ [])
        × (0 < o.seats) × (o.seats ≤ 16) × (o.counters.parts ≡ o.seats) };
}

/// Whether a store may have so many seats.
fn may_have(seats: u64) -> bool
    ensures { Decides result ((0 < seats) × (seats ≤ MAX_SEATS)) }
{
    0 < seats && seats <= MAX_SEATS
}

impl Opened {
    /// A new store of the setup, for 1 to 16 seats, which no clock rules.
    ///
    /// The hashes of names begin at `seed`, which may be any number. Seats is reported first. After an Err nothing was
    /// made.
    pub fn new(alloc: Global, setup: Setup, seats: u64, seed: u64) -> Result<Opened, ShareFault>
        ensures setting { IfOk result (λ o. o.setting ≡ setup) }
        ensures begun { IfOk result (λ o. o.begun ≡ start setup) }
        ensures seats { IfOk result (λ o. o.counters.parts ≡ seats) }
        ensures clock { IfOk result (λ o. o.clocked ≡ false) }
        ensures refused { (0 < seats) × (seats ≤ MAX_SEATS)
            → IfErr result (λ fault. fault ≡ ShareFault.OutOfMemory) }
        ensures most { (seats ≡ 0) ⊎ (MAX_SEATS < seats) → result ≡ Err ShareFault.Seats }
    {
        if !may_have(seats) {
            return Err(ShareFault::Seats);
        }
        match JournaledStore::new(alloc, setup, seed) {
            Ok(store) => Opened::over(alloc, store, seats),
            Err(_) => Err(ShareFault::OutOfMemory),
        }
    }

    /// A store that has just begun, for 1 to 16 seats, which no clock rules. It takes no memory.
    ///
    /// An Err is Seats, where there are too few or too many; then the store is given up.
    pub fn over(alloc: Global, store: JournaledStore, seats: u64) -> Result<Opened, ShareFault>
        requires fresh { store.journal ≡ [] }
        ensures setting { IfOk result (λ o. o.setting ≡ store.setting) }
        ensures begun { IfOk result (λ o. o.begun ≡ store.begun) }
        ensures seats { IfOk result (λ o. o.counters.parts ≡ seats) }
        ensures clock { IfOk result (λ o. o.clocked ≡ false) }
        ensures refused { ((0 < seats) × (seats ≤ MAX_SEATS) → IsOk result)
            × ((seats ≡ 0) ⊎ (MAX_SEATS < seats) → result ≡ Err ShareFault.Seats) }
    {
        if !may_have(seats) {
            return Err(ShareFault::Seats);
        }
        // The store is what its journal leaves.
        let _entries = store.entries();
        Ok(Opened {
            alloc,
            store,
            history: History::new(),
            counters: BlankCounters::new(seats),
            seats,
            clocked: false,
        })
    }

    /// The same store, ruled by a clock: the moments of its journal never fall.
    ///
    /// A call is journaled with the moment that it tells or, where that is earlier than the last entry's, with that
    /// one. So a moment that is too late is that of all calls after it, and past 2^40 seconds all are refused: let
    /// callers tell moments of a clock alone.
    pub fn with_clock(self) -> Opened
        ensures { result ≡ record self { clocked = true } }
    {
        Opened {
            clocked: true,
            ..self
        }
    }

    /// The store under its identity, before anybody can look at its boards, and the part of its tally for its seats.
    fn locked<S: StoreId>(self) -> (LockedStore<S, NoBoards>, TallyPart<S>)
        requires { self ≡ S.id }
        ensures store { IsNewStore result.0 }
        ensures seats { result.1 ≡ record { tally = no_tally; parts = S.id.counters.parts } }
        ensures few { (0 < S.id.counters.parts) × (S.id.counters.parts ≤ MAX_SEATS) }
    {
        let Opened {
            store,
            history,
            counters,
            seats,
            clocked,
            ..
        } = self;
        let (tally, mut all) = counters.open::<S>();
        let rest = all.empty();
        let locked = LockedStore::new(store, history, tally, seats, rest, clocked);
        (locked, all)
    }

    /// The store under its identity, behind its lock, and its seats, which are numbered from 1 and can look at its
    /// boards.
    ///
    /// `rt` is how a drop of the store waits for who looks. An Err is OutOfMemory, or NoReader where a seat got no
    /// reader of the boards; then nothing is left.
    pub fn with_viewers<S: StoreId, R: Wait + Drop>(
        self,
        rt: R,
    ) -> Result<(Shared<S, Published<S, R>>, Vec<Seat<S, Viewer<S>>>), ShareFault>
        requires { self ≡ S.id }
        ensures seats { IfOk result (λ r. r.1.items ≡ seats_of S.id.counters.parts) }
        ensures few { result ≡ Err Seats → ⊥ }
    {
        let alloc = self.alloc;
        let (locked, all) = self.locked::<S>();
        let (prefix, seats) = (locked.published(), locked.seats());
        let Ok(mut publisher) = first_publisher::<S, R>(alloc, rt, &locked, seats) else {
            return Err(ShareFault::OutOfMemory);
        };
        let made = viewing_seats(alloc, &mut publisher, &prefix, seats, all)?;
        let boards = Published {
            alloc,
            publisher,
            waiting: Vec::new(alloc),
        };
        Ok((Shared::over(locked.with_boards(boards)), made))
    }

    /// The store under its identity, behind its lock, and its seats, which are numbered from 1. Nobody can look at its
    /// boards, so a call takes less than with viewers; else all is the same.
    ///
    /// An Err is OutOfMemory; then nothing is left.
    pub fn without_viewers<S: StoreId>(
        self,
    ) -> Result<(Shared<S, NoBoards>, Vec<Seat<S, Blind>>), ShareFault>
        requires { self ≡ S.id }
        ensures seats { IfOk result (λ r. r.1.items ≡ seats_of S.id.counters.parts) }
        ensures fault { IfErr result (λ fault. fault ≡ ShareFault.OutOfMemory) }
    {
        let alloc = self.alloc;
        let (locked, all) = self.locked::<S>();
        let made = blind_seats(alloc, &locked.published(), locked.seats(), all)?;
        Ok((Shared::over(locked), made))
    }

    /// The store under its identity, behind its lock, the seats of its workers, which are numbered from 1, and the last
    /// seat, which alone can look at the boards. They are published at each call, as with viewers, but a publication
    /// has one reader to serve, whatever the number of seats.
    ///
    /// `rt` is how a drop of the store waits for who looks. An Err is OutOfMemory, or NoReader where the last seat got
    /// no reader of the boards; then nothing is left.
    pub fn with_observer<S: StoreId, R: Wait + Drop>(
        self,
        rt: R,
    ) -> Result<
        (
            Shared<S, Published<S, R>>,
            Vec<Seat<S, Blind>>,
            Seat<S, Viewer<S>>,
        ),
        ShareFault,
    >
        requires { self ≡ S.id }
        ensures workers { IfOk result (λ r. r.1.items ≡ seats_of (S.id.counters.parts - 1)) }
        ensures observer { IfOk result (λ r. r.2 ≡ new_seat S.id.counters.parts) }
        ensures few { result ≡ Err Seats → ⊥ }
    {
        let alloc = self.alloc;
        let (locked, all) = self.locked::<S>();
        let (publisher, workers, observer) = observed::<S, R>(alloc, rt, &locked, all)?;
        let boards = Published {
            alloc,
            publisher,
            waiting: Vec::new(alloc),
        };
        Ok((Shared::over(locked.with_boards(boards)), workers, observer))
    }

    /// The store under its identity, behind its lock, the seats of its workers, which are numbered from 1, and the last
    /// seat, which alone can look at the boards. A board is published where `wanted` is set when a worker has made a
    /// call, or when a hold is released, and then `wanted` is cleared; else a call takes as long as without viewers.
    ///
    /// `rt` is how a drop of the store waits for who looks. An Err is OutOfMemory, or NoReader where the last seat got
    /// no reader of the boards; then nothing is left.
    pub fn on_demand<'a, S: StoreId, R: Wait + Drop>(
        self,
        rt: R,
        wanted: &'a AtomicBool,
    ) -> Result<
        (
            Shared<S, OnDemand<'a, S, R>>,
            Vec<Seat<S, Blind>>,
            Seat<S, Viewer<S>>,
        ),
        ShareFault,
    >
        requires { self ≡ S.id }
        ensures workers { IfOk result (λ r. r.1.items ≡ seats_of (S.id.counters.parts - 1)) }
        ensures observer { IfOk result (λ r. r.2 ≡ new_seat S.id.counters.parts) }
        ensures few { result ≡ Err Seats → ⊥ }
    {
        let alloc = self.alloc;
        let (locked, all) = self.locked::<S>();
        let (publisher, workers, observer) = observed::<S, R>(alloc, rt, &locked, all)?;
        let boards = OnDemand {
            alloc,
            publisher,
            wanted,
        };
        Ok((Shared::over(locked.with_boards(boards)), workers, observer))
    }
}
