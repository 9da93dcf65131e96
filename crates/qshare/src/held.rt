//! Several calls under one taking of the lock, which are published together.
ghost use Rattle.std.specs.Prelude.{◌≡◌, ◌<◌, ◌↔◌, length, Err, IfOk, IfSome, OnErr};
ghost use Rattle.qplain.specs.declared.bounds.TheConstants.{MAX_ENTRIES};
ghost use Rattle.qplain.specs.declared.call_fault.CallFault.TheVariants.{JournalFull};
ghost use Rattle.qshare.specs.Calls.{AtGiven, IsFormOf, IsHeldCall, StaysHeld};
ghost use Rattle.qshare.specs.Holds.{IsHeldBy};
ghost use Rattle.qshare.specs.Seats.{HasSeenOn};

use crate::boards::Boards;
use crate::locked_store::LockedStore;
use crate::seat::Seat;
use crate::shared::Shared;
use qplain::{Call, CallFault, Cred, ReceiptForm};
use qshare_history::StoreId;
use std::marker::Model;
use std::sync::{MutexGuard, Wait};

/// For how many calls the lock is held at most.
pub const MAX_BATCH: usize = 64;

/// The lock, held by a worker for up to 64 calls. Contracts see the worker, the journal, how much of it is published,
/// and the room.
///
/// Dropped, it gives the lock back with its changes waiting; the next `call` or `release` of any seat publishes them.
#[derive(Drop)]
pub struct Held<'a, S: StoreId, B: Boards<S>> {
    store: MutexGuard<'a, LockedStore<S, B>>,
    by: u64,
    room: usize,
}

impl<'a, S: StoreId, B: Boards<S>> Model for Held<'a, S, B> {
    ghost use Rattle.std.specs.Prelude.{◌≤◌};
    ghost use Rattle.std.specs.Sync.Mutex.{mutex_guard_value};
    ghost use Rattle.qshare.specs.declared.held.TheConstants.{MAX_BATCH};
    ghost use Rattle.qshare.specs.Holds.{Holding};

    ghost Value = { Holding };

    ghost view = { λ h. record {
      by = h.by;
      journal = (mutex_guard_value h.store).journal;
      published = (mutex_guard_value h.store).published;
      room = h.room;
    } };

    ghost invariant = { λ h. h.room ≤ MAX_BATCH };
}

impl<S: StoreId, B: Boards<S>> Shared<S, B> {
    /// Takes the lock, for which it waits, for up to 64 calls of the seat's worker. What is published begins with what
    /// the seat has seen, and the journal with that.
    pub fn hold<V: Drop, W: Wait>(&self, rt: &W, seat: &Seat<S, V>) -> Held<'_, S, B>
        ensures { IsHeldBy seat.now result }
    {
        let store = self.lock.lock(rt);
        store.await_seen(rt, seat.prefix());
        Held {
            store,
            by: seat.worker(),
            room: MAX_BATCH,
        }
    }

    /// Takes the lock as `hold` does, where nobody has it. It waits for nobody, and may be given no lock also where
    /// others wait for it.
    ///
    /// Who has it and releases it has published all that waited, and seen it.
    pub fn try_hold<V: Drop>(&self, seat: &Seat<S, V>) -> Option<Held<'_, S, B>>
        ensures { IfSome result (IsHeldBy seat.now) }
    {
        let store = self.lock.try_lock()?;
        if !store.has_published(seat.prefix()) {
            return None;
        }
        Some(Held {
            store,
            by: seat.worker(),
            room: MAX_BATCH,
        })
    }
}

impl<'a, S: StoreId, B: Boards<S>> Held<'a, S, B> {
    /// 64 less the calls that were journaled through it.
    pub fn room(&self) -> usize
        ensures { result ≡ self.now.room }
    {
        self.room
    }

    /// Makes a call of the worker that holds the lock and journals it; what it does to the boards waits for the
    /// release.
    ///
    /// Places count on within one hold. Err is JournalFull, reported first, where the journal has its 1,048,576
    /// entries, or OutOfMemory; it changes nothing, the room included. Moments, refusals and costs are those of
    /// `Store::ready`. Its moment is given and it is answered as by `Shared::call`.
    #[inline(always)]
    pub fn apply<A: ReceiptForm, V: Drop>(
        &mut self,
        seat: &mut Seat<S, V>,
        cred: &Cred,
        moment: u64,
        call: &Call,
    ) -> Result<A, CallFault>
        requires room { 0 < self.old.room }
        requires by { seat.old.worker ≡ self.old.by }
        ensures ok { IfOk result (IsFormOf A.form (AtGiven S.id.clocked cred.now moment call.now
            (λ line. IsHeldCall line self.old self.new seat.old seat.new))) }
        ensures stays { StaysHeld S.id.begun self.old self.new }
        ensures err { OnErr result ((self.new ≡ self.old) × (seat.new ≡ seat.old)) }
        ensures full { (result ≡ Err JournalFull) ↔ (length self.old.journal ≡ MAX_ENTRIES) }
    {
        let worker = seat.worker;
        let store = &mut *self.store;
        let answer = store.apply(worker, &mut seat.tally, cred, moment, call)?;
        self.room -= 1;
        Ok(answer)
    }

    /// Publishes all that waits, lets the seat see it, and gives the lock back.
    ///
    /// The seat has then seen the whole journal: a legal history, which begins with all that it had seen and has each
    /// call that was made through this hold.
    pub fn release<V: Drop, W: Wait>(self, rt: &W, seat: &mut Seat<S, V>)
        requires by { seat.old.worker ≡ self.by }
        ensures seat { seat.new ≡ record seat.old { seen = self.entry.journal } }
        ensures seen { HasSeenOn S.id.begun seat.old seat.new }
    {
        let Held {
            mut store,
            by: _,
            room: _,
        } = self;
        let store = &mut *store;
        store.await_seen(rt, seat.prefix());
        store.publish(rt);
        seat.catch_up(store);
    }
}
