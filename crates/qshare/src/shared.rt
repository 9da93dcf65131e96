//! A store that many seats share.
ghost use Rattle.std.specs.Prelude.{◌≡◌, ◌≤◌, ◌↔◌, ℕ, length, Err, IfErr, IfOk, OnErr};
ghost use Rattle.std.specs.Result.{IsOk};
ghost use Rattle.qplain.specs.declared.bounds.TheConstants.{MAX_ENTRIES};
ghost use Rattle.qplain.specs.declared.call_fault.CallFault.TheVariants.{JournalFull};
ghost use Rattle.qshare_history.specs.Shares.{AreThere, IsLeastMissing};
ghost use Rattle.qshare.specs.Calls.{AtGiven, IsCalled, IsFormOf};
ghost use Rattle.qshare.specs.Ends.{IsEndOf};
ghost use Rattle.qshare.specs.Seats.{HasSeenOn};

use crate::boards::Boards;
use crate::end_fault::EndFault;
use crate::locked_store::LockedStore;
use crate::seat::Seat;
use qplain::{Call, CallFault, Cred, ReceiptForm};
use qshare_history::{Share, StoreId, least_missing};
use qstore_journaled::JournaledStore;
use std::sync::{Mutex, Wait};

/// A store that many seats share, under one lock.
///
/// Whenever the lock is free the store is exactly what its journal leaves when one thread plays it on the plain
/// machine, and each journaled reply is that machine's: this is the invariant of the `JournaledStore` that lies under
/// it. What seats see of its journal is the history, which is what is published, with its board where boards are
/// published at each call.
#[derive(Drop)]
pub struct Shared<S: StoreId, B: Boards<S>> {
    pub(crate) lock: Mutex<LockedStore<S, B>>,
}

/// Makes a call on a store whose lock is held, publishes all that waits, lets the seat see it, and answers in the
/// form that is asked for.
#[inline(always)]
fn call_locked<A: ReceiptForm, S: StoreId, B: Boards<S>, V: Drop, W: Wait>(
    rt: &W,
    store: &mut LockedStore<S, B>,
    seat: &mut Seat<S, V>,
    cred: &Cred,
    moment: u64,
    call: &Call,
) -> Result<A, CallFault>
    ensures seen { HasSeenOn S.id.begun seat.old seat.new }
    ensures called { IfOk result (IsFormOf A.form (AtGiven S.id.clocked cred.now moment call.now
        (λ line. IsCalled line seat.old seat.new))) }
    ensures kept { OnErr result (seat.new.tally ≡ seat.old.tally) }
    ensures full { IfErr result (λ f. (f ≡ JournalFull) ↔ (length seat.new.seen ≡ MAX_ENTRIES)) }
    ensures stays_full { MAX_ENTRIES ≤ length seat.old.seen → result ≡ Err JournalFull }
    ensures published { store.new.published ≡ store.new.journal }
{
    store.await_seen(rt, seat.prefix());
    let worker = seat.worker;
    let answer = store.apply(worker, &mut seat.tally, cred, moment, call);
    store.publish(rt);
    seat.catch_up(store);
    answer
}

impl<S: StoreId, B: Boards<S>> Shared<S, B> {
    /// This store behind a lock.
    pub(crate) fn over(store: LockedStore<S, B>) -> Shared<S, B> {
        Shared {
            lock: Mutex::new(store),
        }
    }

    /// Makes a call of a seat's worker, which waits for the lock, and journals it.
    ///
    /// The seat has then seen a legal history that begins with all that it had seen and has this call at the receipt's
    /// place, after all that it had seen; so the call is published. Err is JournalFull, reported first, where the
    /// journal has its 1,048,576 entries, or OutOfMemory; it changes nothing, and the call is in no journal. Moments,
    /// refusals and costs are those of `Store::ready`. The call is made and journaled with the moment that it tells;
    /// where a clock rules the store, with the last entry's, if that is later.
    ///
    /// It is answered as asked for: by the receipt, or by the place alone (`u64`), for which no reply is copied.
    // A worker has a loop around it: in its place it moves no reply from hand to hand.
    #[inline(always)]
    pub fn call<A: ReceiptForm, V: Drop, W: Wait>(
        &self,
        rt: &W,
        seat: &mut Seat<S, V>,
        cred: &Cred,
        moment: u64,
        call: &Call,
    ) -> Result<A, CallFault>
        ensures seen { HasSeenOn S.id.begun seat.old seat.new }
        ensures called { IfOk result (IsFormOf A.form (AtGiven S.id.clocked cred.now moment call.now
            (λ line. IsCalled line seat.old seat.new))) }
        ensures kept { OnErr result (seat.new.tally ≡ seat.old.tally) }
        ensures full { IfErr result (λ f. (f ≡ JournalFull) ↔ (length seat.new.seen ≡ MAX_ENTRIES)) }
        ensures stays_full { MAX_ENTRIES ≤ length seat.old.seen → result ≡ Err JournalFull }
    {
        let mut store = self.lock.lock(rt);
        call_locked(rt, &mut *store, seat, cred, moment, call)
    }

    /// Ends the store, where the shares of all its seats are there: what they have seen are prefixes of its journal,
    /// and what they have counted is the journal's tally. Where a clock rules the store, moments never fall in it.
    ///
    /// An Err names the least worker whose share is not there, and gives store and shares back. It takes no memory.
    pub fn end<W: Wait>(
        self,
        rt: &W,
        shares: Vec<Share<S>>,
    ) -> Result<JournaledStore, EndFault<S, B>>
        ensures setting { IfOk result (λ j. j.setting ≡ S.id.setting) }
        ensures begun { IfOk result (λ j. j.begun ≡ S.id.begun) }
        ensures end { IfOk result (IsEndOf S.id.clocked shares.items) }
        ensures missing { (worker : ℕ) (shared : _) (given : _) → result ≡ Err (EndFault.Missing worker shared given)
            → (given.items ≡ shares.items) × IsLeastMissing shares.items S.id.counters.parts worker }
        ensures all { AreThere shares.items S.id.counters.parts → IsOk result }
    {
        let Shared { lock } = self;
        let store = lock.into_inner();
        match least_missing(&shares, store.seats()) {
            Some(worker) => Err(EndFault::Missing {
                worker,
                shared: Shared::over(store),
                shares,
            }),
            None => Ok(store.close(rt, shares)),
        }
    }
}
