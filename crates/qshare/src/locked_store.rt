//! The value under a shared store's lock.
ghost use Rattle.std.specs.Prelude.{◌≡◌, ◌<◌, ◌≤◌, ◌↔◌, [], length, All, Err, IfOk, OnErr};
ghost use Rattle.std.specs.Bool.{Decides};
ghost use mathlib.Core.List.{IsPrefix};
ghost use Rattle.qplain.specs.declared.bounds.TheConstants.{MAX_ENTRIES};
ghost use Rattle.qplain.specs.declared.call_fault.CallFault.TheVariants.{JournalFull};
ghost use Rattle.qplain.specs.Journal.{IsLegal, no_tally};
ghost use Rattle.qshare_history.specs.Histories.{recorded};
ghost use Rattle.qstore_journaled.specs.Journaled.{IsStoreOf};
ghost use Rattle.qshare.specs.Calls.{AtGiven, IsFormOf, IsJournaled};
ghost use Rattle.qshare.specs.Ends.{IsEndOf};
ghost use Rattle.qshare.specs.Locked.{IsNewStore};

use crate::boards::Boards;
use crate::clock::given_moment;
use crate::no_boards::NoBoards;
use qplain::{Call, CallFault, Cred, ReceiptForm};
use qshare_history::{History, Prefix, SeatTally, Share, StoreId, TallyPart, TallyTotal, together};
use qstore_journaled::JournaledStore;
use std::marker::Model;
use std::sync::Wait;

/// A journaled store with its history, which is how much of its journal is published, its tally, and what is done for
/// those who look at its boards: what lies under the lock. Contracts see the journal, and how much of it is published.
#[derive(Drop)]
pub(crate) struct LockedStore<S: StoreId, B: Boards<S>> {
    store: JournaledStore,
    history: History,
    tally: TallyTotal<S>,
    /// How many seats there are.
    seats: u64,
    /// No part of the tally.
    rest: TallyPart<S>,
    /// Whether a clock rules it.
    clocked: bool,
    boards: B,
}

impl<S: StoreId, B: Boards<S>> Model for LockedStore<S, B> {
    ghost use Rattle.qshare.specs.Locked.{IsLockedOf, Locked};

    ghost Value = { Locked };

    ghost view = { λ d. record { journal = d.store.journal; published = d.history.entries } };

    ghost invariant = { λ d. IsLockedOf S.id d.store d.history d.tally d.rest d.seats d.clocked
        × B.waits d.boards d.history.entries d.store.journal };
}

impl<S: StoreId> LockedStore<S, NoBoards> {
    /// A new store under its lock, with an empty journal, for N seats, whose boards nobody can look at yet.
    pub(crate) fn new(
        store: JournaledStore,
        history: History,
        tally: TallyTotal<S>,
        seats: u64,
        rest: TallyPart<S>,
        clocked: bool,
    ) -> LockedStore<S, NoBoards>
        requires store { IsStoreOf S.id.setting S.id.begun store × (store.journal ≡ []) }
        requires history { history ≡ recorded S.id.history [] }
        requires seats { seats ≡ S.id.counters.parts }
        requires tally { (tally ≡ no_tally) × (rest ≡ record { tally = no_tally; parts = 0 }) }
        requires clocked { clocked ≡ S.id.clocked }
        ensures { IsNewStore result }
    {
        LockedStore {
            store,
            history,
            tally,
            seats,
            rest,
            clocked,
            boards: NoBoards,
        }
    }

    /// The same, for those who look at these boards.
    pub(crate) fn with_boards<B: Boards<S>>(self, boards: B) -> LockedStore<S, B>
        requires { B.waits boards self.published self.journal }
        ensures { result ≡ self }
    {
        LockedStore {
            store: self.store,
            history: self.history,
            tally: self.tally,
            seats: self.seats,
            rest: self.rest,
            clocked: self.clocked,
            boards,
        }
    }
}

impl<S: StoreId, B: Boards<S>> LockedStore<S, B> {
    /// The journaled store.
    pub(crate) fn store(&self) -> &JournaledStore
        ensures { IsStoreOf S.id.setting S.id.begun result.now × (result.now.journal ≡ self.now.journal) }
    {
        &self.store
    }

    /// The number of seats.
    pub(crate) fn seats(&self) -> u64
        ensures { result ≡ S.id.counters.parts }
    {
        self.seats
    }

    /// Makes a call and journals it, and answers in the form that is asked for; entry and what the call does to the
    /// boards wait to be published. Its moment is the one told, but, where a clock rules the store, not before the last
    /// entry's.
    ///
    /// Err is JournalFull, reported first, where the journal has its 1,048,576 entries, or OutOfMemory; it changes
    /// nothing.
    #[inline(always)]
    pub(crate) fn apply<A: ReceiptForm>(
        &mut self,
        worker: u64,
        mine: &mut SeatTally<S>,
        cred: &Cred,
        moment: u64,
        call: &Call,
    ) -> Result<A, CallFault>
        requires parts { 0 < mine.old.parts }
        ensures ok { IfOk result (IsFormOf A.form (AtGiven S.id.clocked cred.now moment call.now
            (λ line. IsJournaled worker line self.old.journal self.new.journal mine.old.tally mine.new.tally))) }
        ensures stays { (mine.new.parts ≡ mine.old.parts) × (self.new.published ≡ self.old.published) }
        ensures err { OnErr result ((self.new ≡ self.old) × (mine.new ≡ mine.old)) }
        ensures full { (result ≡ Err JournalFull) ↔ (length self.old.journal ≡ MAX_ENTRIES) }
        ensures legal { IsLegal S.id.begun self.new.journal × (length self.new.journal ≤ MAX_ENTRIES) }
    {
        let given = given_moment(self.clocked, &self.store, moment);
        self.store.ready(worker, cred, given, call)?;
        let reply = &self.store.next().reply;
        let change = reply.change();
        let Ok(answer) = A::of(self.store.entries().len() as u64 + 1, reply) else {
            return Err(CallFault::OutOfMemory);
        };
        let Ok(()) = self.boards.note(&self.store) else {
            return Err(CallFault::OutOfMemory);
        };
        let _place = self.store.commit();
        self.tally.count_call(mine, change, self.store.tallies());
        Ok(answer)
    }

    /// Publishes the whole journal, with its board where somebody can look at it. It takes no memory but for the log of
    /// the boards, which has its room.
    pub(crate) fn publish<W: Wait>(&mut self, rt: &W)
        ensures { (self.new.journal ≡ self.old.journal) × (self.new.published ≡ self.old.journal) }
    {
        let published = self.history.prefix();
        self.history.extend_to(rt, self.store.entries());
        self.boards
            .publish(&self.store, &published, self.history.prefix());
    }

    /// What is published.
    pub(crate) fn published(&self) -> Prefix
        ensures published { result ≡ recorded S.id.history self.now.published }
        ensures legal { IsLegal S.id.begun self.now.published }
    {
        self.history.prefix()
    }

    /// Whether what is published begins with what a seat has seen, which it does: only what is published can be seen,
    /// but no clause of `logbook` says that nobody else adds to the history.
    pub(crate) fn has_published(&self, seen: &Prefix) -> bool
        requires { seen.now.history ≡ S.id.history }
        ensures seen { Decides result (IsPrefix seen.now.entries self.now.published) }
        ensures journal { IsPrefix self.now.published self.now.journal }
    {
        self.history.prefix().begins_with(seen)
    }

    /// Waits until what is published begins with what a seat has seen, which it does: the loop ends at its first turn.
    pub(crate) fn await_seen<W: Wait>(&self, rt: &W, seen: &Prefix)
        requires { seen.now.history ≡ S.id.history }
        ensures published { IsPrefix seen.now.entries self.now.published }
        ensures journal { IsPrefix self.now.published self.now.journal }
    {
        for _ in rt.forever() {
            if self.has_published(seen) {
                return;
            }
        }
        unreachable!()
    }

    /// Waits until the journal begins with what each seat has seen, which it does.
    fn await_all<W: Wait>(&self, rt: &W, shares: &[Share<S>])
        ensures { All (λ s. IsPrefix s.seen self.now.journal) shares.now }
    {
        for share in shares {
            self.await_seen(rt, share.prefix());
        }
    }

    /// What is left, for who hands in the shares of all seats: what they have counted is the journal's tally.
    pub(crate) fn close<W: Wait>(self, rt: &W, shares: Vec<Share<S>>) -> JournaledStore
        requires { S.id.counters.parts ≤ length shares.items }
        ensures setting { result.setting ≡ S.id.setting }
        ensures begun { result.begun ≡ S.id.begun }
        ensures end { IsEndOf S.id.clocked shares.items result }
    {
        self.await_all(rt, &shares);
        let LockedStore {
            store,
            mut tally,
            rest,
            ..
        } = self;
        let mut all = together(rest, shares);
        tally.reconcile(&mut all);
        store
    }
}
