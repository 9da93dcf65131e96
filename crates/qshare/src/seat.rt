//! A worker's own access to a shared store.
ghost use Rattle.std.specs.Prelude.{◌≡◌, ◌≤◌, length, IfOk};
ghost use Rattle.qplain.specs.Journal.{IsLegal, no_tally};
ghost use Rattle.qshare_history.specs.Histories.{recorded};
ghost use Rattle.qshare_boards.specs.Boards.{IsHistoryOf, shown_of};
ghost use Rattle.qshare_boards.specs.Looks.{IsBoardAnswer, IsRecordAnswer};
ghost use Rattle.qshare_boards.specs.Whole.{IsWhole};
ghost use Rattle.qshare.specs.Seats.{HasLooked};

use crate::boards::Boards;
use crate::locked_store::LockedStore;
use qplain::{Board, LookFault};
use qrules::{BoardRow, Kind};
use qshare_boards::{Looked, Viewer};
use qshare_history::{Prefix, SeatTally, Share, StoreId, TallyPart};
use std::marker::Model;

/// What a seat of a store has whose boards nobody can look at.
#[derive(Debug, Drop)]
pub struct Blind;

/// A worker's own access to a shared store, with a viewer of its boards where it can look at them. Contracts see the
/// worker's number, the prefix of the history that the seat has seen, which is legal and published, and what it has
/// counted.
#[derive(Drop)]
pub struct Seat<S: StoreId, V: Drop> {
    pub(crate) worker: u64,
    prefix: Prefix,
    pub(crate) tally: SeatTally<S>,
    viewer: V,
}

impl<S: StoreId, V: Drop> Model for Seat<S, V> {
    ghost use Rattle.std.specs.Prelude.{◌≡◌};
    ghost use Rattle.qshare_boards.specs.Boards.{IsHistoryOf};
    ghost use Rattle.qshare.specs.Seats.{Seated};

    ghost Value = { Seated };

    ghost view = { λ s. record { worker = s.worker; seen = s.prefix.entries; tally = s.tally.tally } };

    ghost invariant = { λ s. IsHistoryOf S.id s.prefix × (s.tally.parts ≡ 1) };
}

impl<S: StoreId, V: Drop> Seat<S, V> {
    /// A seat that has counted nothing, with one part of the tally.
    pub(crate) fn new(worker: u64, prefix: Prefix, part: TallyPart<S>, viewer: V) -> Seat<S, V>
        requires prefix { IsHistoryOf S.id prefix }
        requires part { part ≡ record { tally = no_tally; parts = 1 } }
        ensures { result ≡ record { worker = worker; seen = prefix.entries; tally = no_tally } }
    {
        Seat {
            worker,
            prefix,
            tally: SeatTally::new(part),
            viewer,
        }
    }

    /// The worker's number, from 1.
    pub fn worker(&self) -> u64
        ensures { result ≡ self.now.worker }
    {
        self.worker
    }

    /// What the seat has seen.
    pub(crate) fn prefix(&self) -> &Prefix
        ensures prefix { result.now ≡ recorded S.id.history self.now.seen }
        ensures legal { IsLegal S.id.begun self.now.seen }
    {
        &self.prefix
    }

    /// Sees all that is published.
    pub(crate) fn catch_up<B: Boards<S>>(&mut self, store: &LockedStore<S, B>)
        ensures seat { self.new ≡ record self.old { seen = store.now.published } }
        ensures legal { IsLegal S.id.begun store.now.published }
    {
        self.prefix = store.published();
    }

    /// The seat's share: what it has seen and counted.
    pub fn finish(self) -> Share<S>
        ensures { result ≡ record { worker = self.worker; seen = self.seen; tally = self.tally } }
    {
        Share::new(self.worker, self.prefix, self.tally)
    }
}

impl<S: StoreId> Seat<S, Viewer<S>> {
    /// Everybody's quota as it is published now, under a version: the number of calls that led to it. It takes no lock
    /// and waits for nobody.
    ///
    /// The board is that of a legal history, which begins with all that the seat had seen, and is seen then. It is
    /// whole: users' blocks add up to the total, and so do groups', and projects' where any is declared, inodes
    /// likewise, totals are within the setup's bounds, and a grace end stands exactly where use is over that soft
    /// limit. An Err is NoBoard where no board was handed out that has all that the seat has seen, reported first,
    /// after which the seat is wholly as it was, or OutOfMemory, after which it is so but for what it has seen.
    pub fn board(&mut self) -> Result<Board, LookFault>
        ensures look { HasLooked S.id.begun self.old self.new result }
        ensures board { IsBoardAnswer S.id.begun self.new.seen result }
        ensures version { IfOk result (λ b. length self.old.seen ≤ b.version) }
        ensures whole { IfOk result (IsWhole S.id.setting) }
    {
        let since = self.prefix.again();
        let Looked { prefix, shown } = self.viewer.board(since);
        self.prefix = prefix;
        shown
    }

    /// The quota record of a principal on the board that is published now, under the board's version. It takes no
    /// lock and no memory, and waits for nobody.
    ///
    /// An Err is NoBoard where no board was handed out that has all that the seat has seen, reported first, after which
    /// the seat is wholly as it was, or ESRCH where it has no such record, after which it is so but for what it has
    /// seen.
    pub fn record(&mut self, kind: Kind, id: u32) -> Result<(u64, BoardRow), LookFault>
        ensures look { HasLooked S.id.begun self.old self.new result }
        ensures record { IsRecordAnswer S.id.begun self.new.seen kind id result }
        ensures version { IfOk result (λ r. length self.old.seen ≤ r.0) }
        ensures whole { IsWhole S.id.setting (shown_of S.id.begun self.new.seen) }
    {
        let since = self.prefix.again();
        let Looked { prefix, shown } = self.viewer.record(kind, id, since);
        self.prefix = prefix;
        shown
    }
}
