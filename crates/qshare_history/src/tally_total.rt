//! The total of a tally, which lie under a store's lock.
ghost use Rattle.std.specs.Prelude.{◌≡◌, ◌<◌};
ghost use Rattle.qplain.specs.Journal.{counted};
ghost use Rattle.qshare_history.specs.Counted.{AreWithin};

use crate::counters::{BlocksCharged, BlocksReleased, Calls, InodesCharged, InodesReleased};
use crate::seat_tally::SeatTally;
use crate::store_id::StoreId;
use crate::tally_part::TallyPart;
use qplain::{Change, Tallies};
use std::marker::Model;
use std::sync::ledger::Book;

/// What all seats of a store have counted together. It takes no bytes; contracts see the totals.
#[derive(Drop)]
pub struct TallyTotal<S: StoreId> {
    pub(crate) blocks_charged: Book<BlocksCharged<S>>,
    pub(crate) blocks_released: Book<BlocksReleased<S>>,
    pub(crate) inodes_charged: Book<InodesCharged<S>>,
    pub(crate) inodes_released: Book<InodesReleased<S>>,
    pub(crate) calls: Book<Calls<S>>,
}

impl<S: StoreId> Model for TallyTotal<S> {
    ghost use Rattle.qplain.specs.declared.tallies.Tallies.{Tallies};

    ghost Value = { Tallies };

    ghost view = { λ b. record {
      blocks_charged = b.blocks_charged.total;
      blocks_released = b.blocks_released.total;
      inodes_charged = b.inodes_charged.total;
      inodes_released = b.inodes_released.total;
      calls = b.calls.total;
    } };
}

/// A seat's tally with one call more, which stay within the totals with it.
fn sums_with(tally: &Tallies, change: Change, totals: Tallies) -> Tallies
    requires { AreWithin (counted tally.now change) totals }
    ensures { result ≡ counted tally.now change }
{
    tally.with_call(change)
}

impl<S: StoreId> TallyTotal<S> {
    /// Counts one call of a seat, which did this to the totals; `totals` are those with it. It takes no memory.
    pub fn count_call(&mut self, mine: &mut SeatTally<S>, change: Change, totals: Tallies)
        requires parts { 0 < mine.old.parts }
        requires totals { totals ≡ counted self.old change }
        ensures total { self.new ≡ counted self.old change }
        ensures mine { mine.new ≡ record { tally = counted mine.old.tally change; parts = mine.old.parts } }
    {
        self.bound_part(&mut mine.parts);
        let tally = sums_with(&mine.tally, change, totals);
        self.count(&mut mine.parts, change);
        mine.tally = tally;
    }

    /// What a seat has counted is no more than the totals.
    fn bound_part(&mut self, mine: &mut TallyPart<S>)
        ensures total { self.new ≡ self.old }
        ensures mine { mine.new ≡ mine.old }
        ensures within { AreWithin mine.old.tally self.old }
    {
        self.blocks_charged.audit(&mut mine.blocks_charged);
        self.blocks_released.audit(&mut mine.blocks_released);
        self.inodes_charged.audit(&mut mine.inodes_charged);
        self.inodes_released.audit(&mut mine.inodes_released);
        self.calls.audit(&mut mine.calls);
    }

    /// Counts one call with a seat's parts.
    fn count(&mut self, mine: &mut TallyPart<S>, change: Change)
        requires { 0 < mine.old.parts }
        ensures total { self.new ≡ counted self.old change }
        ensures mine { mine.new ≡ record { tally = counted mine.old.tally change; parts = mine.old.parts } }
    {
        self.blocks_charged
            .add(&mut mine.blocks_charged, change.blocks_charged);
        self.blocks_released
            .add(&mut mine.blocks_released, change.blocks_released);
        self.inodes_charged
            .add(&mut mine.inodes_charged, change.inodes_charged);
        self.inodes_released
            .add(&mut mine.inodes_released, change.inodes_released);
        self.calls.add(&mut mine.calls, 1);
    }

    /// Who has all parts has counted all.
    pub fn reconcile(&mut self, all: &mut TallyPart<S>)
        requires { all.old.parts ≡ S.id.counters.parts }
        ensures total { self.new ≡ self.old }
        ensures all { all.new ≡ all.old }
        ensures same { self.old ≡ all.old.tally }
    {
        self.blocks_charged.audit(&mut all.blocks_charged);
        self.blocks_released.audit(&mut all.blocks_released);
        self.inodes_charged.audit(&mut all.inodes_charged);
        self.inodes_released.audit(&mut all.inodes_released);
        self.calls.audit(&mut all.calls);
    }
}
