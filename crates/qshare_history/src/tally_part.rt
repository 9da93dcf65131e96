//! Parts of a tally: of its counters, and what was counted with them.
ghost use Rattle.std.specs.Prelude.{◌≡◌, ◌+◌, ◌<◌, ◌≤◌};
ghost use Rattle.qplain.specs.Journal.{no_tally};
ghost use Rattle.qshare_history.specs.Counted.{sum_of};

use crate::counters::{BlocksCharged, BlocksReleased, Calls, InodesCharged, InodesReleased};
use crate::store_id::StoreId;
use std::marker::Model;
use std::sync::ledger::Share;

/// As many parts of each of the five counters, and what was counted with them. It takes no bytes.
#[derive(Drop)]
pub struct TallyPart<S: StoreId> {
    pub(crate) blocks_charged: Share<BlocksCharged<S>>,
    pub(crate) blocks_released: Share<BlocksReleased<S>>,
    pub(crate) inodes_charged: Share<InodesCharged<S>>,
    pub(crate) inodes_released: Share<InodesReleased<S>>,
    pub(crate) calls: Share<Calls<S>>,
}

impl<S: StoreId> Model for TallyPart<S> {
    ghost use Rattle.std.specs.Prelude.{◌≡◌};
    ghost use Rattle.qshare_history.specs.Counted.{Counted};

    ghost Value = { Counted };

    ghost view = { λ t. record {
      tally = record {
        blocks_charged = t.blocks_charged.amount;
        blocks_released = t.blocks_released.amount;
        inodes_charged = t.inodes_charged.amount;
        inodes_released = t.inodes_released.amount;
        calls = t.calls.amount;
      };
      parts = t.calls.parts;
    } };

    ghost invariant = { λ t. (t.blocks_charged.parts ≡ t.calls.parts) × (t.blocks_released.parts ≡ t.calls.parts)
        × (t.inodes_charged.parts ≡ t.calls.parts) × (t.inodes_released.parts ≡ t.calls.parts) };
}

impl<S: StoreId> TallyPart<S> {
    /// One part, with which nothing is counted yet, of parts with which nothing is.
    pub fn split_off(&mut self) -> TallyPart<S>
        requires parts { 0 < self.old.parts }
        requires none { self.old.tally ≡ no_tally }
        ensures one { result ≡ record { tally = no_tally; parts = 1 } }
        ensures rest { (self.new.tally ≡ no_tally) × (self.new.parts + 1 ≡ self.old.parts) }
    {
        TallyPart {
            blocks_charged: self.blocks_charged.split_off(1, 0),
            blocks_released: self.blocks_released.split_off(1, 0),
            inodes_charged: self.inodes_charged.split_off(1, 0),
            inodes_released: self.inodes_released.split_off(1, 0),
            calls: self.calls.split_off(1, 0),
        }
    }

    /// No part.
    pub fn empty(&mut self) -> TallyPart<S>
        ensures empty { result ≡ record { tally = no_tally; parts = 0 } }
        ensures same { self.new ≡ self.old }
    {
        TallyPart {
            blocks_charged: self.blocks_charged.empty(),
            blocks_released: self.blocks_released.empty(),
            inodes_charged: self.inodes_charged.empty(),
            inodes_released: self.inodes_released.empty(),
            calls: self.calls.empty(),
        }
    }

    /// Takes in another's parts, and what was counted with them.
    pub fn merge(&mut self, other: TallyPart<S>)
        ensures few { self.new.parts ≤ S.id.counters.parts }
        ensures parts { self.new.parts ≡ self.old.parts + other.parts }
        ensures tally { self.new.tally ≡ sum_of self.old.tally other.tally }
    {
        self.blocks_charged.merge(other.blocks_charged);
        self.blocks_released.merge(other.blocks_released);
        self.inodes_charged.merge(other.inodes_charged);
        self.inodes_released.merge(other.inodes_released);
        self.calls.merge(other.calls);
    }
}
