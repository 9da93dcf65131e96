//! The five counters of a store's tally. Each is split in parts, one for each seat.
ghost use Rattle.std.specs.Prelude.{◌≡◌};
ghost use Rattle.qplain.specs.Journal.{no_tally};

use crate::store_id::StoreId;
use crate::tally_part::TallyPart;
use crate::tally_total::TallyTotal;
use std::marker::{Model, PhantomData};
use std::sync::ledger::{Blank, Ledger};

/// The counter of the blocks that were charged.
pub struct BlocksCharged<S> {
    store: PhantomData<S>,
}

impl<S: StoreId> Ledger for BlocksCharged<S> {
    ghost name = { S.id.counters.blocks_charged };

    ghost parts = { S.id.counters.parts };
}

/// The counter of the blocks that were released.
pub struct BlocksReleased<S> {
    store: PhantomData<S>,
}

impl<S: StoreId> Ledger for BlocksReleased<S> {
    ghost name = { S.id.counters.blocks_released };

    ghost parts = { S.id.counters.parts };
}

/// The counter of the inodes that were charged.
pub struct InodesCharged<S> {
    store: PhantomData<S>,
}

impl<S: StoreId> Ledger for InodesCharged<S> {
    ghost name = { S.id.counters.inodes_charged };

    ghost parts = { S.id.counters.parts };
}

/// The counter of the inodes that were released.
pub struct InodesReleased<S> {
    store: PhantomData<S>,
}

impl<S: StoreId> Ledger for InodesReleased<S> {
    ghost name = { S.id.counters.inodes_released };

    ghost parts = { S.id.counters.parts };
}

/// The counter of the calls.
pub struct Calls<S> {
    store: PhantomData<S>,
}

impl<S: StoreId> Ledger for Calls<S> {
    ghost name = { S.id.counters.calls };

    ghost parts = { S.id.counters.parts };
}

/// Five counters that no store has yet. Contracts see what tells them from others.
#[derive(Drop)]
pub struct BlankCounters {
    blocks_charged: Blank,
    blocks_released: Blank,
    inodes_charged: Blank,
    inodes_released: Blank,
    calls: Blank,
}

impl Model for BlankCounters {
    ghost use Rattle.std.specs.Prelude.{◌≡◌};
    ghost use Rattle.qshare_history.specs.StoreIds.{Counters};

    ghost Value = { Counters };

    ghost view = { λ b. record {
      blocks_charged = b.blocks_charged.name;
      blocks_released = b.blocks_released.name;
      inodes_charged = b.inodes_charged.name;
      inodes_released = b.inodes_released.name;
      calls = b.calls.name;
      parts = b.calls.parts;
    } };

    ghost invariant = { λ b. (b.blocks_charged.parts ≡ b.calls.parts) × (b.blocks_released.parts ≡ b.calls.parts)
        × (b.inodes_charged.parts ≡ b.calls.parts) × (b.inodes_released.parts ≡ b.calls.parts) };
}

impl BlankCounters {
    /// Five counters of N parts. They take no memory.
    pub fn new(parts: u64) -> BlankCounters
        ensures { result.parts ≡ parts }
    {
        BlankCounters {
            blocks_charged: Blank::new(parts),
            blocks_released: Blank::new(parts),
            inodes_charged: Blank::new(parts),
            inodes_released: Blank::new(parts),
            calls: Blank::new(parts),
        }
    }

    /// The total of a store, in which nothing is counted yet, and all parts of its counters.
    pub fn open<S: StoreId>(self) -> (TallyTotal<S>, TallyPart<S>)
        requires { self ≡ S.id.counters }
        ensures total { result.0 ≡ no_tally }
        ensures parts { result.1 ≡ record { tally = no_tally; parts = S.id.counters.parts } }
    {
        let (blocks_charged, all_blocks_charged) = self.blocks_charged.open::<BlocksCharged<S>>();
        let (blocks_released, all_blocks_released) = self
            .blocks_released
            .open::<BlocksReleased<S>>();
        let (inodes_charged, all_inodes_charged) = self.inodes_charged.open::<InodesCharged<S>>();
        let (inodes_released, all_inodes_released) = self
            .inodes_released
            .open::<InodesReleased<S>>();
        let (calls, all_calls) = self.calls.open::<Calls<S>>();
        let total = TallyTotal {
            blocks_charged,
            blocks_released,
            inodes_charged,
            inodes_released,
            calls,
        };
        let all = TallyPart {
            blocks_charged: all_blocks_charged,
            blocks_released: all_blocks_released,
            inodes_charged: all_inodes_charged,
            inodes_released: all_inodes_released,
            calls: all_calls,
        };
        (total, all)
    }
}
