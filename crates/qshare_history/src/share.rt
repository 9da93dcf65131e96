//! What seats hand in at the end.
ghost use Rattle.std.specs.Prelude.{◌≡◌, ◌==◌, ◌≤◌, length, None, IfSome};
ghost use Rattle.std.specs.List.{list_any};
ghost use Rattle.qplain.specs.Journal.{no_tally};
ghost use Rattle.qshare_history.specs.Histories.{recorded};
ghost use Rattle.qshare_history.specs.Shares.{AreThere, IsLeastMissing, tally_of_shares};

use crate::prefix::Prefix;
use crate::seat_tally::SeatTally;
use crate::store_id::StoreId;
use crate::tally_part::TallyPart;
use qplain::Tallies;
use std::marker::Model;

/// What one seat has seen and counted. Contracts see the worker's number, the prefix of the history, and the tally.
#[derive(Drop)]
pub struct Share<S: StoreId> {
    worker: u64,
    prefix: Prefix,
    count: SeatTally<S>,
}

impl<S: StoreId> Model for Share<S> {
    ghost use Rattle.std.specs.Prelude.{◌≡◌};
    ghost use Rattle.qshare_history.specs.Shares.{HandedIn};

    ghost Value = { HandedIn };

    ghost view = { λ s. record { worker = s.worker; seen = s.prefix.entries; tally = s.count.tally } };

    ghost invariant = { λ s. (s.prefix.history ≡ S.id.history) × (s.count.parts ≡ 1) };
}

impl<S: StoreId> Share<S> {
    /// The share of a worker, who has seen this much of the history.
    pub fn new(worker: u64, prefix: Prefix, count: SeatTally<S>) -> Share<S>
        requires prefix { prefix.history ≡ S.id.history }
        requires count { count.parts ≡ 1 }
        ensures { result ≡ record { worker = worker; seen = prefix.entries; tally = count.tally } }
    {
        Share {
            worker,
            prefix,
            count,
        }
    }

    /// The worker's number, from 1.
    pub fn worker(&self) -> u64
        ensures { result ≡ self.now.worker }
    {
        self.worker
    }

    /// How many calls its worker had journaled, and what they did to the totals.
    pub fn tally(&self) -> Tallies
        ensures { result ≡ self.now.tally }
    {
        self.count.tally()
    }

    /// The prefix of the history that its worker has seen.
    pub fn prefix(&self) -> &Prefix
        ensures { result.now ≡ recorded S.id.history self.now.seen }
    {
        &self.prefix
    }

    /// The parts of the counters with which it was counted.
    fn into_parts(self) -> TallyPart<S>
        ensures { result ≡ record { tally = self.tally; parts = 1 } }
    {
        self.count.into_parts()
    }
}

/// All shares in one: what they have counted together, with as many parts as they are.
pub fn together<S: StoreId>(rest: TallyPart<S>, shares: Vec<Share<S>>) -> TallyPart<S>
    requires { rest ≡ record { tally = no_tally; parts = 0 } }
    ensures all { result ≡ record { tally = tally_of_shares shares.items; parts = length shares.items } }
    ensures few { length shares.items ≤ S.id.counters.parts }
{
    let mut all = rest;
    for share in shares {
        all.merge(share.into_parts());
    }
    all
}

/// Whether a share is this worker's.
fn is_there<S: StoreId>(shares: &[Share<S>], worker: u64) -> bool
    ensures { result ≡ list_any (λ s. s.worker == worker) shares.now }
{
    shares.iter().any(|share| share.worker == worker)
}

/// The least of the workers, from 1 to `seats`, whose share is not there. O(shares) for each of them.
#[tactic(auto, using(crate::proofs::Present::all_there))]
pub fn least_missing<S: StoreId>(shares: &[Share<S>], seats: u64) -> Option<u64>
    ensures least { IfSome result (IsLeastMissing shares.now seats) }
    ensures all { result ≡ None → AreThere shares.now seats }
    ensures none { result ≡ None → seats ≤ length shares.now }
{
    for before in 0..seats {
        if !is_there(shares, before + 1) {
            return Some(before + 1);
        }
    }
    None
}
