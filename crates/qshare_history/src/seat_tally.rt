//! What one seat has counted.
ghost use Rattle.std.specs.Prelude.{◌≡◌};
ghost use Rattle.qplain.specs.Journal.{no_tally};

use crate::store_id::StoreId;
use crate::tally_part::TallyPart;
use qplain::Tallies;
use std::marker::Model;

/// What one seat has counted, as numbers, and the parts of the counters by which they are right. Contracts see it as
/// they see `TallyPart`.
#[derive(Drop)]
pub struct SeatTally<S: StoreId> {
    pub(crate) parts: TallyPart<S>,
    pub(crate) tally: Tallies,
}

impl<S: StoreId> Model for SeatTally<S> {
    ghost use Rattle.std.specs.Prelude.{◌≡◌};
    ghost use Rattle.qshare_history.specs.Counted.{Counted};

    ghost Value = { Counted };

    ghost view = { λ c. record { tally = c.tally; parts = c.parts.parts } };

    ghost invariant = { λ c. c.tally ≡ c.parts.tally };
}

impl<S: StoreId> SeatTally<S> {
    /// One part, with which nothing is counted yet.
    pub fn new(parts: TallyPart<S>) -> SeatTally<S>
        requires { parts ≡ record { tally = no_tally; parts = 1 } }
        ensures { result ≡ record { tally = no_tally; parts = 1 } }
    {
        SeatTally {
            parts,
            tally: Tallies::new(),
        }
    }

    /// What was counted.
    pub fn tally(&self) -> Tallies
        ensures { result ≡ self.now.tally }
    {
        self.tally
    }

    /// The parts with which it was counted.
    pub fn into_parts(self) -> TallyPart<S>
        ensures { result ≡ self }
    {
        self.parts
    }
}
