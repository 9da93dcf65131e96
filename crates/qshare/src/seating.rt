//! The seats of a new store.
ghost use Rattle.std.specs.Prelude.{◌≡◌, [], Err, IfOk, IfErr};
ghost use Rattle.qplain.specs.Journal.{no_tally};
ghost use Rattle.qplain_laws.specs.Beginnings.{IsStateOf};
ghost use Rattle.qshare_history.specs.Histories.{recorded};
ghost use Rattle.qshare.specs.Seats.{seats_of};
ghost use Rattle.qshare.specs.declared.share_fault.ShareFault.TheVariants.{Seats};

use crate::seat::{Blind, Seat};
use crate::share_fault::ShareFault;
use qshare_boards::{Publisher, Viewer};
use qshare_history::{Prefix, StoreId, TallyPart};
use std::alloc::Global;
use std::sync::Wait;

/// The seats of a new store whose boards can be looked at, numbered from 1, each with a viewer of its own.
pub(crate) fn viewing_seats<S: StoreId, R: Wait + Drop>(
    alloc: Global,
    publisher: &mut Publisher<S, R>,
    prefix: &Prefix,
    count: u64,
    mut all: TallyPart<S>,
) -> Result<Vec<Seat<S, Viewer<S>>>, ShareFault>
    requires beginning { IsStateOf S.id.setting S.id.begun }
    requires publisher { publisher.old ≡ [] }
    requires prefix { prefix.now ≡ recorded S.id.history [] }
    requires all { all ≡ record { tally = no_tally; parts = count } }
    ensures publisher { publisher.new ≡ [] }
    ensures seats { IfOk result (λ seats. seats.items ≡ seats_of count) × (result ≡ Err Seats → ⊥) }
{
    let mut seats = Vec::new(alloc);
    for before in 0..count {
        let Ok(()) = seats.reserve(1) else {
            return Err(ShareFault::OutOfMemory);
        };
        let Ok(viewer) = Viewer::new(alloc, publisher, prefix.again()) else {
            return Err(ShareFault::NoReader);
        };
        seats.push_reserved(Seat::new(before + 1, prefix.again(), all.split_off(), viewer));
    }
    Ok(seats)
}

/// The seats of a new store whose boards nobody can look at, numbered from 1.
pub(crate) fn blind_seats<S: StoreId>(
    alloc: Global,
    prefix: &Prefix,
    count: u64,
    mut all: TallyPart<S>,
) -> Result<Vec<Seat<S, Blind>>, ShareFault>
    requires prefix { prefix.now ≡ recorded S.id.history [] }
    requires all { all ≡ record { tally = no_tally; parts = count } }
    ensures seats { IfOk result (λ seats. seats.items ≡ seats_of count) }
    ensures fault { IfErr result (λ fault. fault ≡ ShareFault.OutOfMemory) }
{
    let mut seats = Vec::new(alloc);
    for before in 0..count {
        let Ok(()) = seats.reserve(1) else {
            return Err(ShareFault::OutOfMemory);
        };
        seats.push_reserved(Seat::new(before + 1, prefix.again(), all.split_off(), Blind));
    }
    Ok(seats)
}
