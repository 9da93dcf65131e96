//! A call of a seat of a shared store.
ghost use Rattle.std.specs.Prelude.{◌≡◌, IfOk, OnErr};
ghost use Rattle.qplain.specs.declared.call.Call.TheVariants.{Create};
ghost use Rattle.qshare.specs.Calls.{AtGiven, IsCalled, IsFormOf};
ghost use Rattle.qshare.specs.Seats.{HasSeenOn};

use qplain::{Call, Cred, Path};
use qshare::{Boards, CallFault, Receipt, Seat, Shared};
use qshare_history::StoreId;
use std::sync::Wait;

/// Makes an empty file from a seat. The seat has then seen a legal history in which its call stands at the receipt's
/// place, after all that it had seen; a call that was not answered is counted nowhere.
pub(crate) fn create<S: StoreId, B: Boards<S>, V: Drop, W: Wait>(
    rt: &W,
    shared: &Shared<S, B>,
    seat: &mut Seat<S, V>,
    cred: &Cred,
    path: Path,
) -> Result<Receipt, CallFault>
    ensures seen { HasSeenOn S.id.begun seat.old seat.new }
    ensures called { IfOk result (IsFormOf (λ receipt. receipt) (AtGiven S.id.clocked cred.now 0 (Create path)
        (λ line. IsCalled line seat.old seat.new))) }
    ensures err { OnErr result (seat.new.tally ≡ seat.old.tally) }
{
    shared.call(rt, seat, cred, 0, &Call::Create { path })
}
