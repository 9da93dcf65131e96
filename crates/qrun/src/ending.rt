//! From the seats of a store to what its workers leave.
ghost use Rattle.std.specs.Prelude.{◌≡◌, length, IfErr, IfOk, option_map};
ghost use Rattle.qrun.specs.Beginnings.{BeginsAlike};
ghost use Rattle.qrun.specs.Crews.{HasPlayed, IsStaff};
ghost use Rattle.qrun.specs.Observers.{looks_wanted, seat_in, shown_to};
ghost use Rattle.qrun.specs.RunFaults.{IsFaultOf};
ghost use Rattle.qrun_worker.specs.Work.{MayBeGiven};

use crate::concluding::make_outcome;
use crate::crew::{Crew, workers_of};
use crate::machine::Machine;
use crate::monitor::Monitor;
use crate::observer::{Observer, part_observed};
use crate::parting::{hand_in, part_works};
use crate::playing::play_all;
use crate::run_fault::RunFault;
use crate::service::Service;
use qrun_client::Client;
use qrun_worker::Gate;
use qshare::{Boards, Seat, Shared};
use qshare_history::StoreId;
use qstore::Store;
use std::sync::Wait;
use std::sync::atomic::AtomicBool;
use std::thread::Threads;

/// Has a crew play on a shared store, beside who looks at its boards, ends it, and makes the outcome. Where looks are
/// kept they are checked on the other store, which begins alike.
pub(crate) fn play_and_end<S, B, V, C, G, M, R>(
    machine: &Machine<'_, R>,
    shared: Shared<S, B>,
    seats: Vec<Seat<S, V>>,
    crew: Crew<'_, C, G>,
    observer: Option<Observer<'_, S, M>>,
    again: Option<Store>,
    ended: &AtomicBool,
) -> Result<Service<C::Left, M::Left>, RunFault>
where
    S: StoreId + Send + Sync + 'static,
    B: Boards<S> + Send,
    V: Drop + Send,
    C: Client + Drop + Send,
    G: Gate + Sync,
    M: Monitor + Drop + Send,
    R: Threads + Wait + Sync,
    requires staff { IsStaff S.id.setting (length crew) S.id.counters.parts seats.items
        (option_map seat_in observer) }
    requires clock { MayBeGiven S.id.clocked C.clocked }
    requires again { BeginsAlike S.id.begun (looks_wanted observer) again }
    ensures played { IfOk result (λ s. HasPlayed C.talk M.sees S.id.setting S.id.begun S.id.clocked crew.entry
        (looks_wanted observer.entry) (shown_to observer.entry) s.left.items s.outcome s.monitor) }
    ensures fault { IfErr result (IsFaultOf S.id.counters.parts) }
{
    let Machine { rt, alloc, .. } = *machine;
    let workers = workers_of(machine, &shared, crew, seats)?;
    let (works, observed) = play_all(machine, &shared, workers, observer, ended)?;
    let (watch, monitor) = part_observed(observed);
    let (own, answered, left) = part_works(alloc, works)?;
    let (shares, looks) = hand_in(alloc, own, watch)?;
    match shared.end(rt, shares) {
        Ok(store) => {
            let outcome = make_outcome(alloc, store, again, answered, looks)?;
            Ok(Service {
                outcome,
                left,
                monitor,
            })
        }
        Err(_) => unreachable!(),
    }
}
