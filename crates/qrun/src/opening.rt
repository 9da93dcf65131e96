//! From a store that begins and a crew to what is left: the store is opened, and played on.
ghost use Rattle.std.specs.Prelude.{◌≡◌, false, length, IfErr, IfOk};
ghost use Rattle.qrun.specs.Beginnings.{BeginsAlike, HasBegun};
ghost use Rattle.qrun.specs.Crews.{HasPlayed};
ghost use Rattle.qrun.specs.Looking.{lookers_in, looks_to_keep, monitor_of};
ghost use Rattle.qrun.specs.RunFaults.{IsFaultOf};
ghost use Rattle.qrun.specs.Serving.{CanServe};
ghost use Rattle.qrun.specs.Watching.{seats_for};
ghost use Rattle.qrun_worker.specs.Work.{MayBeGiven};

use crate::beginning::Beginning;
use crate::crew::Crew;
use crate::ending::play_and_end;
use crate::looking::Looking;
use crate::machine::Machine;
use crate::monitor::{Monitor, Showing};
use crate::observer::Observer;
use crate::run_fault::RunFault;
use crate::service::Service;
use crate::watcher::Watcher;
use qrun_client::Client;
use qrun_worker::Gate;
use qshare::{Blind, NoBoards, Opened};
use qshare_history::StoreId;
use qstore::Store;
use std::marker::Brand;
use std::sync::Wait;
use std::sync::atomic::AtomicBool;
use std::thread::Threads;

/// A new store, ruled by a clock where that is so.
fn ruled(opened: Opened, clock: bool) -> Opened
    requires { opened.clocked ≡ false }
    ensures { result ≡ record opened { clocked = clock } }
{
    if clock { opened.with_clock() } else { opened }
}

/// Has a crew play on a store of this identity, which is opened for who looks at its boards. Where looks are kept they
/// are checked on the other store.
fn play_opened<S, C, G, M, R>(
    machine: &Machine<'_, R>,
    opened: Opened,
    again: Option<Store>,
    crew: Crew<'_, C, G>,
    looking: Looking<M>,
) -> Result<Service<C::Left, M::Left>, RunFault>
where
    S: StoreId + Send + Sync + 'static,
    C: Client + Drop + Send,
    G: Gate + Sync,
    M: Monitor + Drop + Send,
    R: Threads + Wait + Sync,
    requires id { (opened ≡ S.id) × MayBeGiven S.id.clocked C.clocked }
    requires again { BeginsAlike S.id.begun (looks_to_keep looking) again }
    requires can { CanServe S.id.setting (length crew) (lookers_in looking)
        × (S.id.counters.parts ≡ seats_for (length crew) (lookers_in looking)) }
    ensures played { IfOk result (λ s. HasPlayed C.talk M.sees S.id.setting S.id.begun S.id.clocked crew.entry
        (looks_to_keep looking) (monitor_of looking) s.left.items s.outcome s.monitor) }
    ensures fault { IfErr result (IsFaultOf S.id.counters.parts) }
{
    let Machine { rt, alloc, .. } = *machine;
    let wanted = AtomicBool::new(false);
    let ended = AtomicBool::new(false);
    match looking {
        Looking::Nobody => {
            let (shared, seats) = opened.without_viewers::<S>()?;
            play_and_end::<S, NoBoards, Blind, C, G, M, R>(
                machine, shared, seats, crew, None, again, &ended,
            )
        }
        Looking::Watching { calls, boards } => {
            let (shared, seats, last) = opened.with_observer::<S, &R>(rt)?;
            let watcher = Watcher::new(alloc, last, calls, boards)?;
            let observer: Observer<'_, S, M> = Observer::Watcher(watcher);
            play_and_end(machine, shared, seats, crew, Some(observer), again, &ended)
        }
        Looking::Showing(monitor) => {
            let (shared, seats, last) = opened.on_demand::<S, &R>(rt, &wanted)?;
            let observer = Observer::Showing(Showing::new(last, &wanted, monitor, &ended));
            play_and_end(machine, shared, seats, crew, Some(observer), again, &ended)
        }
    }
}

/// Has a crew play on a store that begins, ruled by a clock where that is so, at whose boards that one looks.
pub(crate) fn play_on<C, G, M, R>(
    machine: &Machine<'_, R>,
    beginning: Beginning,
    clock: bool,
    crew: Crew<'_, C, G>,
    looking: Looking<M>,
) -> Result<Service<C::Left, M::Left>, RunFault>
where
    C: Client + Drop + Send,
    G: Gate + Sync,
    M: Monitor + Drop + Send,
    R: Threads + Wait + Sync,
    requires begun { HasBegun (looks_to_keep looking) beginning }
    requires can { CanServe beginning.store.setting (length crew) (lookers_in looking)
        × MayBeGiven clock C.clocked }
    ensures played { IfOk result (λ s. HasPlayed C.talk M.sees beginning.store.setting beginning.store.begun clock
        crew.entry (looks_to_keep looking) (monitor_of looking) s.left.items s.outcome s.monitor) }
    ensures fault { IfErr result (IsFaultOf (seats_for (length crew.entry) (lookers_in looking))) }
{
    let Beginning { store, again } = beginning;
    let seats = crew.len() + looking.lookers();
    let opened = Opened::over(machine.alloc, store, seats)?;
    play_opened::<Brand, C, G, M, R>(machine, ruled(opened, clock), again, crew, looking)
}
