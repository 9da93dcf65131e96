//! All threads of a store: one for each worker, and one for who looks at the boards.
ghost use Rattle.std.specs.Prelude.{MatchResult};
ghost use denote.Param.Send.{IsSend, IsSync};
ghost use Rattle.qrun.specs.Crews.{AreNumbered};
ghost use Rattle.qrun.specs.Observers.{HavePlayedAndLooked, IsFaultAmong};

use crate::machine::Machine;
use crate::monitor::Monitor;
use crate::observer::{Observed, Observer, Observes, observe};
use crate::run_fault::RunFault;
use core::thread::Stack;
use qrun_client::Client;
use qrun_worker::{Gate, Work, Worker, play};
use qshare::{Boards, Shared};
use qshare_history::StoreId;
use std::snapshot::Snapshot;
use std::sync::Wait;
use std::sync::atomic::{AtomicBool, Ordering};
use std::thread;
use std::thread::Threads;

/// The stack of each thread, in bytes.
const THREAD_STACK: usize = 256 * 1024;

/// Has each worker play in a thread of its own; once all are started the observer looks at the boards, in one more,
/// and is told when the last worker has ended.
///
/// Where a start is refused, no later one is made, and those before are waited for; the thread is named.
pub(crate) fn play_all<S, B, V, C, G, M, R>(
    machine: &Machine<'_, R>,
    shared: &Shared<S, B>,
    workers: Vec<Worker<'_, '_, '_, S, B, V, C, G, R>>,
    observer: Option<Observer<'_, S, M>>,
    ended: &AtomicBool,
) -> Result<(Vec<Work<S, C::Left>>, Option<Observed<S, M::Left>>), RunFault>
where
    S: StoreId + Send + Sync + 'static,
    B: Boards<S> + Send,
    V: Drop + Send,
    C: Client + Drop + Send,
    G: Gate + Sync,
    M: Monitor + Drop + Send,
    R: Threads + Wait + Sync,
    requires { AreNumbered workers.items }
    ensures { MatchResult result
        (λ r. HavePlayedAndLooked C.talk M.sees S.id.begun workers.entry.items observer.entry r.0.items r.1)
        (IsFaultAmong workers.entry.items observer.entry) }
{
    let Machine { rt, alloc, .. } = *machine;
    thread::scope(
        thread::scope_env(),
        rt,
        |scope| -> Result<(Vec<Work<S, C::Left>>, Option<Observed<S, M::Left>>), RunFault>
            requires marks { IsSync R.row × IsSync G.row × IsSend S.row × IsSync S.row × IsSend B.row × IsSend V.row
                × IsSend C.row × IsSend C.Form.row × IsSend C.Left.row × IsSend M.row × IsSend M.Left.row }
            requires numbered { AreNumbered workers.items }
            ensures { MatchResult result
                (λ r. HavePlayedAndLooked C.talk M.sees S.id.begun workers.entry.items observer.entry
                r.0.items r.1) (IsFaultAmong workers.entry.items observer.entry) }
        {
            let mut running = Vec::with_capacity(alloc, workers.len())?;
            for worker in workers {
                let plays = worker.plays();
                let number = plays.worker;
                let stack = Stack::new().stack_size(THREAD_STACK);
                match stack.spawn_scoped_with(scope, plays, move || play(worker)) {
                    Ok(handle) => running.push_reserved(handle),
                    Err(_refused) => return Err(RunFault::NotStarted(number)),
                }
            }
            let Some(observer) = observer else {
                match thread::join_promised(rt, running) {
                    Ok(works) => return Ok((works, None)),
                    Err(_) => return Err(RunFault::Memory),
                }
            };
            let number = observer.worker();
            let observes = Observes {
                observer: Snapshot::of(&observer),
            };
            let stack = Stack::new().stack_size(THREAD_STACK);
            let handle = match stack.spawn_scoped_with(
                scope,
                observes,
                move || observe(rt, alloc, shared, observer),
            ) {
                Ok(handle) => handle,
                Err(_refused) => return Err(RunFault::NotStarted(number)),
            };
            let joined = thread::join_promised(rt, running);
            ended.store(true, Ordering::SeqCst);
            let observed = handle.join(rt);
            match joined {
                Ok(works) => Ok((works, Some(observed))),
                Err(_) => Err(RunFault::Memory),
            }
        },
    )
}
