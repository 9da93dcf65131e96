//! Services: living clients, each served by a worker, on a shared store.
ghost use Rattle.std.specs.Prelude.{All, length, IfErr, IfOk};
ghost use Rattle.qrun_replay.specs.Runs.{IsServiceOf};
ghost use Rattle.qrun.specs.Beginnings.{HasBegun};
ghost use Rattle.qrun.specs.Monitors.{IsShownTo};
ghost use Rattle.qrun.specs.RunFaults.{IsFaultOf};
ghost use Rattle.qrun.specs.Serving.{CanServe, IsOfClients, KeepsTime, monitors_in};
ghost use Rattle.qrun.specs.Watching.{seats_for};
ghost use Rattle.qrun_worker.specs.Work.{IsNewClient, MayBeGiven};

use crate::beginning::Beginning;
use crate::crew::Crew;
use crate::looking::Looking;
use crate::machine::Machine;
use crate::monitor::Monitor;
use crate::opening::play_on;
use crate::run_fault::RunFault;
use qrun_client::Client;
use qrun_replay::Outcome;
use qrun_worker::NoGate;
use std::sync::Wait;
use std::thread::Threads;

/// What a service leaves, and what is left of each client, in their order, and of the monitor, where there was one.
#[derive(Drop)]
pub struct Service<L: Drop, W: Drop> {
    pub outcome: Outcome,
    pub left: Vec<L>,
    pub monitor: Option<W>,
}

/// Serves 1 to 16 clients on a store that begins, whose setup is of edition 2: each by a worker in a thread of its own,
/// line by line, until it has no more lines. Beside a monitor the clients are at most 15, and one thread more,
/// whose number is theirs and 1, shows it the boards as they come, and the last one when all clients have ended; else
/// nobody can look at boards, and calls take less.
///
/// The outcome is as of `run_scripts`, over the lines that the clients have handed out: worker k serves client k, and
/// its transcript has just the lines that this client has handed out and the answers that it was told, in their order,
/// each with the reply of its entry in the journal. A line may fail with JournalFull, and does so only where the
/// journal has its 1,048,576 entries. The outcome keeps no boards.
///
/// With a clock the moments of its journal never fall: a line that tells an earlier one than the last is made and
/// journaled with that. Its clients allow for it.
///
/// This is promised if the service returns: a client that does not end holds it up, and no other client. An Err is
/// Memory, NoReader, or NotStarted with the first thread that was refused; then the clients of all workers that were
/// started have been served to their ends, and the store is given up.
pub fn serve<C, M, R>(
    machine: &Machine<'_, R>,
    beginning: Beginning,
    clients: Vec<C>,
    clock: bool,
    monitor: Option<M>,
) -> Result<Service<C::Left, M::Left>, RunFault>
where
    C: Client + Drop + Send,
    M: Monitor + Drop + Send,
    R: Threads + Wait + Sync,
    requires can { HasBegun 0 beginning
        × CanServe beginning.store.setting (length clients.items) (monitors_in monitor) }
    requires new { All (λ c. IsNewClient (C.owed c) (C.stands c)) clients.items × MayBeGiven clock C.clocked }
    ensures outcome { IfOk result (λ s. IsServiceOf beginning.store.setting beginning.store.begun s.outcome
        × KeepsTime clock s.outcome) }
    ensures clients { IfOk result (λ s. IsOfClients C.talk clients.items s.left.items s.outcome) }
    ensures shown { IfOk result
        (λ s. IsShownTo M.sees beginning.store.begun s.outcome.journal.entries monitor s.monitor) }
    ensures fault { IfErr result (IsFaultOf (seats_for (length clients.items) (monitors_in monitor))) }
{
    let crew = Crew::new(clients, &NoGate, 1);
    play_on(
        machine,
        beginning,
        clock,
        crew,
        Looking::of_monitor(monitor),
    )
}
