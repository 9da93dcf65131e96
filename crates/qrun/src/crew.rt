//! Who plays on a store: its clients, and a worker for each.
ghost use Rattle.std.specs.Prelude.{◌≡◌, ◌<◌, ◌≤◌, All, length, IfOk};
ghost use Rattle.qshare.specs.declared.held.TheConstants.{MAX_BATCH};
ghost use Rattle.qshare.specs.Seats.{seats_of};
ghost use Rattle.qrun.specs.Crews.{AreReady, ArePlaying};
ghost use Rattle.qrun_worker.specs.Work.{IsNewClient, MayBeGiven};

use crate::machine::Machine;
use qplain::{NoMemory, Script};
use qrun_client::Client;
use qrun_worker::{Gate, ScriptClient, Worker};
use qshare::{Boards, Seat, Shared};
use qshare_history::StoreId;
use std::alloc::Global;
use std::marker::Model;
use std::sync::Wait;

/// The clients of a store, which have handed out nothing, the gate that is called around their lines, and for how many
/// of these a worker takes the lock. Contracts see the clients.
#[derive(Drop)]
pub(crate) struct Crew<'a, C: Client + Drop, G: Gate> {
    clients: Vec<C>,
    gate: &'a G,
    batch: u64,
}

impl<'a, C: Client + Drop, G: Gate> Model for Crew<'a, C, G> {
    ghost use Rattle.std.specs.Prelude.{◌<◌, ◌≤◌, All, List};
    ghost use Rattle.qshare.specs.declared.held.TheConstants.{MAX_BATCH};
    ghost use Rattle.qrun_worker.specs.Work.{IsNewClient};

    ghost Value = { List C };

    ghost view = { λ c. c.clients.items };

    ghost invariant = { λ c. (0 < c.batch) × (c.batch ≤ MAX_BATCH)
        × All (λ x. IsNewClient (C.owed x) (C.stands x)) c.clients.items };
}

impl<'a, C: Client + Drop, G: Gate> Crew<'a, C, G> {
    /// These clients, which have handed out nothing.
    pub(crate) fn new(clients: Vec<C>, gate: &'a G, batch: u64) -> Crew<'a, C, G>
        requires batch { (0 < batch) × (batch ≤ MAX_BATCH) }
        requires new { All (λ c. IsNewClient (C.owed c) (C.stands c)) clients.items }
        ensures { result ≡ clients.items }
    {
        Crew {
            clients,
            gate,
            batch,
        }
    }

    /// How many clients there are.
    pub(crate) fn len(&self) -> u64
        ensures { result ≡ length self.now }
    {
        self.clients.len() as u64
    }
}

/// A worker for each client, each with its seat.
pub(crate) fn workers_of<'a, 'b, 'c, S, B, V, C, G, R>(
    machine: &Machine<'a, R>,
    shared: &'b Shared<S, B>,
    crew: Crew<'c, C, G>,
    seats: Vec<Seat<S, V>>,
) -> Result<Vec<Worker<'a, 'b, 'c, S, B, V, C, G, R>>, NoMemory>
where
    S: StoreId,
    B: Boards<S>,
    V: Drop,
    C: Client + Drop,
    G: Gate,
    R: Wait,
    requires seats { seats.items ≡ seats_of (length crew) }
    requires clock { MayBeGiven S.id.clocked C.clocked }
    ensures { IfOk result (λ workers. AreReady crew.entry workers.items) }
{
    let Crew {
        clients,
        gate,
        batch,
    } = crew;
    let mut workers = Vec::with_capacity(machine.alloc, clients.len())?;
    let mut free = seats.into_iter();
    for client in clients {
        let Some(seat) = free.next() else {
            unreachable!();
        };
        let worker = Worker::new(machine.rt, shared, gate, batch, seat, client);
        workers.push_reserved(worker);
    }
    Ok(workers)
}

/// A client for each script, each with room for the places of its answers. An Err is out of memory.
pub(crate) fn clients_of(alloc: Global, scripts: Vec<Script>) -> Result<Vec<ScriptClient>, NoMemory>
    ensures { IfOk result (λ clients. ArePlaying scripts.items clients.items) }
{
    let mut clients = Vec::with_capacity(alloc, scripts.len())?;
    for script in scripts {
        clients.push_reserved(ScriptClient::new(alloc, script)?);
    }
    Ok(clients)
}
