//! One worker: a seat, a client, and the thread in which that is served.
ghost use Rattle.std.specs.Prelude.{◌≡◌, ◌+◌, ◌<◌, ◌≤◌, None, IsSome};
ghost use Rattle.qplain.specs.Journal.{no_tally};
ghost use Rattle.qshare.specs.declared.held.TheConstants.{MAX_BATCH};
ghost use Rattle.qrun_worker.specs.Work.{HasGone, IsNewClient, IsPlayed, MayBeGiven, MayMake};

use crate::gate::Gate;
use qrun_client::Client;
use qrun_replay::Places;
use qshare::{Boards, Held, Seat, Shared};
use qshare_history::{Share, StoreId};
use std::marker::Model;
use std::snapshot::Snapshot;
use std::sync::Wait;
use std::thread::Promise;

/// What a worker has done: its share, where the answers to its lines stand, and what is left of its client.
#[derive(Drop)]
pub struct Work<S: StoreId, L: Drop> {
    pub share: Share<S>,
    pub places: Places,
    pub left: L,
}

impl<S: StoreId, L: Drop> Model for Work<S, L> {
    ghost use Rattle.qrun_worker.specs.Work.{Worked};

    ghost Value = { Worked L };

    ghost view = { λ w. record { share = w.share; places = w.places; left = w.left } };
}

/// That this worker plays what this client hands out.
#[derive(Drop)]
pub struct Plays<C> {
    pub worker: u64,
    pub client: Snapshot<C>,
}

impl<S: StoreId, C: Client> Promise<Work<S, C::Left>> for Plays<C> {
    ghost use Rattle.qrun_worker.specs.Work.{IsPlayed};

    ghost kept_by = { λ p w. IsPlayed p.worker (C.talk p.client.value) w };
}

/// A worker that is ready to start, with all that it takes along: its seat, its client, which are new, and for how many
/// lines at a time it takes the lock. Contracts see its number and its client.
#[derive(Drop)]
pub struct Worker<
    'a,
    'b,
    'c,
    S: StoreId,
    B: Boards<S>,
    V: Drop,
    C: Client + Drop,
    G: Gate,
    R: Wait,
> {
    rt: &'a R,
    shared: &'b Shared<S, B>,
    gate: &'c G,
    client: C,
    batch: usize,
    seat: Seat<S, V>,
}

impl<'a, 'b, 'c, S: StoreId, B: Boards<S>, V: Drop, C: Client + Drop, G: Gate, R: Wait> Model
    for Worker<'a, 'b, 'c, S, B, V, C, G, R> {
    ghost use Rattle.std.specs.Prelude.{◌≡◌, ◌<◌, ◌≤◌};
    ghost use Rattle.qplain.specs.Journal.{no_tally};
    ghost use Rattle.qshare.specs.declared.held.TheConstants.{MAX_BATCH};
    ghost use Rattle.qrun_worker.specs.Work.{IsNewClient, MayBeGiven, Prepared};

    ghost Value = { Prepared C };

    ghost view = { λ w. record { worker = w.seat.worker; client = w.client } };

    ghost invariant = { λ w. (0 < w.batch) × (w.batch ≤ MAX_BATCH) × (w.seat.tally ≡ no_tally)
        × IsNewClient (C.owed w.client) (C.stands w.client) × MayBeGiven S.id.clocked C.clocked };
}

impl<'a, 'b, 'c, S: StoreId, B: Boards<S>, V: Drop, C: Client + Drop, G: Gate, R: Wait> Worker<
    'a,
    'b,
    'c,
    S,
    B,
    V,
    C,
    G,
    R,
> {
    /// A worker with a new seat for a client that has handed out nothing, which takes the lock for 1 to 64 lines at a
    /// time.
    pub fn new(
        rt: &'a R,
        shared: &'b Shared<S, B>,
        gate: &'c G,
        batch: u64,
        seat: Seat<S, V>,
        client: C,
    ) -> Worker<'a, 'b, 'c, S, B, V, C, G, R>
        requires batch { (0 < batch) × (batch ≤ MAX_BATCH) }
        requires seat { seat.tally ≡ no_tally }
        requires new { IsNewClient (C.owed client) (C.stands client) }
        requires clock { MayBeGiven S.id.clocked C.clocked }
        ensures { result ≡ record { worker = seat.worker; client = client } }
    {
        Worker {
            rt,
            shared,
            gate,
            client,
            batch: batch as usize,
            seat,
        }
    }

    /// What its thread promises.
    pub fn plays(&self) -> Plays<C>
        ensures { (result.worker ≡ self.now.worker) × (result.client.value ≡ self.now.client) }
    {
        Plays {
            worker: self.seat.worker(),
            client: Snapshot::of(&self.client),
        }
    }
}

/// Makes a client's calls one after the other, and goes on after any answer, until it has no more lines.
fn play_lines<S: StoreId, B: Boards<S>, V: Drop, C: Client, G: Gate, R: Wait>(
    rt: &R,
    shared: &Shared<S, B>,
    gate: &G,
    client: &mut C,
    seat: &mut Seat<S, V>,
)
    requires answered { C.owed client.old ≡ None }
    requires clock { MayBeGiven S.id.clocked C.clocked }
    ensures gone { HasGone seat.old.seen seat.new.seen seat.old seat.new (C.stands client.old) (C.stands client.new)
        (C.talk client.old) (C.talk client.new) }
    ensures ended { (C.owed client.new ≡ None) × C.has_ended client.new }
{
    let worker = seat.worker();
    let mut number = 0usize;
    for _ in rt.forever() {
        if !client.next() {
            return;
        }
        number = number.wrapping_add(1);
        gate.before(worker, number);
        let line = client.line();
        let answer = shared.call(rt, seat, &line.cred, line.moment, &line.call);
        gate.after(worker, number);
        client.tell(answer);
    }
    unreachable!()
}

/// Makes the call of the line that a client has handed out, under a lock that is held.
#[inline(always)]
fn play_one<S: StoreId, B: Boards<S>, V: Drop, C: Client>(
    held: &mut Held<'_, S, B>,
    client: &mut C,
    seat: &mut Seat<S, V>,
)
    requires owed { IsSome (C.owed client.old) }
    requires held { (0 < held.old.room) × (seat.old.worker ≡ held.old.by) }
    requires clock { MayBeGiven S.id.clocked C.clocked }
    ensures gone { HasGone held.old.journal held.new.journal seat.old seat.new (C.stands client.old)
        (C.stands client.new) (C.talk client.old) (C.talk client.new) }
    ensures answered { C.owed client.new ≡ None }
    ensures held { (held.new.by ≡ held.old.by) × (held.old.room ≤ held.new.room + 1) }
{
    let line = client.line();
    let answer = held.apply(seat, &line.cred, line.moment, &line.call);
    client.tell(answer);
}

/// Makes the calls of the line that a client has handed out, and of those behind it that are at hand, up to so many in
/// all, under a lock that is held, and then gives it back. It tells how many it has made.
fn play_held<S: StoreId, B: Boards<S>, V: Drop, C: Client, R: Wait>(
    rt: &R,
    held: Held<'_, S, B>,
    client: &mut C,
    many: usize,
    seat: &mut Seat<S, V>,
) -> usize
    requires owed { IsSome (C.owed client.old) }
    requires many { (0 < many) × MayMake many held seat.old }
    requires clock { MayBeGiven S.id.clocked C.clocked }
    ensures gone { HasGone seat.old.seen seat.new.seen seat.old seat.new (C.stands client.old) (C.stands client.new)
        (C.talk client.old) (C.talk client.new) }
    ensures answered { C.owed client.new ≡ None }
{
    let mut held = held;
    let mut made = 1;
    play_one(&mut held, client, seat);
    for _ in 1..many {
        if !client.next_at_hand() {
            break;
        }
        play_one(&mut held, client, seat);
        made += 1;
    }
    held.release(rt, seat);
    made
}

/// Makes a client's calls, of those that are at hand so many at a time under one taking of the lock, and waits at the
/// gate before the first and after the last of them, until it has no more lines.
fn play_batches<S: StoreId, B: Boards<S>, V: Drop, C: Client, G: Gate, R: Wait>(
    rt: &R,
    shared: &Shared<S, B>,
    gate: &G,
    client: &mut C,
    batch: usize,
    seat: &mut Seat<S, V>,
)
    requires batch { (0 < batch) × (batch ≤ MAX_BATCH) }
    requires answered { C.owed client.old ≡ None }
    requires clock { MayBeGiven S.id.clocked C.clocked }
    ensures gone { HasGone seat.old.seen seat.new.seen seat.old seat.new (C.stands client.old) (C.stands client.new)
        (C.talk client.old) (C.talk client.new) }
    ensures ended { (C.owed client.new ≡ None) × C.has_ended client.new }
{
    let worker = seat.worker();
    let mut number = 0usize;
    for _ in rt.forever() {
        if !client.next() {
            return;
        }
        gate.before(worker, number.wrapping_add(1));
        let held = shared.hold(rt, seat);
        number = number.wrapping_add(play_held(rt, held, client, batch, seat));
        gate.after(worker, number);
    }
    unreachable!()
}

/// Plays what a worker's client hands out, until it has no more lines.
pub fn play<S: StoreId, B: Boards<S>, V: Drop, C: Client + Drop, G: Gate, R: Wait>(
    worker: Worker<'_, '_, '_, S, B, V, C, G, R>,
) -> Work<S, C::Left>
    ensures { IsPlayed worker.entry.worker (C.talk worker.entry.client) result }
{
    let Worker {
        rt,
        shared,
        gate,
        mut client,
        batch,
        mut seat,
    } = worker;
    if batch == 1 {
        play_lines(rt, shared, gate, &mut client, &mut seat);
    } else {
        play_batches(rt, shared, gate, &mut client, batch, &mut seat);
    }
    let (places, left) = client.into_parts();
    Work {
        share: seat.finish(),
        places,
        left,
    }
}
