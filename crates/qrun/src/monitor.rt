//! Who is shown the boards of a service, and the thread in which they are shown.
ghost use Rattle.std.specs.Prelude.{◌≡◌, ◌∷◌, [], List};
ghost use Rattle.qplain.specs.declared.board.Board.{Board};
ghost use Rattle.qplain.specs.Journal.{no_tally};
ghost use Rattle.qrun.specs.Monitors.{HasSeen, IsShown, ShowsNext};
ghost use Rattle.qrun.specs.Watching.{HasWaited, IsWatch};

use crate::observer::Watch;
use qplain::Board;
use qrules::Kind;
use qshare::{Boards, Seat, Shared};
use qshare_boards::Viewer;
use qshare_history::StoreId;
use std::alloc::Global;
use std::marker::Model;
use std::sync::Wait;
use std::sync::atomic::{AtomicBool, Ordering};

/// Who is shown the boards of a service.
pub trait Monitor {
    /// What is left of it when no more are shown.
    type Left: Drop + Send;

    /// What may come of it: that it is shown these boards from now on, one after the other, and leaves this.
    ghost sees: { Self → List Board → Self.Left → Type 0 };

    /// Waits until a board is due, and not for long: a service ends only after it.
    fn wait(&mut self)
        ensures { HasSeen [] (sees self.old) (sees self.new) };

    /// Waits for a moment, in which a worker that makes a call publishes the board that is due.
    fn give_way(&mut self)
        ensures { HasSeen [] (sees self.old) (sees self.new) };

    /// Learns that there was no memory for the last board.
    fn miss(&mut self)
        ensures { HasSeen [] (sees self.old) (sees self.new) };

    /// Takes the board that is published now.
    fn show(&mut self, board: &Board)
        ensures { HasSeen (board.now ∷ []) (sees self.old) (sees self.new) };

    /// Is shown no more, and gives back what is left.
    fn end(self) -> Self::Left
    where
        Self: Sized,
        ensures { sees self [] result };
}

/// Who shows the boards of a service to its monitor, until an end is told: a new seat that looks at them, the flag by
/// which it asks for one, the monitor, and the flag that tells the end. Contracts see the seat and the monitor.
#[derive(Drop)]
pub(crate) struct Showing<'a, S: StoreId, M: Monitor + Drop> {
    seat: Seat<S, Viewer<S>>,
    wanted: &'a AtomicBool,
    monitor: M,
    ended: &'a AtomicBool,
}

impl<'a, S: StoreId, M: Monitor + Drop> Model for Showing<'a, S, M> {
    ghost use Rattle.std.specs.Prelude.{◌≡◌};
    ghost use Rattle.qplain.specs.Journal.{no_tally};
    ghost use Rattle.qrun.specs.Monitors.{Observing};

    ghost Value = { Observing M };

    ghost view = { λ s. record { seat = s.seat; monitor = s.monitor } };

    ghost invariant = { λ s. s.seat.tally ≡ no_tally };
}

impl<'a, S: StoreId, M: Monitor + Drop> Showing<'a, S, M> {
    /// Who shows the boards at which this seat looks, which is new.
    pub(crate) fn new(
        seat: Seat<S, Viewer<S>>,
        wanted: &'a AtomicBool,
        monitor: M,
        ended: &'a AtomicBool,
    ) -> Showing<'a, S, M>
        requires { seat.tally ≡ no_tally }
        ensures { result ≡ record { seat = seat; monitor = monitor } }
    {
        Showing {
            seat,
            wanted,
            monitor,
            ended,
        }
    }

    /// The number of its seat.
    pub(crate) fn worker(&self) -> u64
        ensures { result ≡ self.now.seat.worker }
    {
        self.seat.worker()
    }
}

/// Publishes what waits, and sees it, unless a worker has the lock just then.
fn publish<S: StoreId, B: Boards<S>, R: Wait>(
    rt: &R,
    shared: &Shared<S, B>,
    seat: &mut Seat<S, Viewer<S>>,
)
    ensures { HasWaited seat.old seat.new }
{
    if let Some(held) = shared.try_hold(seat) {
        held.release(rt, seat);
    }
}

/// Asks for a board, which the next call of a worker then publishes. Where none is made in a moment it is published
/// here, unless a worker has the lock just then. It tells whether one was published.
fn ask<S: StoreId, B: Boards<S>, M: Monitor, R: Wait>(
    rt: &R,
    shared: &Shared<S, B>,
    wanted: &AtomicBool,
    seat: &mut Seat<S, Viewer<S>>,
    monitor: &mut M,
) -> bool
    ensures seat { HasWaited seat.old seat.new }
    ensures sees { HasSeen [] (M.sees monitor.old) (M.sees monitor.new) }
{
    wanted.store(true, Ordering::SeqCst);
    monitor.give_way();
    if wanted.load(Ordering::SeqCst) {
        publish(rt, shared, seat);
    }
    !wanted.load(Ordering::SeqCst)
}

/// Shows the published board to the monitor, unless its version is that which was shown last. It tells whether the
/// monitor has seen it then.
fn show_next<S: StoreId, M: Monitor>(
    seat: &mut Seat<S, Viewer<S>>,
    monitor: &mut M,
    shown: &mut Option<u64>,
) -> bool
    ensures seat { HasWaited seat.old seat.new }
    ensures shows { ShowsNext S.id.begun seat.new.seen shown.old shown.new (M.sees monitor.old)
        (M.sees monitor.new) }
{
    if let Ok((version, _)) = seat.record(Kind::User, 0)
        && *shown == Some(version)
    {
        return true;
    }
    let Ok(board) = seat.board() else {
        return false;
    };
    if *shown == Some(board.version) {
        return true;
    }
    monitor.show(&board);
    *shown = Some(board.version);
    true
}

/// Ends the monitor, which learns before where the last board was not shown.
fn end_of<M: Monitor>(mut monitor: M, complete: bool) -> M::Left
    ensures { M.sees monitor [] result }
{
    if complete {
        return monitor.end();
    }
    monitor.miss();
    monitor.end()
}

/// Shows the boards of a store as they come, until all workers have ended, and then the last. It keeps none.
pub(crate) fn show_boards<S: StoreId, B: Boards<S>, M: Monitor + Drop, R: Wait>(
    rt: &R,
    alloc: Global,
    shared: &Shared<S, B>,
    showing: Showing<'_, S, M>,
) -> (Watch<S>, M::Left)
    ensures watch { IsWatch S.id.begun showing.entry.seat.worker 0 result.0 }
    ensures shown { IsShown S.id.begun result.0.share.seen (M.sees showing.entry.monitor) result.1 }
{
    let Showing {
        mut seat,
        wanted,
        mut monitor,
        ended,
    } = showing;
    let mut shown = None;
    for _ in rt.forever() {
        let last = ended.load(Ordering::SeqCst);
        let published = ask(rt, shared, wanted, &mut seat, &mut monitor);
        let seen = show_next(&mut seat, &mut monitor, &mut shown);
        if last {
            let left = end_of(monitor, published && seen);
            let watch = Watch {
                share: seat.finish(),
                looks: Vec::new(alloc),
            };
            return (watch, left);
        }
        monitor.wait();
    }
    unreachable!()
}

/// No monitor: of a run, where nobody is shown boards.
#[derive(Drop)]
pub(crate) struct NoMonitor;

impl Monitor for NoMonitor {
    ghost use Rattle.std.specs.Prelude.{⊤};

    type Left = ();

    ghost sees = { λ m boards left. ⊤ };

    fn wait(&mut self) {}

    fn give_way(&mut self) {}

    fn miss(&mut self) {}

    fn show(&mut self, _board: &Board) {}

    fn end(self) {}
}
