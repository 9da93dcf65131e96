//! Who looks at the boards of a run, so many times.
ghost use Rattle.std.specs.Prelude.{◌≡◌, IfOk};
ghost use Rattle.qplain.specs.Journal.{no_tally};
ghost use Rattle.qrun.specs.Watching.{IsWatch};

use crate::observer::{Look, Watch};
use crate::pace::Pace;
use qplain::NoMemory;
use qshare::Seat;
use qshare_boards::Viewer;
use qshare_history::StoreId;
use std::alloc::Global;
use std::marker::Model;

/// Who looks N times, one after the other, spread over the calls of a run: a new seat, and room for what the looks are
/// given. Contracts see the seat, and how many looks.
#[derive(Drop)]
pub(crate) struct Watcher<S: StoreId> {
    seat: Seat<S, Viewer<S>>,
    room: Vec<Look>,
    calls: u64,
    boards: u64,
}

impl<S: StoreId> Model for Watcher<S> {
    ghost use Rattle.std.specs.Prelude.{◌≡◌, ◌≤◌, vec_len, vec_capacity};
    ghost use Rattle.qplain.specs.Journal.{no_tally};
    ghost use Rattle.qrun.specs.Watching.{Watching};

    ghost Value = { Watching };

    ghost view = { λ w. record { seat = w.seat; boards = w.boards } };

    ghost invariant = { λ w. (w.seat.tally ≡ no_tally) × (vec_len w.room ≡ 0) × (w.boards ≤ vec_capacity w.room) };
}

impl<S: StoreId> Watcher<S> {
    /// Who looks N times beside this many calls. An Err is out of memory.
    pub(crate) fn new(
        alloc: Global,
        seat: Seat<S, Viewer<S>>,
        calls: u64,
        boards: u64,
    ) -> Result<Watcher<S>, NoMemory>
        requires { seat.tally ≡ no_tally }
        ensures { IfOk result (λ w. w ≡ record { seat = seat; boards = boards }) }
    {
        Ok(Watcher {
            seat,
            room: Vec::with_capacity(alloc, boards as usize)?,
            calls,
            boards,
        })
    }

    /// The number of its seat.
    pub(crate) fn worker(&self) -> u64
        ensures { result ≡ self.now.seat.worker }
    {
        self.seat.worker()
    }
}

/// Looks N times. No look waits for anybody.
pub(crate) fn look_on<S: StoreId>(watcher: Watcher<S>) -> Watch<S>
    ensures { IsWatch S.id.begun watcher.seat.worker watcher.boards result }
{
    let Watcher {
        mut seat,
        room: mut looks,
        calls,
        boards,
    } = watcher;
    let mut pace = Pace::new(calls, boards);
    for look in 0..boards {
        pace.wait(&mut seat, look);
        looks.push_reserved(seat.board());
    }
    Watch {
        share: seat.finish(),
        looks,
    }
}
