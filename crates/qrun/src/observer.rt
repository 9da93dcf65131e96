//! Who looks at the boards of a store beside its workers, and the thread in which that is done.
ghost use Rattle.std.specs.Prelude.{◌≡◌, option_map};
ghost use Rattle.qrun.specs.Observers.{IsObserved, observer_left, seat_in};

use crate::monitor::{Monitor, Showing, show_boards};
use crate::watcher::{Watcher, look_on};
use qplain::{Board, LookFault};
use qshare::{Boards, Shared};
use qshare_history::{Share, StoreId};
use std::alloc::Global;
use std::marker::Model;
use std::snapshot::Snapshot;
use std::sync::Wait;
use std::thread::Promise;

/// What a look at the boards was given.
pub(crate) type Look = Result<Board, LookFault>;

/// What who looks has done: its share, and what each of its looks was given that it has kept.
#[derive(Drop)]
pub(crate) struct Watch<S: StoreId> {
    pub(crate) share: Share<S>,
    pub(crate) looks: Vec<Look>,
}

impl<S: StoreId> Model for Watch<S> {
    ghost use Rattle.qrun.specs.Watching.{Watched};

    ghost Value = { Watched };

    ghost view = { λ w. record { share = w.share; looks = w.looks.items } };
}

/// What an observer has done, and what is left of its monitor, where it has one.
#[derive(Drop)]
pub(crate) struct Observed<S: StoreId, L: Drop> {
    pub(crate) watch: Watch<S>,
    pub(crate) left: Option<L>,
}

impl<S: StoreId, L: Drop> Model for Observed<S, L> {
    ghost use Rattle.qrun.specs.Observers.{Observed};

    ghost Value = { Observed L };

    ghost view = { λ o. record { watch = o.watch; left = o.left } };
}

/// What was done beside what is left of a monitor.
pub(crate) fn part_observed<S: StoreId, L: Drop>(
    observed: Option<Observed<S, L>>,
) -> (Option<Watch<S>>, Option<L>)
    ensures watch { result.0 ≡ option_map (λ o. o.watch) observed }
    ensures left { result.1 ≡ observer_left observed }
{
    match observed {
        Some(Observed { watch, left }) => (Some(watch), left),
        None => (None, None),
    }
}

/// Who looks at the boards of a store beside its workers, from a new seat.
#[derive(Drop)]
pub(crate) enum Observer<'a, S: StoreId, M: Monitor + Drop> {
    /// So many times.
    Watcher(Watcher<S>),
    /// For a monitor, until all workers have ended.
    Showing(Showing<'a, S, M>),
}

impl<'a, S: StoreId, M: Monitor + Drop> Observer<'a, S, M> {
    /// The number of its seat.
    pub(crate) fn worker(&self) -> u64
        ensures { result ≡ (seat_in self.now).worker }
    {
        match self {
            Observer::Watcher(watcher) => watcher.worker(),
            Observer::Showing(showing) => showing.worker(),
        }
    }
}

/// Has an observer look at the boards of this store.
pub(crate) fn observe<S: StoreId, B: Boards<S>, M: Monitor + Drop, R: Wait>(
    rt: &R,
    alloc: Global,
    shared: &Shared<S, B>,
    observer: Observer<'_, S, M>,
) -> Observed<S, M::Left>
    ensures { IsObserved M.sees S.id.begun observer.entry result }
{
    match observer {
        Observer::Watcher(watcher) => Observed {
            watch: look_on(watcher),
            left: None,
        },
        Observer::Showing(showing) => {
            let (watch, left) = show_boards(rt, alloc, shared, showing);
            Observed {
                watch,
                left: Some(left),
            }
        }
    }
}

/// That this observer looks at the boards of its store.
#[derive(Drop)]
pub(crate) struct Observes<'a, S: StoreId, M: Monitor + Drop> {
    pub(crate) observer: Snapshot<Observer<'a, S, M>>,
}

impl<'a, S: StoreId, M: Monitor + Drop> Promise<Observed<S, M::Left>> for Observes<'a, S, M> {
    ghost use Rattle.qrun.specs.Observers.{IsObserved};

    ghost kept_by = { λ p o. IsObserved M.sees S.id.begun p.observer.value o };
}
