//! The boards of a shared store, each published when somebody wants one.
ghost use Rattle.std.specs.Prelude.{◌≡◌, IfOk};
ghost use mathlib.Core.List.{IsPrefix};
ghost use Rattle.qplain.specs.Boards.{rows_of};
ghost use Rattle.qshare_history.specs.Histories.{recorded};
ghost use Rattle.qstore_journaled.specs.Journaled.{IsStoreOf};
ghost use Rattle.qshare.specs.Waiting.{Replaces};

use crate::boards::Boards;
use qplain::{NoMemory, PlacedRow};
use qrules::BoardRow;
use qshare_boards::{BoardChange, Publisher};
use qshare_history::{Prefix, StoreId};
use qstore::Store;
use qstore_journaled::JournaledStore;
use std::alloc::Global;
use std::sync::Wait;
use std::sync::atomic::{AtomicBool, Ordering};

/// The writing side of boards of which one is published when it is wanted: till then calls do nothing for it.
#[derive(Drop)]
pub struct OnDemand<'a, S: StoreId, R: Wait + Drop> {
    pub(crate) alloc: Global,
    pub(crate) publisher: Publisher<S, R>,
    /// Set by who wants a board, and cleared when one is published.
    pub(crate) wanted: &'a AtomicBool,
}

/// Each of the rows in its place.
fn place_each(alloc: Global, rows: &[BoardRow]) -> Result<Vec<PlacedRow>, NoMemory>
    ensures { IfOk result (λ placed. Replaces placed.items rows.now) }
{
    let mut placed = Vec::with_capacity(alloc, rows.len())?;
    for place in 0..rows.len() {
        placed.push_reserved(PlacedRow {
            place,
            row: rows[place],
        });
    }
    Ok(placed)
}

/// All rows of a store's board, each in its place.
fn all_rows(alloc: Global, store: &Store) -> Result<Vec<PlacedRow>, NoMemory>
    ensures { IfOk result (λ placed. Replaces placed.items (rows_of store.now.state)) }
{
    let rows = store.board_rows()?;
    place_each(alloc, rows.as_slice())
}

impl<'a, S: StoreId, R: Wait + Drop> OnDemand<'a, S, R> {
    /// Publishes the board of the store's whole journal. Where memory is wanting a later call does.
    #[inline(never)]
    fn publish_all(&mut self, store: &JournaledStore, history: Prefix)
        requires store { IsStoreOf S.id.setting S.id.begun store.now }
        requires begins { IsPrefix self.old.publisher store.now.journal }
        requires history { history ≡ recorded S.id.history store.now.journal }
        ensures { IsPrefix self.new.publisher store.now.journal }
    {
        let kept = store.store();
        let Ok(rows) = all_rows(self.alloc, kept) else {
            return;
        };
        let change = BoardChange {
            version: store.entries().len() as u64,
            rows,
            blocks: kept.blocks(),
            inodes: kept.inodes(),
        };
        self.publisher.publish(change, history);
        self.wanted.store(false, Ordering::SeqCst);
    }
}

impl<'a, S: StoreId, R: Wait + Drop> Boards<S> for OnDemand<'a, S, R> {
    ghost use mathlib.Core.List.{IsPrefix};

    ghost waits = { λ b published journal. IsPrefix b.publisher published };

    fn note(&mut self, _store: &JournaledStore) -> Result<(), NoMemory> {
        Ok(())
    }

    fn publish(&mut self, store: &JournaledStore, _published: &Prefix, history: Prefix) {
        if self.wanted.load(Ordering::Relaxed) {
            self.publish_all(store, history);
        }
    }
}
