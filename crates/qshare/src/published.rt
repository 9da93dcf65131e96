//! The boards of a shared store, published for those who look.
ghost use Rattle.std.specs.Prelude.{◌≡◌, ◌≤◌, ◌+◌, vec_len, vec_capacity, IfOk, OnErr};
ghost use Rattle.qstore.specs.Ready.{IsReady, committed};
ghost use Rattle.qplain.specs.declared.placed_row.TheConstants.{MAX_CHANGED_ROWS};
ghost use Rattle.qshare.specs.Waiting.{LeadsOn};

use crate::boards::Boards;
use qplain::{MAX_CHANGED_ROWS, NoMemory, PlacedRow};
use qshare_boards::{BoardChange, Publisher};
use qshare_history::{Prefix, StoreId};
use qstore::Store;
use qstore_journaled::JournaledStore;
use std::alloc::Global;
use std::sync::Wait;

/// The writing side of the boards, and the rows that the calls since the last publication change, one after the other.
#[derive(Drop)]
pub struct Published<S: StoreId, R: Wait + Drop> {
    pub(crate) alloc: Global,
    pub(crate) publisher: Publisher<S, R>,
    pub(crate) waiting: Vec<PlacedRow>,
}

/// Makes room for the rows of one call more: for these alone where none waits, since a publication takes the list away.
/// Most calls change no row, so it is out of line.
#[inline(never)]
fn make_room(waiting: &mut Vec<PlacedRow>) -> Result<(), NoMemory>
    ensures same { waiting.new.items ≡ waiting.old.items }
    ensures room { IfOk result (λ _. vec_len waiting.new + MAX_CHANGED_ROWS ≤ vec_capacity waiting.new) }
{
    if waiting.is_empty() {
        waiting.reserve_exact(MAX_CHANGED_ROWS)?;
    } else {
        waiting.reserve(MAX_CHANGED_ROWS)?;
    }
    Ok(())
}

/// Lets the rows wait that what is ready changes, if it may change any, after the others. An Err, out of memory,
/// leaves the others as they were.
fn let_wait(waiting: &mut Vec<PlacedRow>, store: &Store) -> Result<(), NoMemory>
    requires { IsReady store.now }
    ensures rows { IfOk result (λ _. LeadsOn waiting.old.items store.now.state
        waiting.new.items (committed store.now)) }
    ensures err { OnErr result (waiting.new.items ≡ waiting.old.items) }
{
    if store.may_change_rows() {
        make_room(waiting)?;
        store.push_changed_rows(waiting);
    }
    Ok(())
}

impl<S: StoreId, R: Wait + Drop> Boards<S> for Published<S, R> {
    ghost use Rattle.qshare.specs.Waiting.{Waits};

    ghost waits = { λ b published journal. Waits S.id.begun b.publisher b.waiting.items published journal };

    fn note(&mut self, store: &JournaledStore) -> Result<(), NoMemory> {
        let_wait(&mut self.waiting, store.store())
    }

    fn publish(&mut self, store: &JournaledStore, _published: &Prefix, history: Prefix) {
        let change = BoardChange {
            version: store.entries().len() as u64,
            rows: std::mem::replace(&mut self.waiting, Vec::new(self.alloc)),
            blocks: store.store().blocks(),
            inodes: store.store().inodes(),
        };
        self.publisher.publish(change, history);
    }
}
