use crate::boards::Boards;
use qplain::NoMemory;
use qshare_history::{Prefix, StoreId};
use qstore_journaled::JournaledStore;

/// Nobody can look at the boards of the store: nothing is published and nothing waits.
#[derive(Debug, Drop)]
pub struct NoBoards;

impl<S: StoreId> Boards<S> for NoBoards {
    ghost waits = { λ b published journal. Unit {0} };

    fn note(&mut self, _store: &JournaledStore) -> Result<(), NoMemory> {
        Ok(())
    }

    fn publish(&mut self, _store: &JournaledStore, _published: &Prefix, _history: Prefix) {}
}
