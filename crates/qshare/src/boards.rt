//! What a shared store does for those who look at its boards.
ghost use Rattle.std.specs.Prelude.{◌≡◌, ◌++◌, ◌∷◌, [], List, Some, IfOk, OnErr};
ghost use mathlib.Core.List.{IsPrefix};
ghost use Rattle.qplain.specs.declared.entry.Entry.{Entry};
ghost use Rattle.qshare_history.specs.Histories.{recorded};
ghost use Rattle.qstore_journaled.specs.Journaled.{IsStoreOf};
ghost use Rattle.qstore_journaled.specs.Next.{HasNext};

use qplain::NoMemory;
use qshare_history::{Prefix, StoreId};
use qstore_journaled::JournaledStore;

/// What lies under a shared store's lock for those who look at its boards: `Published`, or `NoBoards` where nobody can.
pub trait Boards<S: StoreId>: Drop {
    /// The board of the first history is published, and what waits leads from it to the board of the second.
    ghost waits: { Self → List Entry → List Entry → Type 0 };

    /// Lets what the call that is ready will change on the board wait to be published. An Err is out of memory.
    fn note(&mut self, store: &JournaledStore) -> Result<(), NoMemory>
        requires store { IsStoreOf S.id.setting S.id.begun store.now }
        requires next { HasNext store.now }
        ensures ok { (published : List Entry) (e : Entry) → store.now.next ≡ Some e
            → waits self.old published store.now.journal
            → IfOk result (λ _. waits self.new published (store.now.journal ++ e ∷ [])) }
        ensures err { (published : List Entry) → waits self.old published store.now.journal
            → OnErr result (waits self.new published store.now.journal) };

    /// Publishes the board of the store's whole journal, which is all of its history.
    fn publish(&mut self, store: &JournaledStore, published: &Prefix, history: Prefix)
        requires store { IsStoreOf S.id.setting S.id.begun store.now }
        requires waits { waits self.old published.now.entries store.now.journal }
        requires begins { IsPrefix published.now.entries store.now.journal }
        requires history { history ≡ recorded S.id.history store.now.journal }
        ensures { waits self.new store.now.journal store.now.journal };
}
