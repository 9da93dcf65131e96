//! What a store was at a moment. It exists in the proofs alone.
ghost use Rattle.std.specs.Prelude.{◌≡◌};

use logbook::{Opening, Rule, Seen, Start};
use qstore::Store;
use std::marker::Model;

/// The rule of a log that begins with what a store was, and never grows: none.
pub(crate) struct Free;

impl Rule<Store, u64> for Free {
    ghost use Rattle.std.specs.Prelude.{[]};
    ghost use base.Fml.{ftrue};

    ghost holds = { λ cells log. Unit {0} };

    ghost first = { [] };

    ghost hinted = { λ n log. Unit {0} };

    ghost shows = { λ log. [] };

    ghost keeps = { λ names log. ftrue };

    ghost moves = { λ ask before after answer. Unit {0} };
}

/// A log that begins with what a store is.
pub(crate) struct Remember;

impl Opening<Store, Store> for Remember {
    ghost use Rattle.std.specs.Prelude.{[], ◌∷◌};

    ghost log = { λ count store. store ∷ [] };
}

/// The state in which a store was when it was remembered. It has no bytes.
#[derive(Drop)]
pub struct Origin {
    seen: Seen<Store, u64, Free>,
}

impl Model for Origin {
    ghost use Rattle.qplain.specs.State.{State};

    ghost Value = { State };

    ghost use Rattle.qstore_journaled.specs.Origins.{first_state};

    ghost view = { λ o. first_state o.seen.log };
}

impl Origin {
    /// What the store is now. It takes no memory.
    pub(crate) fn of(store: &Store) -> Origin
        ensures { result ≡ store.now.state }
    {
        let (seen, _pens) = Seen::open_row::<Store, Remember>(store, Start::alone(), 0);
        Origin { seen }
    }
}
