//! What a run or a service begins with.
ghost use Rattle.std.specs.Prelude.{◌≡◌, ◌<◌, ℕ, true, IfOk, IfSome, IsSome};
ghost use Rattle.qplain.specs.State.{start};
ghost use Rattle.qrun.specs.Beginnings.{HasBegun};

use qplain::{NoMemory, Setup};
use qshare::JournaledStore;
use qstore::Store;
use std::alloc::Global;

/// A store that begins, and where boards are to be checked another one that begins alike, on which the journal is
/// played again.
#[derive(Drop)]
pub struct Beginning {
    pub store: JournaledStore,
    pub again: Option<Store>,
}

/// A new store of the setup, where boards are to be checked.
fn other_of(
    alloc: Global,
    setup: &Setup,
    seed: u64,
    boards: bool,
) -> Result<Option<Store>, NoMemory>
    ensures alike { IfOk result (λ again. IfSome again (λ s. s.state ≡ start setup.now)) }
    ensures there { IfOk result (λ again. boards ≡ true → IsSome again) }
{
    if !boards {
        return Ok(None);
    }
    Ok(Some(Store::new(alloc, setup.copy(alloc)?, seed)?))
}

impl Beginning {
    /// A new store of the setup, and one more where boards are to be checked.
    ///
    /// The hashes of names begin at `seed`, which may be any number; nothing of an outcome depends on it. An Err is out
    /// of memory; then nothing was made.
    pub fn new(alloc: Global, setup: Setup, seed: u64, boards: bool) -> Result<Beginning, NoMemory>
        ensures setting { IfOk result (λ b. b.store.setting ≡ setup) }
        ensures begun { IfOk result (λ b. b.store.begun ≡ start setup) }
        ensures fresh { IfOk result (HasBegun 0) }
        ensures has_begun { IfOk result
            (λ b. (wanted : ℕ) → (0 < wanted → boards ≡ true) → HasBegun wanted b) }
    {
        let again = other_of(alloc, &setup, seed, boards)?;
        let store = JournaledStore::new(alloc, setup, seed)?;
        Ok(Beginning { store, again })
    }
}
