//! Why a shared store was not ended.
ghost use Rattle.std.specs.Prelude.{◌≡◌};
ghost use Rattle.qshare.specs.ShareFaults.{end_fault_number};

use crate::boards::Boards;
use crate::shared::Shared;
use qshare_history::{Share, StoreId};

/// Why a shared store was not ended. It gives the store and the shares back, unchanged.
#[derive(Drop)]
pub enum EndFault<S: StoreId, B: Boards<S>> {
    /// The share of this worker is not there.
    Missing {
        worker: u64,
        shared: Shared<S, B>,
        shares: Vec<Share<S>>,
    },
}

impl<S: StoreId, B: Boards<S>> EndFault<S, B> {
    /// The number under which it is known.
    pub fn number(&self) -> u32
        ensures { result ≡ end_fault_number }
    {
        match self {
            EndFault::Missing { .. } => 25,
        }
    }
}
