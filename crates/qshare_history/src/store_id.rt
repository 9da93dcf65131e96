//! What a store is told from another by. A call that makes a store picks it; it exists in the proofs alone.
use std::marker::Brand;

/// Which store it is: the setting and the state that it began with, its history, and its counters, of as many parts as
/// it has seats.
pub trait StoreId {
    ghost use Rattle.qshare_history.specs.StoreIds.{Identity};

    ghost id: { Identity };
}

impl StoreId for Brand {
    ghost use Rattle.qshare_history.specs.StoreIds.{no_identity};

    ghost id = { no_identity };
}
