//! What a call that is decided still has to do.
use crate::{NoMemory, Reply};
use qrules::Graces;
use qstore_change::TreeChange;

/// What a granted call still has to do.
#[derive(Drop)]
pub(crate) enum Plan {
    /// The reply is all.
    Nothing,
    /// Inodes or names change, and the accounts by the store's bill.
    Change { change: TreeChange },
    /// A record gets other limits, by the store's bill.
    Limits,
    /// The graces are to be these.
    SetGraces { graces: Graces },
}

/// The reply to a call that is decided, whose plan the store keeps, or out of memory, which comes after all refusals.
pub(crate) type Decision = Result<Reply, NoMemory>;
