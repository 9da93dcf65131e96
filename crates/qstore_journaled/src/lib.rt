//! A store beside the setup and the state that it began with and the journal of its calls: it is always what the
//! journal leaves.
#![tactic(auto)]

pub use ended::Ended;
pub use journaled_store::JournaledStore;

mod ended;
mod entry;
mod journaled_store;
mod origin;
mod typed_call;
