//! The store: inodes, names and quota records in memory, proved to be the plain machine of `qplain`.
#![tactic(auto)]

pub(crate) use plan::{Decision, Plan};
pub use qplain::{
    Call, Change, Cred, Edition, Line, NoMemory, Path, Refusal, Reply, Setup, SetupFault,
};
pub use qstore_tree::{Content, Name, Node};
pub(crate) use request::{Exchange, Request};
pub use store::Store;

mod plan;
mod request;
mod store;
