//! The tree of a store: its inodes by number and the names in its directories, over `qblocks` and the values of
//! `qplain`.
#![tactic(auto)]

pub use name::Name;
pub use names::Names;
pub use node::{Content, Node};
pub use tree::Tree;

mod name;
mod name_hasher;
mod names;
mod node;
mod tree;
