//! The changes of a store's inodes and names, for which all room is made: each leaves the tree of the changed state.
#![tactic(auto)]

pub use file_type::{FileType, creation, removal};
pub use parts::write;
pub use tree_change::{TreeChange, make};

mod file_type;
mod parts;
mod replacement;
mod tree_change;
