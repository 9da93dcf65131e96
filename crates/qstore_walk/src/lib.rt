//! Paths, walks along the names of a tree, what calls ask of it before they change it, and whose an inode is that they
//! make or give. No question changes anything.
#![tactic(auto)]

pub use call_paths::{path_fault, paths_fault};
pub use directory::{has_all_links, is_empty};
pub use links::{FurtherName, further_name};
pub use owners::{caller_owners, renewed, root_owners};
pub use path::last_of;
pub use renames::{Renaming, find_renaming, is_its_own, rename_fault};
pub use rights::{is_own, may_give, may_remove, may_write};
pub use stats::stat_of;
pub use walk::{Found, LastComponent, find, inode, last_component};

mod call_paths;
mod directory;
mod links;
mod owners;
mod path;
mod renames;
mod rights;
mod stats;
mod walk;
