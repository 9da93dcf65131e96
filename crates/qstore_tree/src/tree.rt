//! All inodes of a store, and in its directories the names that lead to them.
ghost use Rattle.std.specs.Prelude.{◌≡◌, ℕ, [], ◌∷◌, List, None, Some, All, ◌==◌, is_some, not, option_copied, IfOk};
ghost use Rattle.std.specs.Prelude.{IfSome};
ghost use Rattle.std.specs.List.{list_any};
ghost use Rattle.std.specs.Option.{option_map};
ghost use Rattle.std.specs.Ordering.{nat_cmp};
ghost use Rattle.std.specs.Cmp.Lexicographic.{slice_cmp};
ghost use Rattle.std.specs.BTreeMap.{is_at};
ghost use Rattle.std.specs.Map.{lookup};
ghost use Rattle.qplain.specs.State.{is_dir, name_key_cmp, new_directory};
ghost use Rattle.qstore_tree.specs.Nodes.{inode_of, names_in};

use crate::names::Names;
use crate::node::Node;
use qplain::{NoMemory, Owners, ROOT};
use std::alloc::Global;
use std::collections::HashMap;
use std::marker::Model;

mod links;
mod open;
mod put;
mod rows;
mod take;

/// The inodes by number, and where the hashes of the names in a directory begin.
///
/// Contracts see inodes, names and link counts in order, and beside them the room, and nothing of the hashes.
#[derive(Drop)]
pub struct Tree {
    nodes: HashMap<u64, Node>,
    seed: u64,
}

impl Model for Tree {
    ghost use Rattle.qstore_tree.specs.Tree.{RoomyTree};

    ghost Value = { RoomyTree };

    ghost use Rattle.std.specs.HashMap.{spare};
    ghost use Rattle.qstore_tree.specs.Tree.{tree_of};

    ghost view = { λ t. tree_of t.nodes.entries (spare t.nodes) };
}

impl Tree {
    /// The root directory, of these owners, with no name in it.
    pub fn new(alloc: Global, seed: u64, owners: Owners) -> Result<Tree, NoMemory>
        ensures inodes { IfOk result (λ t. t.inodes ≡ (ROOT, new_directory owners) ∷ []) }
        ensures names { IfOk result (λ t. t.names ≡ []) }
        ensures links { IfOk result (λ t. t.links ≡ (ROOT, 2) ∷ []) }
    {
        let mut nodes = HashMap::new(alloc);
        nodes.insert(ROOT, Node::new_directory(alloc, seed, owners))?;
        Ok(Tree { nodes, seed })
    }

    /// The inode of this number.
    pub fn node(&self, number: u64) -> Option<&Node>
        ensures inode { option_map inode_of (option_copied result)
            ≡ lookup (is_at (nat_cmp number)) self.now.inodes }
        ensures links { option_map (λ n. n.links) (option_copied result)
            ≡ lookup (is_at (nat_cmp number)) self.now.links }
        ensures names { IfSome result (λ n. (name : List ℕ)
            → lookup (is_at (slice_cmp nat_cmp name)) (names_in n.now.content)
            ≡ lookup (is_at (name_key_cmp (number, name))) self.now.names) }
    {
        self.nodes.get(&number)
    }

    /// The names in this directory, if it is one.
    pub fn names_in(&self, dir: u64) -> Option<&Names>
        ensures directory { is_some result ≡ is_dir (lookup (is_at (nat_cmp dir)) self.now.inodes) }
        ensures names { IfSome result (λ names. (name : List ℕ)
            → lookup (is_at (slice_cmp nat_cmp name)) names.now.entries
            ≡ lookup (is_at (name_key_cmp (dir, name))) self.now.names) }
    {
        match self.nodes.get(&dir) {
            Some(node) => node.names(),
            None => None,
        }
    }
    /// No name stands in the inode of this number; in a file there is none. O(1).
    pub fn has_no_names(&self, number: u64) -> bool
        ensures { result ≡ not (list_any (λ e. e.0.0 == number) self.now.names) }
    {
        match self.nodes.get(&number) {
            Some(node) => node.has_no_names(),
            None => true,
        }
    }
}
