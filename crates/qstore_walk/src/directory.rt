//! What is asked of a directory before a name comes into it, or it goes.
ghost use Rattle.std.specs.Prelude.{◌≡◌, ◌+◌, nat_lt, true, not};
ghost use Rattle.qplain.specs.Renames.{passes};
ghost use Rattle.qplain.specs.State.{State, is_directory};
ghost use Rattle.qplain.specs.Use.{is_empty, links_of};
ghost use Rattle.qstore_tree.specs.TreeOf.{IsTreeOf};

use crate::walk::inode;
use qplain::MAX_LINKS;
use qstore_tree::Tree;

/// Whether no name stands in the inode of this number. O(1).
pub fn is_empty(tree: &Tree, number: u64) -> bool
    ensures { (S : State) → IsTreeOf S tree.now → result ≡ is_empty S number }
{
    tree.has_no_names(number)
}

/// Whether a directory has as many links as an inode may have, so that no directory may come into it. O(1).
pub fn has_all_links(tree: &Tree, dir: u64) -> bool
    ensures { (S : State) → IsTreeOf S tree.now → is_directory S dir ≡ true
        → result ≡ nat_lt MAX_LINKS (links_of S dir true + 1) }
{
    match inode(tree, dir) {
        Some(node) => node.links >= MAX_LINKS,
        None => false,
    }
}

/// Whether a directory stands at the number.
fn is_directory(tree: &Tree, number: u64) -> bool
    ensures { (S : State) → IsTreeOf S tree.now → result ≡ is_directory S number }
{
    tree.names_in(number).is_some()
}

/// Whether a name leads to what is no directory.
pub(crate) fn leads_to_file(tree: &Tree, leads_to: Option<u64>) -> bool
    ensures { (S : State) → IsTreeOf S tree.now
        → result ≡ passes (λ number. not (is_directory S number)) leads_to }
{
    match leads_to {
        Some(number) => !is_directory(tree, number),
        None => false,
    }
}

/// Whether a name leads to a directory.
pub(crate) fn leads_to_directory(tree: &Tree, leads_to: Option<u64>) -> bool
    ensures { (S : State) → IsTreeOf S tree.now → result ≡ passes (λ number. is_directory S number) leads_to }
{
    match leads_to {
        Some(number) => is_directory(tree, number),
        None => false,
    }
}

/// Whether a name leads to a directory in which names stand.
pub(crate) fn leads_to_names(tree: &Tree, leads_to: Option<u64>) -> bool
    ensures { (S : State) → IsTreeOf S tree.now → result ≡ passes (λ number. not (is_empty S number)) leads_to }
{
    match leads_to {
        Some(number) => !is_empty(tree, number),
        None => false,
    }
}
