//! Who may do what with an inode, a name or a record.
ghost use Rattle.std.specs.Prelude.{◌≡◌, ◌==◌, ◌||◌, not, Some};
ghost use Rattle.std.specs.List.{list_any};
ghost use Rattle.qplain.specs.State.{State, inode_at};
ghost use Rattle.qplain.specs.Rights.{is_member, is_own, is_same_id, may_give, may_remove, may_write, owns};
ghost use Rattle.qplain.specs.Renames.{passes};
ghost use Rattle.qstore_tree.specs.Nodes.{inode_of};
ghost use Rattle.qstore_tree.specs.TreeOf.{IsTreeOf};

use crate::walk::inode;
use qplain::{Cred, Owners};
use qrules::Kind;
use qstore_tree::{Node, Tree};

/// Whether the id is among these.
fn is_among(id: u32, ids: &[u32]) -> bool
    ensures { result ≡ list_any (λ other. other == id) ids.now }
{
    ids.iter().any(|other| *other == id)
}

/// Whether the group is one of the caller's.
fn is_member(cred: &Cred, gid: u32) -> bool
    ensures { result ≡ is_member cred.now gid }
{
    cred.gid() == gid || is_among(gid, cred.more())
}

/// Whether the record is the caller's own, or one of its groups'. No project is a caller's own.
pub fn is_own(cred: &Cred, kind: Kind, id: u32) -> bool
    ensures { result ≡ is_own cred.now kind id }
{
    match kind {
        Kind::User => cred.uid() == id,
        Kind::Group => is_member(cred, id),
        Kind::Project => false,
    }
}

/// Whether the caller may change what the inode holds: its owner and the superuser may.
pub fn may_write(cred: &Cred, node: &Node) -> bool
    ensures { result ≡ may_write cred.now (inode_of node.now) }
{
    cred.uid() == 0 || cred.uid() == node.owners.uid
}

/// Whether both are the same id, or none.
fn is_same_id(one: Option<u32>, other: Option<u32>) -> bool
    ensures { result ≡ is_same_id one other }
{
    match (one, other) {
        (None, None) => true,
        (Some(one), Some(other)) => one == other,
        _ => false,
    }
}

/// Whether the caller may give the inode these owners: the superuser may; its owner may keep itself, the project, and
/// the group or one of its own groups.
pub fn may_give(cred: &Cred, node: &Node, owners: Owners) -> bool
    ensures { result ≡ may_give cred.now (inode_of node.now) owners }
{
    cred.uid() == 0
        || cred.uid() == node.owners.uid
            && owners.uid == node.owners.uid
            && (owners.gid == node.owners.gid || is_member(cred, owners.gid))
            && is_same_id(owners.project, node.owners.project)
}

/// Whether an inode is there, and belongs to the caller.
fn owns(tree: &Tree, cred: &Cred, number: u64) -> bool
    ensures { (S : State) → IsTreeOf S tree.now → result ≡ owns cred.now (inode_at S number) }
{
    match inode(tree, number) {
        Some(node) => cred.uid() == node.owners.uid,
        None => false,
    }
}

/// Whether the caller may take a name of this inode out of the directory: the superuser may, and the owners of the
/// inode and of the directory.
pub fn may_remove(tree: &Tree, cred: &Cred, dir: u64, number: u64, node: &Node) -> bool
    ensures { (S : State) → IsTreeOf S tree.now → inode_at S number ≡ Some (inode_of node.now)
        → result ≡ may_remove S cred.now dir number }
{
    cred.uid() == 0 || cred.uid() == node.owners.uid || owns(tree, cred, dir)
}

/// Whether the caller may not take this name away, which leads to an inode of this number, or to none.
pub(crate) fn is_kept(tree: &Tree, cred: &Cred, dir: u64, leads_to: Option<u64>) -> bool
    ensures { (S : State) → IsTreeOf S tree.now
        → result ≡ passes (λ number. not (may_remove S cred.now dir number)) leads_to }
{
    match leads_to {
        Some(number) => { !(cred.uid() == 0 || owns(tree, cred, number) || owns(tree, cred, dir)) }
        None => false,
    }
}
