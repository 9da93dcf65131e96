//! What a rename changes beside the names: the links of the directories, and what it replaces.
ghost use Rattle.std.specs.Prelude.{◌≡◌, ℕ, ◌+◌, ◌-◌, ◌<◌, ◌^◌, true, false, Some};
ghost use Rattle.std.specs.Ordering.{nat_cmp};
ghost use Rattle.std.specs.BTreeMap.{is_at};
ghost use Rattle.std.specs.Map.{lookup, remove_entry, set_value};
ghost use Rattle.qplain.specs.State.{is_dir, name_key_cmp};
ghost use Rattle.qstore_tree.specs.Tree.{HasNoNames};
ghost use Rattle.qstore_change.specs.Moves.{IsSameButLinks, moved_links};

use crate::parts::drop_link;
use qstore_tree::Tree;

/// What a name in this directory leads to, if it is there.
pub(crate) fn led_to(tree: &Tree, dir: u64, name: &str) -> Option<u64>
    requires { is_dir (lookup (is_at (nat_cmp dir)) tree.now.inodes) ≡ true }
    ensures { result ≡ lookup (is_at (name_key_cmp (dir, name.now))) tree.now.names }
{
    match tree.names_in(dir) {
        Some(names) => names.get(name),
        None => unreachable!(),
    }
}

/// Whether a directory stands at the number.
fn is_directory(tree: &Tree, number: u64) -> bool
    ensures { result ≡ is_dir (lookup (is_at (nat_cmp number)) tree.now.inodes) }
{
    tree.names_in(number).is_some()
}

/// Counts the links of the directories between which a directory moves, onto another directory or onto nothing.
fn move_links(tree: &mut Tree, dir: u64, to_dir: u64, onto: bool)
    requires from { (links : ℕ) × (lookup (is_at (nat_cmp dir)) tree.old.links ≡ Some links) × 0 < links }
    requires to { (links : ℕ) × (lookup (is_at (nat_cmp to_dir)) tree.old.links ≡ Some links)
        × links + 1 < 2 ^ 64 }
    ensures inodes { tree.new.inodes ≡ tree.old.inodes }
    ensures names { tree.new.names ≡ tree.old.names }
    ensures links { (from to : ℕ) → lookup (is_at (nat_cmp dir)) tree.old.links ≡ Some from
        → lookup (is_at (nat_cmp to_dir)) tree.old.links ≡ Some to
        → tree.new.links ≡ moved_links tree.old.links dir to_dir onto from to }
    ensures room { tree.new.room ≡ tree.old.room }
{
    if onto {
        tree.take_link(dir);
    } else if dir != to_dir {
        tree.take_link(dir);
        tree.add_link(to_dir);
    }
}

/// The same for any inode: where it is a file, no directory has other links.
pub(crate) fn move_node(tree: &mut Tree, dir: u64, to_dir: u64, number: u64, onto: bool)
    requires from { (links : ℕ) × (lookup (is_at (nat_cmp dir)) tree.old.links ≡ Some links) × 0 < links }
    requires to { (links : ℕ) × (lookup (is_at (nat_cmp to_dir)) tree.old.links ≡ Some links)
        × links + 1 < 2 ^ 64 }
    ensures rest { IsSameButLinks tree.old tree.new }
    ensures file { is_dir (lookup (is_at (nat_cmp number)) tree.old.inodes) ≡ false
        → tree.new.links ≡ tree.old.links }
    ensures directory { (from to : ℕ) → is_dir (lookup (is_at (nat_cmp number)) tree.old.inodes) ≡ true
        → lookup (is_at (nat_cmp dir)) tree.old.links ≡ Some from
        → lookup (is_at (nat_cmp to_dir)) tree.old.links ≡ Some to
        → tree.new.links ≡ moved_links tree.old.links dir to_dir onto from to }
{
    if is_directory(tree, number) {
        move_links(tree, dir, to_dir, onto);
    }
}

/// Takes one link from what a name led to, in which no name stands: a directory goes, and a file with its last link.
pub(crate) fn drop_replaced(tree: &mut Tree, number: u64)
    requires { HasNoNames tree.old number }
    ensures names { tree.new.names ≡ tree.old.names }
    ensures directory { is_dir (lookup (is_at (nat_cmp number)) tree.old.inodes) ≡ true
        → (tree.new.inodes ≡ remove_entry (is_at (nat_cmp number)) tree.old.inodes)
        × (tree.new.links ≡ remove_entry (is_at (nat_cmp number)) tree.old.links) }
    ensures last { is_dir (lookup (is_at (nat_cmp number)) tree.old.inodes) ≡ false
        → lookup (is_at (nat_cmp number)) tree.old.links ≡ Some 1
        → (tree.new.inodes ≡ remove_entry (is_at (nat_cmp number)) tree.old.inodes)
        × (tree.new.links ≡ remove_entry (is_at (nat_cmp number)) tree.old.links) }
    ensures more { (links : ℕ) → is_dir (lookup (is_at (nat_cmp number)) tree.old.inodes) ≡ false
        → lookup (is_at (nat_cmp number)) tree.old.links ≡ Some links → 1 < links
        → (tree.new.inodes ≡ tree.old.inodes)
        × (tree.new.links ≡ set_value (is_at (nat_cmp number)) tree.old.links (links - 1)) }
{
    if is_directory(tree, number) {
        tree.take_node(number);
    } else {
        drop_link(tree, number);
    }
}
