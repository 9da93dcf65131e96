//! The parts of a change: each makes one sort of it in the tree, with the link counts.
ghost use Rattle.std.specs.Prelude.{◌≡◌, ℕ, ◌-◌, ◌<◌, false, string_bytes, Some};
ghost use Rattle.std.specs.BTreeMap.{is_at};
ghost use Rattle.std.specs.Map.{lookup, remove_entry, set_value};
ghost use Rattle.std.specs.Ordering.{nat_cmp};
ghost use Rattle.qblocks.specs.Input.{input_bytes};
ghost use Rattle.qplain.specs.State.{State, is_dir, new_directory};
ghost use Rattle.qplain.specs.Names.{created, swept, with_name, without_name};
ghost use Rattle.qplain.specs.Renames.{renamed};
ghost use Rattle.qplain_laws.specs.Laws.{IsLawful};
ghost use Rattle.qstore_tree.specs.TreeOf.{IsTreeOf};
ghost use Rattle.qstore_walk.specs.Paths.{name_in};
ghost use Rattle.qstore_change.specs.Changes.{CanCreate, CanLink, CanRename, CanRmdir, CanUnlink, CanWrite, changed};

use crate::replacement::{drop_replaced, led_to, move_node};
use crate::tree_change::TreeChange;
use qblocks::{Input, Spare};
use qplain::{Owners, Path};
use qstore_tree::{Node, Tree};
use qstore_walk::last_of;
use std::alloc::Global;

/// Writes into a file, for which room is made. It takes no memory and always succeeds.
pub fn write(tree: &mut Tree, number: u64, off: u64, input: Input, spare: Spare)
    requires { (S : State) × IsTreeOf S tree.old × CanWrite S tree.old.room number off spare (input_bytes input) }
    ensures { (S : State) → IsTreeOf S tree.old → CanWrite S tree.old.room number off spare (input_bytes input.entry)
        → IsTreeOf (changed S (TreeChange.Write number off (input_bytes input.entry) spare)) tree.new }
{
    tree.put(number, off, input, spare);
}

/// Takes one link from a file, and the file with its last one.
pub(crate) fn drop_link(tree: &mut Tree, number: u64)
    requires file { is_dir (lookup (is_at (nat_cmp number)) tree.old.inodes) ≡ false }
    ensures names { tree.new.names ≡ tree.old.names }
    ensures last { lookup (is_at (nat_cmp number)) tree.old.links ≡ Some 1
        → (tree.new.inodes ≡ remove_entry (is_at (nat_cmp number)) tree.old.inodes)
        × (tree.new.links ≡ remove_entry (is_at (nat_cmp number)) tree.old.links) }
    ensures more { (links : ℕ) → lookup (is_at (nat_cmp number)) tree.old.links ≡ Some links → 1 < links
        → (tree.new.inodes ≡ tree.old.inodes)
        × (tree.new.links ≡ set_value (is_at (nat_cmp number)) tree.old.links (links - 1)) }
{
    let links = match tree.node(number) {
        Some(node) => node.links,
        None => 0,
    };
    if links > 1 {
        tree.set_links(number, links - 1);
    } else {
        tree.take_node(number);
    }
}

/// Takes the last name of a path out of a directory, and one link from the file that it leads to.
pub(crate) fn take_name(tree: &mut Tree, dir: u64, path: &Path, number: u64)
    requires { (S : State) × IsTreeOf S tree.old × IsLawful S × CanUnlink S dir number (name_in path.now) }
    ensures { (S : State) → IsTreeOf S tree.old → IsLawful S → CanUnlink S dir number (name_in path.now)
        → IsTreeOf (swept (without_name S dir (name_in path.now))) tree.new }
{
    tree.take_name(dir, last_of(path.text()));
    drop_link(tree, number);
}

/// Puts a new directory, and counts its link to its parent.
pub(crate) fn add_directory(
    tree: &mut Tree,
    next: u64,
    alloc: Global,
    dir: u64,
    name: String,
    owners: Owners,
)
    requires { (S : State) × IsTreeOf S tree.old × (S.next ≡ next) × IsLawful S
        × CanCreate S tree.old.room dir (string_bytes name) }
    ensures { (S : State) → IsTreeOf S tree.old → S.next ≡ next → IsLawful S
        → CanCreate S tree.old.room dir (string_bytes name)
        → IsTreeOf (created S (new_directory owners) dir (string_bytes name)) tree.new }
{
    tree.add_link(dir);
    tree.add_directory(next, dir, name, owners, alloc);
}

/// Takes the last name of a path out of a directory, and the empty directory that has it, and its link to its parent.
pub(crate) fn take_directory(tree: &mut Tree, dir: u64, path: &Path, number: u64)
    requires { (S : State) × IsTreeOf S tree.old × IsLawful S × CanRmdir S dir number (name_in path.now) }
    ensures { (S : State) → IsTreeOf S tree.old → IsLawful S → CanRmdir S dir number (name_in path.now)
        → IsTreeOf (swept (without_name S dir (name_in path.now))) tree.new }
{
    tree.take_link(dir);
    tree.take_node(number);
    tree.take_name(dir, last_of(path.text()));
}

/// Gives a file a further name, and counts it.
pub(crate) fn add_name(tree: &mut Tree, dir: u64, name: String, number: u64)
    requires { (S : State) × IsTreeOf S tree.old × IsLawful S
        × CanLink S tree.old.room dir (string_bytes name) number }
    ensures { (S : State) → IsTreeOf S tree.old → IsLawful S → CanLink S tree.old.room dir (string_bytes name) number
        → IsTreeOf (with_name S dir (string_bytes name) number) tree.new }
{
    tree.put_name(dir, name, number);
    tree.add_link(number);
}

/// Gives what has the last name of the path in the directory another name, in place of what had that.
pub(crate) fn rename(
    tree: &mut Tree,
    dir: u64,
    path: &Path,
    to_dir: u64,
    to_name: String,
    number: u64,
)
    requires { (S : State) × IsTreeOf S tree.old × IsLawful S
        × CanRename S tree.old.room dir (name_in path.now) to_dir (string_bytes to_name) number }
    ensures { (S : State) → IsTreeOf S tree.old → IsLawful S
        → CanRename S tree.old.room dir (name_in path.now) to_dir (string_bytes to_name) number
        → IsTreeOf (renamed S dir (name_in path.now) to_dir (string_bytes to_name) number) tree.new }
{
    let replaced = led_to(tree, to_dir, &to_name);
    move_node(tree, dir, to_dir, number, replaced.is_some());
    tree.move_name(dir, last_of(path.text()), to_dir, to_name, number);
    if let Some(target) = replaced {
        drop_replaced(tree, target);
    }
}
