//! A change of inodes and names, and how it is made.
ghost use Rattle.std.specs.Prelude.{◌≡◌};
ghost use Rattle.qplain.specs.State.{State};
ghost use Rattle.qplain_laws.specs.Laws.{IsLawful};
ghost use Rattle.qstore_tree.specs.TreeOf.{IsTreeOf};
ghost use Rattle.qstore_change.specs.Changes.{CanChange, changed};

use crate::parts::{add_directory, add_name, rename, take_directory, take_name, write};
use qblocks::Spare;
use qplain::{Data, Owners, Path};
use qstore_tree::Tree;
use std::alloc::Global;
use std::mem::replace;

/// A change of inodes and names, for which all room is made.
#[derive(Drop)]
pub enum TreeChange {
    /// An empty file is to stand in the directory.
    Create {
        dir: u64,
        name: String,
        owners: Owners,
    },
    /// An empty directory is to stand in the directory.
    Mkdir {
        dir: u64,
        name: String,
        owners: Owners,
    },
    /// These bytes are to be written, which the call shares.
    Write {
        number: u64,
        off: u64,
        bytes: Data,
        spare: Spare,
    },
    /// A file is to have another size.
    Truncate {
        number: u64,
        size: u64,
    },
    /// The last name of the path is to go out of the directory, and the file with it, if it has no other.
    Unlink {
        dir: u64,
        path: Path,
        number: u64,
    },
    /// The last name of the path is to go out of the directory, and the empty directory that has it.
    Rmdir {
        dir: u64,
        path: Path,
        number: u64,
    },
    /// A file gets a further name.
    Link {
        dir: u64,
        name: String,
        number: u64,
    },
    /// The last name of the path is to go out of the directory, and what has it gets another name, in place of what
    /// had that.
    Rename {
        dir: u64,
        path: Path,
        to_dir: u64,
        to_name: String,
        number: u64,
    },
    /// An inode gets other owners.
    Chown {
        number: u64,
        owners: Owners,
    },
}

/// Makes a change of inodes and names in a tree, and gives the number of the next inode.
///
/// It takes no memory and always succeeds: all room is made beforehand, and `alloc` is what a new directory keeps for
/// its later growth. A name and blocks that come to stand in the tree are taken out of the change, where it stands, so
/// that it is not moved. What a use of blocks or inodes comes to is not its business.
pub fn make(tree: &mut Tree, next: u64, alloc: Global, change: &mut TreeChange) -> u64
    requires can { (S : State) × IsTreeOf S tree.old × (S.next ≡ next) × IsLawful S
        × CanChange S tree.old.room change.old }
    ensures tree { (S : State) → IsTreeOf S tree.old → S.next ≡ next → IsLawful S
        → CanChange S tree.old.room change.old → IsTreeOf (changed S change.old) tree.new }
    ensures next { (S : State) → S.next ≡ next → CanChange S tree.old.room change.old
        → (changed S change.old).next ≡ result }
{
    match change {
        TreeChange::Create { dir, name, owners } => {
            let name = replace(name, String::new(alloc));
            tree.add_file(next, *dir, name, *owners, alloc);
            return next + 1;
        }
        TreeChange::Write {
            number,
            off,
            bytes,
            spare,
        } => {
            let spare = replace(spare, Spare::none(alloc));
            write(tree, *number, *off, bytes.input(), spare);
        }
        TreeChange::Truncate { number, size } => {
            tree.truncate(*number, *size);
        }
        TreeChange::Mkdir { dir, name, owners } => {
            let name = replace(name, String::new(alloc));
            add_directory(tree, next, alloc, *dir, name, *owners);
            return next + 1;
        }
        TreeChange::Unlink { dir, path, number } => take_name(tree, *dir, path, *number),
        TreeChange::Rmdir { dir, path, number } => take_directory(tree, *dir, path, *number),
        TreeChange::Link { dir, name, number } => {
            let name = replace(name, String::new(alloc));
            add_name(tree, *dir, name, *number);
        }
        TreeChange::Rename {
            dir,
            path,
            to_dir,
            to_name,
            number,
        } => {
            let to_name = replace(to_name, String::new(alloc));
            rename(tree, *dir, path, *to_dir, to_name, *number);
        }
        TreeChange::Chown { number, owners } => tree.set_owners(*number, *owners),
    }
    next
}
