//! What an inode is (inode(7), narrowed).
ghost use Rattle.std.specs.Prelude.{◌≡◌, string_bytes};
ghost use Rattle.qplain.specs.Names.{created, swept, without_name};
ghost use Rattle.qplain.specs.State.{State};
ghost use Rattle.qstore_tree.specs.Room.{Room};
ghost use Rattle.qstore_walk.specs.Paths.{name_in};
ghost use Rattle.qstore_change.specs.Changes.{CanChange, CanCreate, changed};
ghost use Rattle.qstore_change.specs.FileTypes.{CanRemove, inode_new};

use crate::TreeChange;
use qplain::{Owners, Path};

/// A file or a directory.
#[derive(Clone, Copy)]
pub enum FileType {
    /// It has bytes.
    File,
    /// It has names.
    Directory,
}

/// The change by which a new inode comes to stand.
pub fn creation(sort: FileType, dir: u64, name: String, owners: Owners) -> TreeChange
    ensures made { (S : State) → changed S result ≡ created S (inode_new sort owners) dir (string_bytes name) }
    ensures can { (S : State) (room : Room) → CanCreate S room dir (string_bytes name)
        → CanChange S room result }
{
    match sort {
        FileType::File => TreeChange::Create { dir, name, owners },
        FileType::Directory => TreeChange::Mkdir { dir, name, owners },
    }
}

/// The change by which the last name of a path goes, and what it leads to, if that has no other.
pub fn removal(sort: FileType, dir: u64, path: Path, number: u64) -> TreeChange
    ensures made { (S : State) → changed S result ≡ swept (without_name S dir (name_in path)) }
    ensures can { (S : State) (room : Room) → CanRemove sort S dir number (name_in path)
        → CanChange S room result }
{
    match sort {
        FileType::File => TreeChange::Unlink { dir, path, number },
        FileType::Directory => TreeChange::Rmdir { dir, path, number },
    }
}
