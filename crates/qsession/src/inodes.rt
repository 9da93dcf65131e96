//! Rows of inodes as structs that other languages know.
ghost use Rattle.std.specs.Prelude.{◌≡◌, map};
ghost use Rattle.qsession.specs.Tellings.{IsPut};
ghost use Rattle.qsession.specs.Inodes.{inode_in};

use crate::fault::Fault;
use qrules::InodeRow;

/// One inode: whose it is, what it uses, and how many names lead to it. A project counts where it is said to be there.
#[repr(C)]
#[derive(Clone, Copy, Debug)]
pub struct ListedInode {
    pub ino: u64,
    pub links: u64,
    pub blocks: u32,
    pub uid: u32,
    pub gid: u32,
    pub project: u32,
    pub has_project: bool,
    pub dir: bool,
}

impl ListedInode {
    /// The inode of a row.
    pub fn of(row: InodeRow) -> ListedInode
        ensures { inode_in result ≡ row }
    {
        ListedInode {
            ino: row.ino,
            links: row.links,
            blocks: row.blocks,
            uid: row.uid,
            gid: row.gid,
            project: row.project.unwrap_or(0),
            has_project: row.project.is_some(),
            dir: row.dir,
        }
    }
}

/// Puts rows of inodes at the front of a list, if it has room, and tells in any case how many there are.
///
/// Returns 0, or the number of Room.
pub fn list_inodes(rows: &[InodeRow], list: &mut [ListedInode], count: &mut usize) -> u32
    ensures { IsPut rows.now (map inode_in list.new) count.new result }
{
    *count = rows.len();
    if rows.len() > list.len() {
        return Fault::Room.code();
    }
    for i in 0..rows.len() {
        list[i] = ListedInode::of(rows[i]);
    }
    0
}
