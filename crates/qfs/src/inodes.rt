//! The inodes of a session.
ghost use Rattle.std.specs.Prelude.{◌≡◌, map};
ghost use Rattle.qsession.specs.Holdings.{held_in};
ghost use Rattle.qsession.specs.Tellings.{IsPutIn, UnlessMemory};
ghost use Rattle.qsession.specs.Inodes.{inode_in, inodes_in};

use qsession::{Fault, ListedInode, Session, list_inodes};
use std::alloc::Global;

/// Lists the inodes by number, and tells how many there are.
///
/// Returns 0; 64 where the session is closed, 65 for want of memory, 69 where the list has too little room.
#[unsafe(no_mangle)]
pub extern "C" fn qfs_inodes(
    alloc: Global,
    session: &mut Session,
    list: &mut [ListedInode],
    count: &mut usize,
) -> u32
    ensures rows { UnlessMemory (held_in session.old.slot.kept) result
        (IsPutIn (inodes_in (held_in session.old.slot.kept)) (map inode_in list.new) count.new result) }
    ensures same { session.new.slot.kept ≡ session.old.slot.kept }
{
    let Some(kept) = session.take(alloc) else {
        return Fault::Closed.code();
    };
    let told = match kept.store().inode_rows() {
        Ok(rows) => list_inodes(&rows, list, count),
        Err(_) => Fault::Memory.code(),
    };
    *session = Session::of(kept);
    told
}
