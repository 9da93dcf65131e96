//! The names of a session.
ghost use Rattle.std.specs.Prelude.{◌≡◌};
ghost use Rattle.qsession.specs.Holdings.{held_in};
ghost use Rattle.qsession.specs.Tellings.{UnlessMemory};
ghost use Rattle.qsession.specs.Names.{AreNamesTold};

use qsession::{Fault, ListedName, Session, list_names};
use std::alloc::Global;

/// Lists the names by directory, then by name, beside a text of their bytes, and tells how many names and how many
/// bytes there are.
///
/// Returns 0; 64 where the session is closed, 65 for want of memory, 69 where the list or the text has too little room.
#[unsafe(no_mangle)]
pub extern "C" fn qfs_names(
    alloc: Global,
    session: &mut Session,
    list: &mut [ListedName],
    count: &mut usize,
    text: &mut [u8],
    len: &mut usize,
) -> u32
    ensures names { UnlessMemory (held_in session.old.slot.kept) result
        (AreNamesTold (held_in session.old.slot.kept) list.new text.new count.new len.new result) }
    ensures same { session.new.slot.kept ≡ session.old.slot.kept }
{
    let Some(kept) = session.take(alloc) else {
        return Fault::Closed.code();
    };
    let told = match kept.store().names() {
        Ok(names) => list_names(&names, list, count, text, len),
        Err(_) => Fault::Memory.code(),
    };
    *session = Session::of(kept);
    told
}
