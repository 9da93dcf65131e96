//! Names as structs that other languages know, and a text of their bytes.
ghost use Rattle.std.specs.Prelude.{◌≡◌, ◌≤◌, ◌+◌, ◌^◌, ◌++◌, IfSome, IfNone, flat_map, length, map, take};
ghost use Rattle.qstore_tree.specs.Listed.{name_entry};
ghost use Rattle.qsession.specs.Names.{AreNamesPut, bytes_of, row_at};

use crate::fault::Fault;
use qstore::Name;

/// One name: the directory that holds it, the inode that it leads to, and where its bytes stand in the text beside the
/// list.
#[repr(C)]
#[derive(Clone, Copy, Debug)]
pub struct ListedName {
    pub dir: u64,
    pub ino: u64,
    pub at: usize,
    pub len: usize,
}

/// How many bytes these names have in all, or None where that is more than a number holds.
fn text_len(names: &[Name<'_>]) -> Option<usize>
    ensures some { IfSome result (λ len. len ≡ length (flat_map bytes_of names.now)) }
    ensures none { IfNone result (2 ^ 64 ≤ length (flat_map bytes_of names.now)) }
{
    let mut len = 0usize;
    for name in names {
        len = len.checked_add(name.text.len())?;
    }
    Some(len)
}

/// The row of a name whose bytes begin at a place of the text.
fn row_at(at: usize, name: &Name<'_>) -> ListedName
    ensures { result ≡ row_at at name.now }
{
    ListedName {
        dir: name.dir,
        ino: name.ino,
        at,
        len: name.text.len(),
    }
}

/// Puts bytes into a text that has room for them, behind those that stand before a place, and tells the next place.
fn put_at(text: &mut [u8], at: usize, bytes: &[u8]) -> usize
    requires room { at + length bytes.now ≤ length text.old }
    ensures next { result ≡ at + length bytes.now }
    ensures text { take result text.new ≡ take at text.old ++ bytes.now }
{
    let next = at + bytes.len();
    text[at..next].copy_from_slice(bytes);
    next
}

/// Puts names at the front of a list and their bytes at the front of a text, one after another, if both have room, and
/// tells in any case how many names and how many bytes there are; more bytes than a number holds are told as the
/// greatest.
///
/// Returns 0, or the number of Room.
pub fn list_names(
    names: &[Name<'_>],
    list: &mut [ListedName],
    count: &mut usize,
    text: &mut [u8],
    len: &mut usize,
) -> u32
    ensures { AreNamesPut (map name_entry names.now) list.new text.new count.new len.new result }
{
    *count = names.len();
    let Some(bytes) = text_len(names) else {
        *len = usize::MAX;
        return Fault::Room.code();
    };
    *len = bytes;
    if names.len() > list.len() || bytes > text.len() {
        return Fault::Room.code();
    }
    let mut at = 0;
    for i in 0..names.len() {
        list[i] = row_at(at, &names[i]);
        at = put_at(text, at, names[i].text.as_bytes());
    }
    0
}
