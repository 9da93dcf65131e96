//! Rows of records, of inodes and of names.

use crate::given::{new_store, play};
use qplain::NoMemory;
use qrules::{InodeRow, Kind, NameRow, RecordRow};
use qstore::Store;
use std::alloc::Global;
use std::process::Abort;

const TWO_FILES: &[u8] = b"\
quotafs journal 2 workers 1
1 0 0:7 create /b => done 2 blocks +0 -0 inodes +1 -0
1 0 0:7 create /a => done 3 blocks +0 -0 inodes +1 -0
1 0 0:7 write /b 0 78 => done 2 blocks +1 -0 inodes +0 -0
";

fn two_files(rt: &impl Abort, alloc: Global) -> Result<Store, NoMemory> {
    let mut store = new_store(alloc)?;
    play(rt, alloc, &mut store, TWO_FILES)?;
    Ok(store)
}

/// An inode of user 0 and a group.
fn inode(ino: u64, dir: bool, gid: u32, blocks: u32, links: u64) -> InodeRow {
    InodeRow {
        ino,
        dir,
        uid: 0,
        gid,
        project: None,
        blocks,
        links,
    }
}

#[test]
fn inodes_are_listed_by_number(rt: HostRuntime) -> Result<(), NoMemory> {
    let rows = two_files(&rt, rt.alloc())?.inode_rows()?;
    let wanted = [
        inode(1, true, 0, 0, 2),
        inode(2, false, 7, 1, 1),
        inode(3, false, 7, 0, 1),
    ];
    assert!(rt; rows.as_slice() == wanted.as_slice());
    Ok(())
}

/// `/a` before `/b`, both in the root.
const NAMES: [NameRow; 2] = [NameRow { dir: 1, ino: 3 }, NameRow { dir: 1, ino: 2 }];

#[test]
fn names_are_listed_by_directory_then_by_name(rt: HostRuntime) -> Result<(), NoMemory> {
    let rows = two_files(&rt, rt.alloc())?.name_rows()?;
    assert!(rt; rows.as_slice() == NAMES.as_slice());
    Ok(())
}

#[test]
fn each_name_is_listed_once_in_any_order(rt: HostRuntime) -> Result<(), NoMemory> {
    let rows = two_files(&rt, rt.alloc())?.name_rows_unordered()?;
    let [a, b] = NAMES;
    assert!(rt; rows.as_slice() == [a, b].as_slice() || rows.as_slice() == [b, a].as_slice());
    Ok(())
}

/// Whose a record is, and what they use.
fn use_of(row: Option<&RecordRow>) -> Option<(Kind, u32, u64, u64)> {
    match row {
        Some(row) => Some((row.kind, row.id, row.blocks, row.inodes)),
        None => None,
    }
}

#[test]
fn records_are_listed_by_id(rt: HostRuntime) -> Result<(), NoMemory> {
    let rows = two_files(&rt, rt.alloc())?.record_rows()?;
    let rows = rows.as_slice();
    let uses = [
        use_of(rows.get(0)),
        use_of(rows.get(1)),
        use_of(rows.get(2)),
    ];
    let wanted = [
        Some((Kind::User, 0, 1, 3)),
        Some((Kind::Group, 0, 0, 1)),
        Some((Kind::Group, 7, 1, 2)),
    ];
    assert!(rt; rows.len() == 3 && uses == wanted);
    Ok(())
}
