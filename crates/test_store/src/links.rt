//! Inodes with as many links as they may have.

use crate::given::{play, store_of};
use qplain::NoMemory;
use qstore::Store;
use std::alloc::Global;
use std::process::Abort;

/// As many inodes as a store may have.
const CONFIG: &str = "size = '40k'
nr_inodes = 65_536
block_grace = 100
inode_grace = 100
user = [{ id = 0, name = 'root' }]
group = [{ id = 0, name = 'root' }, { id = 7, name = 'staff' }]
";

/// How many further names a file may have beside its first.
const FURTHER_NAMES: u64 = 64_999;

/// How many directories may stand in one, which has two links without them.
const SUBDIRECTORIES: u64 = 64_998;

/// Gives the file `/a` its further names: `/0`, `/1` and so on.
fn name_often(rt: &impl Abort, alloc: Global, store: &mut Store) -> Result<(), NoMemory> {
    for k in 0..FURTHER_NAMES {
        let row = format!(in alloc;
            "quotafs journal 2 workers 1\n1 0 0:7 link /a /{k} => done 2 blocks +0 -0 inodes +0 -0\n"
        )?;
        play(rt, alloc, store, row.as_bytes())?;
    }
    Ok(())
}

/// Fills the directory `/d`: in it stand `/d/3`, `/d/4` and so on, each named by its number.
fn fill(rt: &impl Abort, alloc: Global, store: &mut Store) -> Result<(), NoMemory> {
    for n in 3..3 + SUBDIRECTORIES {
        let row = format!(in alloc;
            "quotafs journal 2 workers 1\n1 0 0:7 mkdir /d/{n} => done {n} blocks +0 -0 inodes +1 -0\n"
        )?;
        play(rt, alloc, store, row.as_bytes())?;
    }
    Ok(())
}

const FILE: &[u8] = b"\
quotafs journal 2 workers 1
1 0 0:7 create /a => done 2 blocks +0 -0 inodes +1 -0
";

// The name that is taken away makes room for another.
const NAMES: &[u8] = b"\
quotafs journal 2 workers 1
1 0 0:7 stat /a => stat 2 file 0 7 0 0 65000
1 0 0:7 link /a /b => refused EMLINK
1 0 0:7 stat /b => refused ENOENT
1 0 0:7 stat /a => stat 2 file 0 7 0 0 65000
1 0 0:7 unlink /0 => done 2 blocks +0 -0 inodes +0 -0
1 0 0:7 link /1 /b => done 2 blocks +0 -0 inodes +0 -0
1 0 0:7 link /1 /0 => refused EMLINK
";

/// Makes the file, gives it its names, and then asks for more.
fn try_names(rt: &impl Abort, alloc: Global, store: &mut Store) -> Result<(), NoMemory> {
    play(rt, alloc, store, FILE)?;
    name_often(rt, alloc, store)?;
    play(rt, alloc, store, NAMES)
}

#[test]
fn a_file_has_at_most_65000_names(rt: HostRuntime) -> Result<(), NoMemory> {
    let mut store = store_of(rt.alloc(), CONFIG)?;
    try_names(&rt, rt.alloc(), &mut store)
}

const DIRECTORY: &[u8] = b"\
quotafs journal 2 workers 1
1 0 0:7 mkdir /d => done 2 blocks +0 -0 inodes +1 -0
";

// A refused mkdir takes no number. A directory over one that is there, or under another name, adds no link.
const DIRECTORIES: &[u8] = b"\
quotafs journal 2 workers 1
1 0 0:7 stat /d => stat 2 dir 0 7 0 0 65000
1 0 0:7 mkdir /d/e => refused EMLINK
1 0 0:7 mkdir /e => done 65001 blocks +0 -0 inodes +1 -0
1 0 0:7 rename /e /d/e => refused EMLINK
1 0 0:7 stat /d/e => refused ENOENT
1 0 0:7 stat /e => stat 65001 dir 0 7 0 0 2
1 0 0:7 create /d/f => done 65002 blocks +0 -0 inodes +1 -0
1 0 0:7 rename /e /d/3 => done 65001 blocks +0 -0 inodes +0 -1
1 0 0:7 rename /d/4 /d/e => done 4 blocks +0 -0 inodes +0 -0
1 0 0:7 stat /d => stat 2 dir 0 7 0 0 65000
1 0 0:7 stat /d/3 => stat 65001 dir 0 7 0 0 2
";

/// Makes the directory, fills it, and then asks for more.
fn try_directories(rt: &impl Abort, alloc: Global, store: &mut Store) -> Result<(), NoMemory> {
    play(rt, alloc, store, DIRECTORY)?;
    fill(rt, alloc, store)?;
    play(rt, alloc, store, DIRECTORIES)
}

#[test]
fn a_directory_has_at_most_64998_directories(rt: HostRuntime) -> Result<(), NoMemory> {
    let mut store = store_of(rt.alloc(), CONFIG)?;
    try_directories(&rt, rt.alloc(), &mut store)
}
