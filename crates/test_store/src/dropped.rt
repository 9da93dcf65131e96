//! What was made ready and then dropped.

use crate::given::{new_store, play, script};
use qplain::{Line, NoMemory};
use qstore::Store;
use std::alloc::Global;
use std::process::Abort;

const BEFORE: &[u8] = b"\
quotafs journal 2 workers 1
1 0 0:7 create /a => done 2 blocks +0 -0 inodes +1 -0
";

const DROPPED: &[u8] = b"\
0 0:7 create /b
0 0:7 write /a 4095 78797a
0 0:7 truncate /a 1
0 0:7 chown /a - 0
0 0:7 unlink /a
0 0:7 setquota user 0 1 0 0 0
0 0:7 setgrace 1 1
";

/// Makes each call ready, and drops it. It tells whether the totals stay.
fn drop_all(store: &mut Store, lines: &[Line]) -> Result<bool, NoMemory> {
    for line in lines {
        drop(store.ready(&line.cred, line.moment, &line.call)?);
        if store.blocks() != 0 || store.inodes() != 2 {
            return Ok(false);
        }
    }
    Ok(true)
}

// The number of the dropped file and the blocks of the dropped write go to the next ones.
const AFTER: &[u8] = b"\
quotafs journal 2 workers 1
1 0 0:7 stat /a => stat 2 file 0 7 0 0 1
1 0 0:7 create /c => done 3 blocks +0 -0 inodes +1 -0
1 0 0:7 write /a 4097 7a => done 2 blocks +1 -0 inodes +0 -0
1 0 0:7 read /a 4094 9 => bytes 0000007a
1 0 0:7 setquota user 0 1 0 0 0 => done 0 blocks +0 -0 inodes +0 -0
1 0 0:7 quota user 0 => quota 1 3 1 0 0 0 100 -
";

/// Drops each call between the rows before it and those after it.
fn drop_between(
    rt: &impl Abort,
    alloc: Global,
    store: &mut Store,
    lines: &[Line],
) -> Result<(), NoMemory> {
    play(rt, alloc, store, BEFORE)?;
    assert!(rt; lines.len() == 7 && drop_all(store, lines)?);
    play(rt, alloc, store, AFTER)
}

#[test]
fn what_is_dropped_leaves_nothing(rt: HostRuntime) -> Result<(), NoMemory> {
    let lines = script(rt.alloc(), DROPPED)?;
    let mut store = new_store(rt.alloc())?;
    drop_between(&rt, rt.alloc(), &mut store, lines.lines())
}
