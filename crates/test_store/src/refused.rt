//! Each allocation refused in turn: the store is as before, and the same call then gets its reply.

use crate::given::{new_store, rows};
use qplain::{Entry, Journal, NoMemory, Reply};
use qrules::{InodeRow, NameRow, RecordRow};
use qstore::Store;
use std::alloc::Global;
use std::io::Print;
use std::process::Abort;

/// What each call is to be told. Those of worker 2 are made ready and then committed, which keeps what they have to
/// write. The first is the call by which `/a` is looked at.
const ROWS: &[u8] = b"\
quotafs journal 2 workers 2
1 0 0:7 stat /a => refused ENOENT
1 0 0:7 create /a => done 2 blocks +0 -0 inodes +1 -0
2 0 0:7 create /b => done 3 blocks +0 -0 inodes +1 -0
2 0 0:7 write /a 4095 7879 => done 2 blocks +2 -0 inodes +0 -0
1 0 0:7 write /b 0 7a => done 3 blocks +1 -0 inodes +0 -0
1 0 0:7 read /a 4094 9 => bytes 007879
2 0 0:7 read /b 0 9 => bytes 7a
1 0 0:7 setgrace 7 8 => done 0 blocks +0 -0 inodes +0 -0
2 0 0:7 setquota user 0 4 0 0 0 => done 0 blocks +0 -0 inodes +0 -0
1 0 0:7 quota user 0 => quota 3 3 4 0 0 0 7 -
2 0 0:7 stat /a => stat 2 file 0 7 4097 2 1
1 0 0:7 truncate /a 4096 => done 2 blocks +0 -1 inodes +0 -0
2 0 0:7 truncate /b 0 => done 3 blocks +0 -1 inodes +0 -0
1 0 0:7 chown /a - 0 => done 2 blocks +0 -0 inodes +0 -0
2 0 0:7 chown /a - 7 => done 2 blocks +0 -0 inodes +0 -0
1 0 0:7 create /c => done 4 blocks +0 -0 inodes +1 -0
2 0 0:7 create /d => done 5 blocks +0 -0 inodes +1 -0
1 0 0:7 unlink /c => done 4 blocks +0 -0 inodes +0 -1
2 0 0:7 unlink /a => done 2 blocks +0 -1 inodes +0 -1
1 0 0:7 mkdir /m => done 6 blocks +0 -0 inodes +1 -0
2 0 0:7 mkdir /n => done 7 blocks +0 -0 inodes +1 -0
1 0 0:7 link /b /a => done 3 blocks +0 -0 inodes +0 -0
2 0 0:7 link /b /m/b => done 3 blocks +0 -0 inodes +0 -0
1 0 0:7 rename /b /n/b => done 3 blocks +0 -0 inodes +0 -0
2 0 0:7 rename /d /m/b => done 5 blocks +0 -0 inodes +0 -0
";

/// Tells `checks/allocations` that this run has refused an allocation of the test.
fn tell_refused(rt: &impl Print) {
    let _ = println!(rt; "an allocation was refused");
}

/// The answer to the call of a row, made in the row's way.
fn answer(store: &mut Store, row: &Entry) -> Result<Reply, NoMemory> {
    if row.worker == 1 {
        return store.apply(&row.cred, row.moment, &row.call);
    }
    let reply = store.ready(&row.cred, row.moment, &row.call)?;
    store.commit();
    Ok(reply)
}

/// All that can be seen of a store but the bytes of its files: its totals, its rows, and `/a`.
#[derive(PartialEq, Drop)]
struct Seen {
    blocks: u64,
    inodes: u64,
    records: Vec<RecordRow>,
    inode_rows: Vec<InodeRow>,
    names: Vec<NameRow>,
    file: Reply,
}

fn look_once(store: &mut Store, stat: &Entry) -> Result<Seen, NoMemory> {
    let file = store.apply(&stat.cred, stat.moment, &stat.call)?;
    let records = store.record_rows()?;
    let inode_rows = store.inode_rows()?;
    Ok(Seen {
        blocks: store.blocks(),
        inodes: store.inodes(),
        records,
        inode_rows,
        names: store.name_rows()?,
        file,
    })
}

/// Looks at the store. Where an allocation is refused, it looks once more.
fn look(rt: &impl Print, store: &mut Store, stat: &Entry) -> Result<Seen, NoMemory> {
    match look_once(store, stat) {
        Ok(seen) => Ok(seen),
        Err(_) => {
            tell_refused(rt);
            look_once(store, stat)
        }
    }
}

/// Whether the store looks as before, also when the call of a row is made ready and dropped.
fn is_as_before(
    store: &mut Store,
    stat: &Entry,
    row: &Entry,
    before: &Seen,
) -> Result<bool, NoMemory> {
    if look_once(store, stat)? != *before {
        return Ok(false);
    }
    drop(store.ready(&row.cred, row.moment, &row.call)?);
    Ok(look_once(store, stat)? == *before)
}

/// The answer to the call of a row. Where an allocation is refused, the store is to look as before, and is asked once
/// more.
fn insist(
    rt: &(impl Abort + Print),
    store: &mut Store,
    stat: &Entry,
    row: &Entry,
) -> Result<Reply, NoMemory> {
    let before = look(rt, store, stat)?;
    match answer(store, row) {
        Ok(given) => Ok(given),
        Err(_) => {
            tell_refused(rt);
            assert!(rt; is_as_before(store, stat, row, &before)?);
            answer(store, row)
        }
    }
}

/// Fails where the call of a row gets another reply. It tells how many names there are in the end, by a list in any
/// order.
fn ask_all(
    rt: &(impl Abort + Print),
    store: &mut Store,
    rows: &[Entry],
) -> Result<usize, NoMemory> {
    if let Some(stat) = rows.first() {
        for row in rows {
            let given = insist(rt, store, stat, row)?;
            assert!(rt; given == row.reply, "{:?}", row.call);
        }
    }
    match store.name_rows_unordered() {
        Ok(names) => Ok(names.len()),
        Err(_) => {
            tell_refused(rt);
            Ok(store.name_rows_unordered()?.len())
        }
    }
}

/// A new store, and the rows.
fn begin(alloc: Global) -> Result<(Store, Journal), NoMemory> {
    let rows = rows(alloc, ROWS)?;
    Ok((new_store(alloc)?, rows))
}

#[test]
fn a_refused_call_changes_nothing(rt: HostRuntime) -> Result<(), NoMemory> {
    let (mut store, rows) = match begin(rt.alloc()) {
        Ok(begun) => begun,
        Err(_) => {
            tell_refused(&rt);
            begin(rt.alloc())?
        }
    };
    let names = ask_all(&rt, &mut store, rows.entries())?;
    assert_eq!(rt; (names, store.blocks(), store.inodes()), (5, 0, 5));
    Ok(())
}
