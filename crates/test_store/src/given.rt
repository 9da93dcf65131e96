//! What the tests begin with: stores of configurations, and rows, which are the entries of journals. A text that is not
//! read is told as want of memory.

use qplain::{Journal, NoMemory, Script};
use qstore::Store;
use qtext_config::Config;
use qtext_files::FromText;
use std::alloc::Global;
use std::process::Abort;

/// 10 blocks and 6 inodes, for user 0 and the groups 0 and 7 alone, none of whom has a limit.
const CONFIG: &str = "size = '40k'
nr_inodes = 6
block_grace = 100
inode_grace = 100
user = [{ id = 0, name = 'root' }]
group = [{ id = 0, name = 'root' }, { id = 7, name = 'staff' }]
";

/// A new store of a configuration.
pub(crate) fn store_of(alloc: Global, text: &str) -> Result<Store, NoMemory> {
    match Config::read(alloc, text) {
        Ok(config) => Store::new(alloc, config.setup, 7),
        Err(_) => Err(NoMemory),
    }
}

/// A new small store.
pub(crate) fn new_store(alloc: Global) -> Result<Store, NoMemory> {
    store_of(alloc, CONFIG)
}

/// The lines of a script.
pub(crate) fn script(alloc: Global, text: &[u8]) -> Result<Script, NoMemory> {
    match Script::read(alloc, text) {
        Ok(script) => Ok(script),
        Err(_) => Err(NoMemory),
    }
}

/// The rows of a test: calls with the replies that they are to get, as a journal tells them.
pub(crate) fn rows(alloc: Global, text: &[u8]) -> Result<Journal, NoMemory> {
    match Journal::read(alloc, text) {
        Ok(rows) => Ok(rows),
        Err(_) => Err(NoMemory),
    }
}

/// Fails where a call of a row gets another reply.
pub(crate) fn play(
    rt: &impl Abort,
    alloc: Global,
    store: &mut Store,
    text: &[u8],
) -> Result<(), NoMemory> {
    let rows = rows(alloc, text)?;
    for row in rows.entries() {
        let given = store.apply(&row.cred, row.moment, &row.call)?;
        assert!(rt; given == row.reply, "{:?}", row.call);
    }
    Ok(())
}
