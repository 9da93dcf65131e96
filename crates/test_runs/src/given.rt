//! What the tests begin with. An Err says what was wanted, where there was no memory for it.
use qplain::{Journal, Line, Script, Setup};
use qrules::Items;
use qtext_config::Config;
use qtext_files::FromText;
use std::alloc::Global;

/// Ten blocks and six inodes, and nobody has a limit.
const CONFIG: &str = "size = '40k'
nr_inodes = 6
block_grace = 100
inode_grace = 100
user = [{ id = 0, name = 'root' }, { id = 1001, name = 'bob' }]
group = [{ id = 0, name = 'root' }]
project = [{ id = 0, name = 'root' }]
";

/// The setup of a small store.
pub(crate) fn setup(alloc: Global) -> Result<Setup, &'static str> {
    match Config::read(alloc, CONFIG) {
        Ok(config) => Ok(config.setup),
        Err(_) => Err("the configuration"),
    }
}

/// A script.
pub(crate) fn script(alloc: Global, text: &[u8]) -> Result<Script, &'static str> {
    match Script::read(alloc, text) {
        Ok(script) => Ok(script),
        Err(_) => Err("the script"),
    }
}

/// The lines of a script.
pub(crate) fn lines(alloc: Global, text: &[u8]) -> Result<Items<Line>, &'static str> {
    Ok(script(alloc, text)?.into_lines())
}

/// A journal.
pub(crate) fn journal(alloc: Global, text: &[u8]) -> Result<Journal, &'static str> {
    match Journal::read(alloc, text) {
        Ok(journal) => Ok(journal),
        Err(_) => Err("the journal"),
    }
}

/// The script that makes the first three files.
pub(crate) const FIRST_FILES: &[u8] =
    b"0 1001:0 create /a\n0 1001:0 create /b\n0 1001:0 create /c\n";

/// The script that makes three others.
pub(crate) const OTHER_FILES: &[u8] =
    b"0 1001:0 create /d\n0 1001:0 create /e\n0 1001:0 create /f\n";
