//! Each allocation refused in turn: the call says so, and then succeeds.

use crate::audits::{inode, records};
use crate::memory_files::{CONFIG, JOURNAL, SCRIPT};
use qaudit::{Difference, compare, recount};
use qrules::{Kind, NameRow};
use qtool::{Config, ConfigFault, FromText, Journal, Script, TextFault, TextKind};
use std::alloc::{AllocError, Global};
use std::io::Print;

/// Tells `checks/allocations` that this run has refused an allocation of the test.
fn tell_refused(rt: &impl Print) {
    let _ = println!(rt; "an allocation was refused");
}

/// A file has a block less than its user's record says, and its group has no record: a difference each.
fn audits(alloc: Global) -> Result<bool, AllocError> {
    let inodes = [inode(1, true, 0, 0, 2), inode(2, false, 7, 1, 1)];
    let records = records(alloc, &[(Kind::User, 0, 0, 1), (Kind::User, 7, 2, 1)])?;
    let counts = recount(alloc, &inodes, &[NameRow { dir: 1, ino: 2 }])?;
    let differences = compare(alloc, &counts, &records)?;
    Ok(matches!(
        differences.as_slice(),
        [Difference::Uses { .. }, Difference::NoRow { .. }]
    ))
}

/// Whether the audit comes out. Where an allocation is refused, it is made once more.
fn is_audited(rt: &impl Print, alloc: Global) -> Result<bool, AllocError> {
    match audits(alloc) {
        Ok(is_right) => Ok(is_right),
        Err(_) => {
            tell_refused(rt);
            audits(alloc)
        }
    }
}

/// Whether a script and a journal are the same each time that they are read.
fn texts(alloc: Global) -> Result<bool, TextFault> {
    let script = Script::read(alloc, SCRIPT)?;
    let journal = Journal::read(alloc, JOURNAL)?;
    let is_script = script.lines().len() == 3 && Script::read(alloc, SCRIPT)? == script;
    Ok(is_script && journal.entries().len() == 3 && Journal::read(alloc, JOURNAL)? == journal)
}

/// Whether both are read. Where an allocation is refused, which has to be the fault, they are read once more.
fn are_texts_read(rt: &impl Print, alloc: Global) -> Result<bool, TextFault> {
    let memory = TextFault {
        line: 0,
        kind: TextKind::Memory,
    };
    match texts(alloc) {
        Err(fault) if fault == memory => {
            tell_refused(rt);
            texts(alloc)
        }
        are_read => are_read,
    }
}

/// Whether a configuration is the same each time that it is read.
fn configs(alloc: Global) -> Result<bool, ConfigFault> {
    let first = Config::read(alloc, CONFIG)?;
    Ok(Config::read(alloc, CONFIG)? == first)
}

/// Whether it is read. Where an allocation is refused, which has to be the fault, it is read once more.
fn is_config_read(rt: &impl Print, alloc: Global) -> Result<bool, ConfigFault> {
    match configs(alloc) {
        Err(ConfigFault::Memory) => {
            tell_refused(rt);
            configs(alloc)
        }
        is_read => is_read,
    }
}

#[test]
fn a_refused_call_changes_nothing(rt: HostRuntime) {
    let alloc = rt.alloc();
    assert!(rt; matches!(is_audited(&rt, alloc), Ok(true)));
    assert!(rt; matches!(are_texts_read(&rt, alloc), Ok(true)));
    assert!(rt; matches!(is_config_read(&rt, alloc), Ok(true)));
}
