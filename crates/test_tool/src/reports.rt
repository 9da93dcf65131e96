//! Reports of rows made by hand, and writers that refuse them.

use crate::short::Short;
use qaudit::report;
use qrules::{Kind, Limits, PrincipalName, RecordRow};
use std::alloc::{AllocError, Global};

/// Anné, whose name has four characters in five bytes, with 3 blocks, the limits of 8 and 16 KiB, a grace that ends at
/// 1100, and more inodes than have a place.
fn ann(alloc: Global) -> Result<RecordRow, AllocError> {
    let limits = Limits {
        block_soft: 8,
        block_hard: 16,
        ..Limits::default()
    };
    Ok(RecordRow {
        kind: Kind::User,
        id: 1000,
        name: PrincipalName::new(String::from_str(alloc, "ann\u{e9}")?),
        blocks: 3,
        inodes: 18_446_744_073_709_551_615,
        limits,
        block_end: Some(1100),
        inode_end: None,
    })
}

const TEXT: &[u8] = b"user    ann\xc3\xa9             +-         12          8         \
16         50 18446744073709551615          0          0          -\n";

/// Whether the report is written so to a writer that takes so many bytes: whole, or a beginning of that length, of
/// which the writer's refusal is told.
fn is_written(alloc: Global, rows: &[RecordRow], left: usize) -> bool {
    let mut out = Short::new(alloc, left, true);
    let is_told = match report(rows, 1050, &mut out) {
        Ok(()) => left == TEXT.len(),
        Err(fault) => left < TEXT.len() && fault.number() == 61,
    };
    is_told && out.taken.len() == left && TEXT.starts_with(out.taken.as_slice())
}

#[test]
fn a_refusing_writer_holds_a_beginning(rt: HostRuntime) -> Result<(), AllocError> {
    let rows = [ann(rt.alloc())?];
    for left in 0..TEXT.len() {
        assert!(rt; is_written(rt.alloc(), &rows, left), "at {left}");
    }
    Ok(())
}

#[test]
fn a_writer_with_just_enough_room_takes_all(rt: HostRuntime) -> Result<(), AllocError> {
    let rows = [ann(rt.alloc())?];
    assert!(rt; is_written(rt.alloc(), &rows, TEXT.len()));
    Ok(())
}
