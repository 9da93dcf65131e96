//! Audits of rows made by hand.
ghost use Rattle.std.specs.Prelude.{◌≤◌, ◌^◌, length};

use qaudit::{compare, put_audit, recount};
use qrules::{InodeRow, Kind, Limits, NameRow, PrincipalName, RecordRow};
use std::alloc::{AllocError, Global};

/// An inode of a user and of group 0, in no project.
pub(crate) fn inode(ino: u64, dir: bool, uid: u32, blocks: u32, links: u64) -> InodeRow {
    InodeRow {
        ino,
        dir,
        uid,
        gid: 0,
        project: None,
        blocks,
        links,
    }
}

/// A record of a kind and an id, with blocks and inodes, without a name and without limits.
fn record(alloc: Global, row: (Kind, u32, u64, u64)) -> RecordRow {
    let (kind, id, blocks, inodes) = row;
    RecordRow {
        kind,
        id,
        name: PrincipalName::new(String::new(alloc)),
        blocks,
        inodes,
        limits: Limits::default(),
        block_end: None,
        inode_end: None,
    }
}

/// Such records.
pub(crate) fn records(
    alloc: Global,
    rows: &[(Kind, u32, u64, u64)],
) -> Result<Vec<RecordRow>, AllocError> {
    let mut records = Vec::new(alloc);
    for row in rows {
        records.push(record(alloc, *row))?;
    }
    Ok(records)
}

/// Whether an audit of the rows tells this; records are reported as kind, id, blocks and inodes.
fn is_told(
    alloc: Global,
    inodes: &[InodeRow],
    names: &[NameRow],
    rows: &[(Kind, u32, u64, u64)],
    wanted: &[u8],
) -> Result<bool, AllocError>
    requires few { length inodes.now ≤ 2 ^ 32 }
{
    let records = records(alloc, rows)?;
    let counts = recount(alloc, inodes, names)?;
    let differences = compare(alloc, &counts, &records)?;
    let mut text = Vec::new(alloc);
    Ok(put_audit(&mut text, &differences).is_ok() && text.as_slice() == wanted)
}

/// The name of an inode in the root.
const fn name(ino: u64) -> NameRow {
    NameRow { dir: 1, ino }
}

#[test]
fn each_difference_is_told_in_its_place(rt: HostRuntime) -> Result<(), AllocError> {
    let inodes = [inode(1, true, 0, 0, 3), inode(2, false, 1001, 2, 1)];
    let records = [
        (Kind::User, 0, 0, 1),
        (Kind::User, 1000, 0, 0),
        (Kind::User, 1001, 3, 1),
        (Kind::Group, 100, 0, 0),
    ];
    let wanted = b"audit 4\n\
user 1001 blocks 3 2 inodes 1 1\n\
group 0 no record blocks 2 inodes 2\n\
inode 1 links 3 2\n\
inode 2 links 1 2\n";
    assert!(rt; is_told(rt.alloc(), &inodes, &[name(2), name(2)], &records, wanted)?);
    Ok(())
}

// What is counted of a project without a record stands after the groups.
#[test]
fn projects_come_after_groups(rt: HostRuntime) -> Result<(), AllocError> {
    let of = |project, row| InodeRow {
        project: Some(project),
        ..row
    };
    let inodes = [
        of(0, inode(1, true, 0, 0, 3)),
        of(7, inode(2, false, 1001, 2, 1)),
    ];
    let records = [
        (Kind::User, 0, 0, 1),
        (Kind::User, 1000, 0, 0),
        (Kind::User, 1001, 3, 1),
        (Kind::Group, 100, 0, 0),
        (Kind::Project, 0, 0, 1),
    ];
    let wanted = b"audit 5\n\
user 1001 blocks 3 2 inodes 1 1\n\
group 0 no record blocks 2 inodes 2\n\
project 7 no record blocks 2 inodes 1\n\
inode 1 links 3 2\n\
inode 2 links 1 2\n";
    assert!(rt; is_told(rt.alloc(), &inodes, &[name(2), name(2)], &records, wanted)?);
    Ok(())
}

// User 0 and group 0 are two owners.
#[test]
fn an_id_stands_in_both_kinds(rt: HostRuntime) -> Result<(), AllocError> {
    let inodes = [inode(1, true, 0, 0, 2), inode(2, false, 7, 1, 1)];
    let records = [
        (Kind::User, 0, 0, 1),
        (Kind::User, 7, 1, 1),
        (Kind::Group, 0, 0, 1),
    ];
    let wanted = b"audit 1\ngroup 0 blocks 0 1 inodes 1 2\n";
    assert!(rt; is_told(rt.alloc(), &inodes, &[name(2)], &records, wanted)?);
    Ok(())
}

// The name 5 leads to no row, so it is no subdirectory; inode 2 stands twice, and each of its rows is counted.
#[test]
fn rows_may_be_missing_or_repeated(rt: HostRuntime) -> Result<(), AllocError> {
    let inodes = [
        inode(1, true, 0, 0, 3),
        inode(2, false, 0, 1, 1),
        inode(2, false, 0, 1, 2),
    ];
    let records = [(Kind::User, 0, 2, 3), (Kind::Group, 0, 2, 3)];
    let wanted = b"audit 2\ninode 1 links 3 2\ninode 2 links 2 1\n";
    assert!(rt; is_told(rt.alloc(), &inodes, &[name(5), name(2)], &records, wanted)?);
    Ok(())
}

#[test]
fn no_rows_come_to_nothing(rt: HostRuntime) -> Result<(), AllocError> {
    let wanted = b"audit 1\nuser 0 blocks 0 0 inodes 1 0\n";
    assert!(rt;
        is_told(rt.alloc(), &[], &[], &[(Kind::User, 0, 0, 1)], wanted)?
            && is_told(rt.alloc(), &[], &[], &[], b"audit ok\n")?
    );
    Ok(())
}
