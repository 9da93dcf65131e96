//! The setup: three users, two groups, and as many blocks and inodes as a store may have.
use qplain::{Cred, MAX_BLOCKS, MAX_INODES, NoMemory, Principal, Setup};
use qrules::{Graces, Limits, PrincipalName};
use std::alloc::Global;
use std::io;

const GRACES: Graces = Graces {
    block: 604_800,
    inode: 604_800,
};

/// No use passes them.
const WIDE: Limits = Limits {
    block_soft: 1 << 30,
    block_hard: 1 << 31,
    inode_soft: 1 << 20,
    inode_hard: 1 << 21,
};

/// The soft limits are passed by the second file and the second block: the graces run.
const PASSED: Limits = Limits {
    block_soft: 4,
    inode_soft: 1,
    ..WIDE
};

fn principal(alloc: Global, id: u32, name: &str, limits: Limits) -> Result<Principal, NoMemory> {
    let name = PrincipalName::new(String::from_str(alloc, name)?);
    Ok(Principal { id, name, limits })
}

pub(crate) fn setting(alloc: Global) -> io::Result<Setup> {
    let mut users = Vec::new(alloc);
    users.push(principal(alloc, 0, "root", WIDE)?)?;
    users.push(principal(alloc, 1000, "ann", PASSED)?)?;
    users.push(principal(alloc, 1001, "bob", WIDE)?)?;
    let mut groups = Vec::new(alloc);
    groups.push(principal(alloc, 0, "root", WIDE)?)?;
    groups.push(principal(alloc, 100, "staff", WIDE)?)?;
    let projects = Vec::new(alloc);
    match Setup::new(MAX_BLOCKS, MAX_INODES, GRACES, users, groups, projects) {
        Ok(setup) => Ok(setup),
        Err(_) => Err(io::Error::from(io::ErrorKind::InvalidInput)),
    }
}

fn cred(alloc: Global, uid: u32, gid: u32, more: &[u32]) -> io::Result<Cred> {
    match Cred::new(alloc, uid, gid, more)? {
        Some(cred) => Ok(cred),
        None => Err(io::Error::from(io::ErrorKind::InvalidInput)),
    }
}

/// The user with limits to pass, who is in both groups.
pub(crate) fn caller(alloc: Global) -> io::Result<Cred> {
    cred(alloc, 1000, 100, &[0])
}

/// Who passes every limit.
pub(crate) fn superuser(alloc: Global) -> io::Result<Cred> {
    cred(alloc, 0, 0, &[])
}
