//! What the callers are handed: a setup, who calls, and a path.
use qplain::{Cred, NoMemory, Path, Principal, Setup};
use qrules::{Graces, Limits, PrincipalName};
use std::alloc::Global;
use std::io;

/// The graces of the setup.
pub(crate) const GRACES: Graces = Graces {
    block: 60,
    inode: 60,
};

/// At most two blocks and two inodes.
pub(crate) const FEW: Limits = Limits {
    block_soft: 0,
    block_hard: 8,
    inode_soft: 0,
    inode_hard: 2,
};

const NONE: Limits = Limits {
    block_soft: 0,
    block_hard: 0,
    inode_soft: 0,
    inode_hard: 0,
};

fn wrong() -> io::Error {
    io::Error::from(io::ErrorKind::InvalidInput)
}

fn principal(alloc: Global, id: u32, name: &str, limits: Limits) -> Result<Principal, NoMemory> {
    let name = PrincipalName::new(String::from_str(alloc, name)?);
    Ok(Principal { id, name, limits })
}

/// A store of 16 blocks and 8 inodes, for root and a builder who may have little.
pub(crate) fn setup(alloc: Global) -> io::Result<Setup> {
    let mut users = Vec::new(alloc);
    users.push(principal(alloc, 0, "root", NONE)?)?;
    users.push(principal(alloc, 1000, "builder", FEW)?)?;
    let mut groups = Vec::new(alloc);
    groups.push(principal(alloc, 0, "root", NONE)?)?;
    match Setup::new(16, 8, GRACES, users, groups, Vec::new(alloc)) {
        Ok(setup) => Ok(setup),
        Err(_) => Err(wrong()),
    }
}

/// The builder.
pub(crate) fn builder(alloc: Global) -> io::Result<Cred> {
    match Cred::new(alloc, 1000, 0, &[])? {
        Some(cred) => Ok(cred),
        None => Err(wrong()),
    }
}

/// The path of this text.
pub(crate) fn path(alloc: Global, text: &str) -> io::Result<Path> {
    match Path::new(alloc, text.as_bytes())? {
        Some(path) => Ok(path),
        None => Err(wrong()),
    }
}
