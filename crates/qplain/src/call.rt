//! What is asked of a store.
ghost use Rattle.std.specs.Prelude.{◌≡◌, IfOk};
ghost use Rattle.qplain.specs.Calls.{listed, paths_of};

use crate::{Data, NoMemory, Path};
use qrules::{Graces, Kind, Limits};

/// What is asked of the store. Offsets, sizes and lengths are in bytes, and the store judges them, whatever they are.
#[derive(Debug, PartialEq, Eq, Drop)]
pub enum Call {
    /// Makes an empty file.
    Create {
        path: Path,
    },
    /// Makes an empty directory of the caller's, which takes one inode and no block. EEXIST, which the root is too,
    /// comes before EMLINK of the directory that it stands in, and that before ENOSPC and EDQUOT (mkdir(2)).
    Mkdir {
        path: Path,
    },
    /// Writes the bytes at the offset, all of them or none.
    Write {
        path: Path,
        off: u64,
        bytes: Data,
    },
    /// Sets a file's size, in bytes, at most the file limit. Below the old size the blocks at and past the new one are
    /// freed; above it the file grows by a hole, which takes none. EISDIR comes before EACCES, and that before EFBIG
    /// (truncate(2)).
    Truncate {
        path: Path,
        size: u64,
    },
    /// Reads up to `len` bytes from the offset on.
    Read {
        path: Path,
        off: u64,
        len: u64,
    },
    /// Asks for an inode's numbers.
    Stat {
        path: Path,
    },
    /// Gives a file a further name, which takes nothing. `from` is walked before `to`; EPERM of a directory comes
    /// before EEXIST of the new name, which the root has before all, and that before EMLINK (link(2)).
    Link {
        from: Path,
        to: Path,
    },
    /// Takes a file's name away, and with its last name the file and all that it takes. ENOENT comes before EISDIR,
    /// which the root is too, and that before EPERM (unlink(2)).
    Unlink {
        path: Path,
    },
    /// Takes an empty directory away. EBUSY of the root comes before ENOENT, and ENOTDIR, EPERM and ENOTEMPTY come
    /// after it in this order (rmdir(2)).
    Rmdir {
        path: Path,
    },
    /// Gives what has the name `from` the name `to`, in place of what had that, which goes as by unlink or rmdir.
    /// `from` is walked before `to`, and EBUSY of the root and ENOENT come with each walk. Two names of one inode are
    /// done, and stay. Then come EINVAL of a directory into itself, ENOTDIR, EISDIR, EPERM for `from`, EPERM for what
    /// is replaced, ENOTEMPTY and EMLINK (rename(2)).
    Rename {
        from: Path,
        to: Path,
    },
    /// Gives an inode another user, group or project; what is None stays. An id that is not declared is EINVAL, before
    /// the path is looked up, and EPERM comes before EDQUOT (chown(2)).
    Chown {
        path: Path,
        uid: Option<u32>,
        gid: Option<u32>,
        project: Option<u32>,
    },
    /// Sets the limits of a user, group or project, and computes its grace ends anew.
    SetQuota {
        kind: Kind,
        id: u32,
        limits: Limits,
    },
    /// Sets the graces, in seconds. No end that stands moves.
    SetGrace {
        graces: Graces,
    },
    /// Asks for a quota record.
    Quota {
        kind: Kind,
        id: u32,
    },
}

/// The paths of a call, in their order.
#[derive(Clone, Copy, Debug)]
pub enum CallPaths<'a> {
    None,
    One(&'a Path),
    Two(&'a Path, &'a Path),
}

impl Call {
    /// Its paths, in their order.
    #[inline(always)]
    pub fn paths(&self) -> CallPaths<'_>
        ensures { listed result ≡ paths_of self.now }
    {
        match self {
            Call::Create { path }
            | Call::Mkdir { path }
            | Call::Write { path, .. }
            | Call::Truncate { path, .. }
            | Call::Read { path, .. }
            | Call::Stat { path }
            | Call::Unlink { path }
            | Call::Rmdir { path }
            | Call::Chown { path, .. } => CallPaths::One(path),
            Call::Link { from, to } | Call::Rename { from, to } => CallPaths::Two(from, to),
            Call::SetQuota { .. } | Call::SetGrace { .. } | Call::Quota { .. } => CallPaths::None,
        }
    }

    /// An equal call, which shares its path and its bytes. No memory is taken: an Err says that they have 2^63 owners.
    pub fn copy(&self) -> Result<Self, NoMemory>
        ensures { IfOk result (λ copy. copy ≡ self.now) }
    {
        match self {
            Call::Create { path } => Ok(Call::Create { path: path.copy()? }),
            Call::Mkdir { path } => Ok(Call::Mkdir { path: path.copy()? }),
            Call::Write { path, off, bytes } => Ok(Call::Write {
                path: path.copy()?,
                off: *off,
                bytes: bytes.copy()?,
            }),
            Call::Truncate { path, size } => Ok(Call::Truncate {
                path: path.copy()?,
                size: *size,
            }),
            Call::Read { path, off, len } => Ok(Call::Read {
                path: path.copy()?,
                off: *off,
                len: *len,
            }),
            Call::Stat { path } => Ok(Call::Stat { path: path.copy()? }),
            Call::Link { from, to } => Ok(Call::Link {
                from: from.copy()?,
                to: to.copy()?,
            }),
            Call::Unlink { path } => Ok(Call::Unlink { path: path.copy()? }),
            Call::Rmdir { path } => Ok(Call::Rmdir { path: path.copy()? }),
            Call::Rename { from, to } => Ok(Call::Rename {
                from: from.copy()?,
                to: to.copy()?,
            }),
            Call::Chown {
                path,
                uid,
                gid,
                project,
            } => Ok(Call::Chown {
                path: path.copy()?,
                uid: *uid,
                gid: *gid,
                project: *project,
            }),
            Call::SetQuota { kind, id, limits } => Ok(Call::SetQuota {
                kind: *kind,
                id: *id,
                limits: *limits,
            }),
            Call::SetGrace { graces } => Ok(Call::SetGrace { graces: *graces }),
            Call::Quota { kind, id } => Ok(Call::Quota {
                kind: *kind,
                id: *id,
            }),
        }
    }
}
