//! What a call brings beside its path and its bytes.
ghost use Rattle.std.specs.Prelude.{◌≡◌};
ghost use Rattle.qsession.specs.Requests.{limits_in, named};

use qrules::Limits;

/// The limits of a quota record: blocks in KiB, inodes by number. 0 is no limit.
#[repr(C)]
#[derive(Clone, Copy, Debug)]
pub struct NewLimits {
    pub block_soft: u64,
    pub block_hard: u64,
    pub inode_soft: u64,
    pub inode_hard: u64,
}

impl NewLimits {
    /// The same limits.
    pub fn limits(&self) -> Limits
        ensures { result ≡ limits_in self.now }
    {
        Limits {
            block_soft: self.block_soft,
            block_hard: self.block_hard,
            inode_soft: self.inode_soft,
            inode_hard: self.inode_hard,
        }
    }
}

/// The owners that an inode is to have. An id counts where it is said to be there; else that owner stays.
#[repr(C)]
#[derive(Clone, Copy, Debug)]
pub struct NewOwners {
    pub uid: u32,
    pub gid: u32,
    pub project: u32,
    pub has_uid: bool,
    pub has_gid: bool,
    pub has_project: bool,
}

impl NewOwners {
    /// The user, where one is named.
    pub fn user(&self) -> Option<u32>
        ensures { result ≡ named self.now.has_uid self.now.uid }
    {
        if self.has_uid { Some(self.uid) } else { None }
    }

    /// The group, where one is named.
    pub fn group(&self) -> Option<u32>
        ensures { result ≡ named self.now.has_gid self.now.gid }
    {
        if self.has_gid { Some(self.gid) } else { None }
    }

    /// The project, where one is named.
    pub fn project(&self) -> Option<u32>
        ensures { result ≡ named self.now.has_project self.now.project }
    {
        if self.has_project {
            Some(self.project)
        } else {
            None
        }
    }
}
