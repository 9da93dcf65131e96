ghost use Rattle.std.specs.Prelude.{◌≡◌};
ghost use Rattle.qrules.specs.Sort.{is_over};

/// How many KiB a block of 4096 bytes counts against a block limit.
pub const KIB_PER_BLOCK: u64 = 4;

/// The highest limit that may be set.
pub const MAX_LIMIT: u64 = 1 << 40;

/// The limits of a quota record: blocks in KiB, inodes by number. 0 is no limit, as in setquota(8).
///
/// A soft limit may stand above the hard one, and a block limit need not be a multiple of 4.
#[derive(Clone, Copy, Debug, Default, PartialEq, Eq, Hash)]
pub struct Limits {
    pub block_soft: u64,
    pub block_hard: u64,
    pub inode_soft: u64,
    pub inode_hard: u64,
}

impl Limits {
    ghost use Rattle.qrules.specs.Range.{are_limits_in_range};

    /// Whether each limit is at most `MAX_LIMIT`.
    pub fn are_in_range(&self) -> bool
        ensures { result ≡ are_limits_in_range self.now }
    {
        self.block_soft <= MAX_LIMIT
            && self.block_hard <= MAX_LIMIT
            && self.inode_soft <= MAX_LIMIT
            && self.inode_hard <= MAX_LIMIT
    }
}

/// Whether an amount, in the unit of the limit, is over it. Equal is not over.
pub(crate) fn is_over(amount: u64, limit: u64) -> bool
    ensures { result ≡ is_over amount limit }
{
    limit != 0 && amount > limit
}
