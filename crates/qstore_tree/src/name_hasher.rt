//! How the names in a directory are hashed.
use std::hash::{BuildHasher, FoldHasher, Hasher};

/// Begins the hash of each name at a number that is not known beforehand, so that names which collide cannot be
/// searched beforehand. It is no cryptographic hash.
#[derive(Clone, Copy)]
pub(crate) struct NameHasher {
    begun: FoldHasher,
}

impl NameHasher {
    /// Hashes that begin at this number.
    pub(crate) fn new(seed: u64) -> NameHasher {
        let mut begun = FoldHasher::default();
        begun.write_u64(seed);
        NameHasher { begun }
    }
}

impl BuildHasher for NameHasher {
    type Hasher = FoldHasher;

    ghost build_hasher = { λ h. h.begun };

    fn build_hasher(&self) -> FoldHasher {
        self.begun
    }
}
