//! The editions of the rules and of journals.
ghost use Rattle.std.specs.Prelude.{◌≡◌, ◌≤◌};
ghost use Rattle.qblocks.specs.declared.file.TheConstants.{MAX_SIZE};
ghost use Rattle.qplain.specs.declared.bounds.TheConstants.{MAX_ENTRIES};
ghost use Rattle.qplain.specs.Editions.{file_limit_of, max_entries_of};

use crate::{FILE_LIMIT, MAX_ENTRIES, OLD_FILE_LIMIT, OLD_MAX_ENTRIES};

/// The edition of the rules that a store keeps and that a journal tells of: they differ in the largest file, in how
/// many entries a journal may have, and in whether it names projects.
#[derive(Clone, Copy, Debug, PartialEq, Eq)]
pub enum Edition {
    One,
    Two,
}

impl Edition {
    /// The largest file, in bytes; past it a call is EFBIG.
    pub fn file_limit(self) -> u64
        ensures limit { result ≡ file_limit_of self }
        ensures range { result ≤ MAX_SIZE }
    {
        match self {
            Edition::One => OLD_FILE_LIMIT,
            Edition::Two => FILE_LIMIT,
        }
    }

    /// The most entries of a journal.
    pub fn max_entries(self) -> usize
        ensures most { result ≡ max_entries_of self }
        ensures range { result ≤ MAX_ENTRIES }
    {
        match self {
            Edition::One => OLD_MAX_ENTRIES,
            Edition::Two => MAX_ENTRIES,
        }
    }
}
