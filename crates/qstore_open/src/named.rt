//! The directories that have a name.
ghost use Rattle.std.specs.Prelude.{◌≡◌, ◌==◌, ◌||◌, ℕ, false, OnErr, OnOk};
ghost use Rattle.std.specs.List.{list_any};
ghost use Rattle.qstore_open.specs.Named.{is_among};

use qplain::NoMemory;
use std::alloc::Global;
use std::collections::HashSet;

/// The numbers of the directories that a name leads to.
#[derive(Drop)]
pub(crate) struct Named {
    pub(crate) numbers: HashSet<u64>,
}

impl Named {
    /// None. It takes no memory.
    pub(crate) fn new(alloc: Global) -> Self
        ensures { (number : ℕ) → is_among number result.numbers.keys ≡ false }
    {
        Named {
            numbers: HashSet::new(alloc),
        }
    }

    /// A name leads to this one.
    pub(crate) fn has(&self, number: u64) -> bool
        ensures { result ≡ is_among number self.now.numbers.keys }
    {
        self.numbers.contains(&number)
    }

    /// One more of them.
    pub(crate) fn add(&mut self, number: u64) -> Result<(), NoMemory>
        ensures ok { OnOk result ((n : ℕ) → is_among n self.new.numbers.keys
            ≡ (number == n || is_among n self.old.numbers.keys)) }
        ensures err { OnErr result ((n : ℕ) → is_among n self.new.numbers.keys ≡ is_among n self.old.numbers.keys) }
    {
        self.numbers.insert(number)?;
        Ok(())
    }
}
