//! The allocated blocks of a file: how many there are, and where the next one is.
ghost use Rattle.std.specs.Prelude.{◌≡◌, ◌<◌, ◌^◌, IfSome};
ghost use Rattle.std.specs.List.Sorted.{IsStrictlyIncreasing};
ghost use Rattle.qblocks.specs.File.{blocks_of, next_from};

use crate::file::BlockFile;
use crate::next::next_block;

impl BlockFile {
    /// The number of allocated blocks. O(1).
    pub fn allocated(&self) -> u64
        ensures value { result ≡ blocks_of self.now.file }
        ensures distinct { IsStrictlyIncreasing self.now.file.allocated }
    {
        self.count
    }

    /// The index of the first allocated block at `from`, which may be any number, or behind it.
    ///
    /// O(log n), n being the number of allocated blocks, and once more for each 64 KiB that `ready` has made room for
    /// and no `put` has filled yet. It takes no memory.
    pub fn next_allocated(&self, from: u64) -> Option<u64>
        ensures next { result ≡ next_from from self.now.file.allocated }
        ensures small { IfSome result (λ k. k < 2 ^ 28) }
        ensures in_order { IsStrictlyIncreasing self.now.file.allocated }
    {
        next_block(&self.rows, from)
    }
}
