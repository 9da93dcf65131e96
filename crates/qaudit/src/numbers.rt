//! The numbers of rows, and where each stands among them.
ghost use Rattle.std.specs.Prelude.{◌≡◌, ◌≢◌, ◌<◌, All, Contains, IfOk, IfSome, IsNone, length, slice_index};
ghost use Rattle.std.specs.List.Sorted.{IsStrictlyIncreasing};

use crate::NoMemory;
use qrules::InodeRow;
use std::alloc::Global;

/// The numbers that these rows have, ascending, each once.
pub(crate) fn numbers_of(alloc: Global, inodes: &[InodeRow]) -> Result<Vec<u64>, NoMemory>
    ensures ascending { IfOk result (λ numbers. IsStrictlyIncreasing numbers.items) }
    ensures all { IfOk result (λ numbers. All (λ row. Contains numbers.items row.ino) inodes.now) }
{
    let mut numbers = Vec::with_capacity(alloc, inodes.len())?;
    for inode in inodes {
        numbers.push(inode.ino)?;
    }
    numbers.sort_unstable();
    numbers.dedup();
    Ok(numbers)
}

/// Where a number stands among these, which ascend. O(log n), O(1) where none is missing before it.
pub(crate) fn place_of(numbers: &[u64], number: u64) -> Option<usize>
    requires { IsStrictlyIncreasing numbers.now }
    ensures there { IfSome result (λ at. at < length numbers.now) }
    ensures same { IfSome result (λ at. slice_index numbers.now at ≡ number) }
    ensures nowhere { IsNone result → All (λ n. n ≢ number) numbers.now }
{
    let first = *numbers.first()?;
    let guess = number.wrapping_sub(first) as usize;
    if guess < numbers.len() && numbers[guess] == number {
        return Some(guess);
    }
    numbers.binary_search(&number).ok()
}
