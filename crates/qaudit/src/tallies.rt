//! How often each of some numbers was met.
ghost use Rattle.std.specs.Prelude.{◌≡◌, ◌<◌, ◌≤◌, ◌+◌, ◌==◌, ◌&&◌, ◌^◌, ℕ, if◌then◌else◌, All, Contains, IfOk};
ghost use Rattle.std.specs.Prelude.{length, slice_index};
ghost use Rattle.std.specs.List.Sorted.{IsStrictlyIncreasing};

use crate::NoMemory;
use crate::numbers::place_of;
use std::alloc::Global;

/// A count of 0 for each of these numbers.
pub(crate) fn no_counts(alloc: Global, numbers: &[u64]) -> Result<Vec<u64>, NoMemory>
    ensures len { IfOk result (λ counts. length counts.items ≡ length numbers.now) }
    ensures none { IfOk result (λ counts. All (λ n. n ≡ 0) counts.items) }
{
    let mut counts = Vec::new(alloc);
    counts.resize(numbers.len(), 0)?;
    Ok(counts)
}

/// Counts a number once more, if it is one of these.
pub(crate) fn add_one(numbers: &[u64], counts: &mut [u64], number: u64)
    requires ascending { IsStrictlyIncreasing numbers.now }
    requires long { length counts.old ≡ length numbers.now }
    requires fits { (k : ℕ) → k < length counts.old → slice_index counts.old k + 1 < 2 ^ 64 }
    ensures len { length counts.new ≡ length counts.old }
    ensures counts { (k : ℕ) → k < length numbers.now → slice_index counts.new k
        ≡ slice_index counts.old k + (if number == slice_index numbers.now k then 1 else 0) }
{
    if let Some(at) = place_of(numbers, number) {
        counts[at] += 1;
    }
}

/// Counts a number once more, where it counts.
pub(crate) fn add_where(numbers: &[u64], counts: &mut [u64], number: u64, is_counted: bool)
    requires ascending { IsStrictlyIncreasing numbers.now }
    requires long { length counts.old ≡ length numbers.now }
    requires fits { (k : ℕ) → k < length counts.old → slice_index counts.old k + 1 < 2 ^ 64 }
    ensures len { length counts.new ≡ length counts.old }
    ensures counts { (k : ℕ) → k < length numbers.now → slice_index counts.new k
        ≡ slice_index counts.old k + (if number == slice_index numbers.now k && is_counted then 1 else 0) }
{
    if is_counted {
        add_one(numbers, counts, number);
    }
}

/// What is counted at a number, which is one of these.
pub(crate) fn count_at(numbers: &[u64], counts: &[u64], number: u64) -> u64
    requires ascending { IsStrictlyIncreasing numbers.now }
    requires long { length counts.now ≡ length numbers.now }
    requires there { Contains numbers.now number }
    ensures { (f : ℕ → ℕ)
        → ((k : ℕ) → k < length numbers.now → slice_index counts.now k ≡ f (slice_index numbers.now k))
        → result ≡ f number }
{
    match place_of(numbers, number) {
        Some(place) => counts[place],
        None => unreachable!(),
    }
}
