//! The moments of calls on a store that a clock rules.
ghost use Rattle.std.specs.Prelude.{◌≡◌, ◌≤◌, true, All};
ghost use Rattle.qshare_history.specs.Moments.{IsGiven, NeverFalls};

use qplain::Entry;
use qstore_journaled::JournaledStore;

/// This moment, or that of the last entry if it is later. Most stores have no clock, so it is out of line.
#[cold]
#[inline(never)]
#[tactic(auto, using(crate::proofs::Moments::last_is_latest))]
fn not_before_last(entries: &[Entry], told: u64) -> u64
    requires moments { NeverFalls entries.now }
    ensures later { told ≤ result }
    ensures latest { All (λ e. e.moment ≤ result) entries.now }
{
    match entries.last() {
        Some(last) => told.max(last.moment),
        None => told,
    }
}

/// The moment with which a call is journaled: the one that it tells, or, where a clock rules the store, that of the
/// last entry if it is later. It is asked for under the lock, so no other worker's call comes between.
#[inline(always)]
pub(crate) fn given_moment(clocked: bool, store: &JournaledStore, told: u64) -> u64
    requires moments { clocked ≡ true → NeverFalls store.now.journal }
    ensures given { IsGiven clocked told result }
    ensures latest { clocked ≡ true → All (λ e. e.moment ≤ result) store.now.journal }
{
    if clocked {
        not_before_last(store.entries(), told)
    } else {
        told
    }
}
