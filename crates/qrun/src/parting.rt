//! What workers have done, taken apart.
ghost use Rattle.std.specs.Prelude.{◌≡◌, ◌++◌, map, IfOk};
ghost use Rattle.qrun.specs.Told.{answered_of};
ghost use Rattle.qrun.specs.Watching.{looks_in, shares_in};

use crate::observer::{Look, Watch};
use qplain::NoMemory;
use qrun_replay::Answered;
use qrun_worker::Work;
use qshare_history::{Share, StoreId};
use std::alloc::Global;

/// The shares of workers, what each was answered, and what is left of their clients.
pub(crate) fn part_works<S: StoreId, L: Drop>(
    alloc: Global,
    works: Vec<Work<S, L>>,
) -> Result<(Vec<Share<S>>, Vec<Answered>, Vec<L>), NoMemory>
    ensures shares { IfOk result (λ r. r.0.items ≡ map (λ w. w.share) works.items) }
    ensures answered { IfOk result (λ r. r.1.items ≡ map answered_of works.items) }
    ensures left { IfOk result (λ r. r.2.items ≡ map (λ w. w.left) works.items) }
{
    let mut shares = Vec::with_capacity(alloc, works.len())?;
    let mut all = Vec::with_capacity(alloc, works.len())?;
    let mut rest = Vec::with_capacity(alloc, works.len())?;
    for work in works {
        let Work {
            share,
            places,
            left,
        } = work;
        let worker = share.worker();
        shares.push_reserved(share);
        all.push_reserved(Answered { worker, places });
        rest.push_reserved(left);
    }
    Ok((shares, all, rest))
}

/// The shares of all seats, that of the watcher last, and what its looks were given.
pub(crate) fn hand_in<S: StoreId>(
    alloc: Global,
    shares: Vec<Share<S>>,
    watch: Option<Watch<S>>,
) -> Result<(Vec<Share<S>>, Vec<Look>), NoMemory>
    ensures shares { IfOk result (λ r. r.0.items ≡ shares.items ++ shares_in watch) }
    ensures looks { IfOk result (λ r. r.1.items ≡ looks_in watch) }
{
    let mut shares = shares;
    match watch {
        Some(Watch { share, looks }) => {
            shares.push(share)?;
            Ok((shares, looks))
        }
        None => Ok((shares, Vec::new(alloc))),
    }
}
