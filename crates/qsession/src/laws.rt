//! Laws, as the contracts of functions that do nothing when they run.
ghost use Rattle.std.specs.Prelude.{All};
ghost use Rattle.qplain.specs.Calls.{paths_of};
ghost use Rattle.qplain.specs.Paths.{ArePathBytes};
ghost use Rattle.qsession.specs.Answers.{ChangesAreDone, QuotasTellRecords, ReadsTellBytes, StatsTellNumbers};

use qplain::{Call, CallPaths};

/// Each call has a reply of its kind, or a refusal.
pub fn replies_are_of_their_kind()
    ensures changes { ChangesAreDone }
    ensures reads { ReadsTellBytes }
    ensures stats { StatsTellNumbers }
    ensures quotas { QuotasTellRecords }
{}

/// The paths of a call are of bytes that may stand in a path.
pub(crate) fn paths_are_good(call: &Call)
    ensures { All ArePathBytes (paths_of call.now) }
{
    match call.paths() {
        CallPaths::None => {}
        CallPaths::One(path) => {
            let _bytes = path.bytes();
        }
        CallPaths::Two(from, to) => {
            let _first = from.bytes();
            let _second = to.bytes();
        }
    }
}
