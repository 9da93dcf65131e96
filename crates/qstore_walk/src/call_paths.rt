//! What is wrong with the paths of a call.
ghost use Rattle.std.specs.Prelude.{◌≡◌, ◌∷◌, []};
ghost use Rattle.qplain.specs.Calls.{paths_of};
ghost use Rattle.qstore_walk.specs.Paths.{paths_fault};

use crate::path::fault_of;
use qplain::{Call, CallPaths, Refusal};

/// What is wrong with a path: EINVAL for its form, else ENAMETOOLONG of a component above 255 bytes, or of the whole
/// above 4095. O(bytes).
pub fn path_fault(path: &str) -> Option<Refusal>
    ensures { result ≡ paths_fault (path.now ∷ []) }
{
    fault_of(path)
}

/// What is wrong with two paths: EINVAL of either comes before ENAMETOOLONG of either.
fn fault_of_both(from: &str, to: &str) -> Option<Refusal>
    ensures { result ≡ paths_fault (from.now ∷ to.now ∷ []) }
{
    let first = fault_of(from);
    if first == Some(Refusal::EINVAL) {
        return first;
    }
    match fault_of(to) {
        Some(second) => Some(second),
        None => first,
    }
}

/// What is wrong with the paths of a call, where it has any: EINVAL of each comes before ENAMETOOLONG of each.
/// O(bytes).
#[inline(always)]
pub fn paths_fault(call: &Call) -> Option<Refusal>
    ensures { result ≡ paths_fault (paths_of call.now) }
{
    match call.paths() {
        CallPaths::None => None,
        CallPaths::One(path) => fault_of(path.text()),
        CallPaths::Two(from, to) => fault_of_both(from.text(), to.text()),
    }
}
