//! Lines that a store refuses whatever its state, told by the setup alone.
ghost use Rattle.std.specs.Prelude.{◌≡◌, ◌==◌};
ghost use Rattle.std.specs.List.{list_all, list_any};
ghost use Rattle.qrules.specs.declared.kind.Kind.TheVariants.{Group};
ghost use Rattle.qplain.specs.Calls.{has_bad_number};
ghost use Rattle.qplain.specs.Known.{is_declared, is_known, is_undeclared};
ghost use Rattle.qplain.specs.State.{start};
ghost use Rattle.qtext_check.specs.Wrongs.{written_refusal};

use qplain::{Call, CallPaths, Cred, Line, MAX_DATA, Path, Principal, Refusal, Setup};
use qrules::{Graces, Kind, Limits, MAX_GRACE, MAX_LIMIT, MAX_MOMENT};
use qstore_walk::{path_fault, paths_fault};

fn has_id(principals: &[Principal], id: u32) -> bool
    ensures { result ≡ list_any (λ p. id == p.id) principals.now }
{
    principals.iter().any(|p| id == p.id)
}

/// Whether this principal is declared.
fn is_declared(setup: &Setup, kind: Kind, id: u32) -> bool
    ensures { result ≡ is_declared (start setup.now) kind id }
{
    match kind {
        Kind::User => has_id(setup.users(), id),
        Kind::Group => has_id(setup.groups(), id),
        Kind::Project => has_id(setup.projects(), id),
    }
}

fn are_groups(setup: &Setup, ids: &[u32]) -> bool
    ensures { result ≡ list_all (is_declared (start setup.now) Group) ids.now }
{
    ids.iter().all(|id| is_declared(setup, Kind::Group, *id))
}

/// Whether the caller's user and all of its groups are declared.
fn is_known(setup: &Setup, cred: &Cred) -> bool
    ensures { result ≡ is_known (start setup.now) cred.now }
{
    is_declared(setup, Kind::User, cred.uid())
        && is_declared(setup, Kind::Group, cred.gid())
        && are_groups(setup, cred.more())
}

/// Whether an owner is named that is not declared.
fn is_undeclared(setup: &Setup, kind: Kind, id: Option<u32>) -> bool
    ensures { result ≡ is_undeclared (start setup.now) kind id }
{
    match id {
        Some(id) => !is_declared(setup, kind, id),
        None => false,
    }
}

/// Whether a number of the call is outside its range, or an id that it names is not declared.
fn has_bad_number(setup: &Setup, call: &Call) -> bool
    ensures { result ≡ has_bad_number (start setup.now) call.now }
{
    match call {
        Call::Write { bytes, .. } => bytes.len() > MAX_DATA,
        Call::Read { len, .. } => *len > MAX_DATA,
        Call::Chown {
            uid,
            gid,
            project,
            ..
        } => {
            is_undeclared(setup, Kind::User, *uid)
                || is_undeclared(setup, Kind::Group, *gid)
                || is_undeclared(setup, Kind::Project, *project)
        }
        Call::SetQuota { limits, .. } => !limits.are_in_range(),
        Call::SetGrace { graces } => !graces.are_in_range(),
        _ => false,
    }
}

/// The refusal of a line for what is written in it: the moment, the caller, the paths and the numbers, and of
/// principals whether they are declared (profile).
pub(crate) fn written_refusal(setup: &Setup, line: &Line) -> Option<Refusal>
    ensures { result ≡ written_refusal setup.now line.now }
{
    if line.moment > MAX_MOMENT || !is_known(setup, &line.cred) {
        return Some(Refusal::EINVAL);
    }
    if has_bad_number(setup, &line.call) {
        return Some(Refusal::EINVAL);
    }
    paths_fault(&line.call)
}

/// Which of two paths is refused so: the first, unless it is not.
fn path_word(from: &Path, refusal: Refusal) -> usize {
    if path_fault(from.text()) == Some(refusal) {
        3
    } else {
        4
    }
}

fn owner_word(setup: &Setup, uid: Option<u32>, gid: Option<u32>) -> usize {
    if is_undeclared(setup, Kind::User, uid) {
        4
    } else if is_undeclared(setup, Kind::Group, gid) {
        5
    } else {
        6
    }
}

fn limit_word(limits: &Limits) -> usize {
    if limits.block_soft > MAX_LIMIT {
        5
    } else if limits.block_hard > MAX_LIMIT {
        6
    } else if limits.inode_soft > MAX_LIMIT {
        7
    } else {
        8
    }
}

fn grace_word(graces: Graces) -> usize {
    if 1 <= graces.block && graces.block <= MAX_GRACE {
        4
    } else {
        3
    }
}

/// Which word of the line of a call with a bad number that is.
fn number_word(setup: &Setup, call: &Call) -> usize {
    match call {
        Call::Chown { uid, gid, .. } => owner_word(setup, *uid, *gid),
        Call::SetQuota { limits, .. } => limit_word(limits),
        Call::SetGrace { graces } => grace_word(*graces),
        _ => 5,
    }
}

/// Which word of the line is the one for which it is refused so, from 0.
pub(crate) fn refused_word(setup: &Setup, line: &Line, refusal: Refusal) -> usize {
    if line.moment > MAX_MOMENT {
        return 0;
    }
    if !is_known(setup, &line.cred) {
        return 1;
    }
    if has_bad_number(setup, &line.call) {
        return number_word(setup, &line.call);
    }
    match line.call.paths() {
        CallPaths::Two(from, _) => path_word(from, refusal),
        _ => 3,
    }
}
