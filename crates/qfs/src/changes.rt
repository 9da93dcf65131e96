//! Calls that change the store.
#![tactic(auto, using(qsession::proofs::Calling::told_of_paths))]

ghost use Rattle.std.specs.Prelude.{◌≡◌, ◌<◌, ◌≤◌, replicate};
ghost use Rattle.qplain.specs.declared.call.Call.TheVariants.{Create, Mkdir, Write, Truncate, Link, Unlink, Rmdir};
ghost use Rattle.qplain.specs.declared.call.Call.TheVariants.{Rename, SetQuota, SetGrace};
ghost use Rattle.qsession.specs.Called.{IsCalled, IsReplyTo, IsToldNoKind};
ghost use Rattle.qsession.specs.Holdings.{held_in};
ghost use Rattle.qsession.specs.Replies.{done_in};
ghost use Rattle.qsession.specs.Requests.{chown_by, kind_in, limits_in, line_by};

use qblocks::Input;
use qplain::Call;
use qrules::Graces;
use qsession::{
    Action, Caller, Context, DoneReply, NewLimits, NewOwners, Session, kind_of, path_of,
};
use std::alloc::Global;

/// Makes an empty file.
#[unsafe(no_mangle)]
pub extern "C" fn qfs_create(
    alloc: Global,
    session: &mut Session,
    caller: &Caller,
    moment: u64,
    path: &[u8],
    done: &mut DoneReply,
) -> u32
    ensures called { IsCalled (held_in session.old.slot.kept) (held_in session.new.slot.kept)
        caller.now moment (Create path.now) result }
    ensures done { result ≡ 0 → IsReplyTo (held_in session.old.slot.kept)
        (line_by caller.now moment (Create path.now)) (done_in done.new) }
{
    let context = Context { caller, moment };
    session.change_at(alloc, context, path, Action::Create, done)
}

/// Makes an empty directory.
#[unsafe(no_mangle)]
pub extern "C" fn qfs_mkdir(
    alloc: Global,
    session: &mut Session,
    caller: &Caller,
    moment: u64,
    path: &[u8],
    done: &mut DoneReply,
) -> u32
    ensures called { IsCalled (held_in session.old.slot.kept) (held_in session.new.slot.kept)
        caller.now moment (Mkdir path.now) result }
    ensures done { result ≡ 0 → IsReplyTo (held_in session.old.slot.kept)
        (line_by caller.now moment (Mkdir path.now)) (done_in done.new) }
{
    let context = Context { caller, moment };
    session.change_at(alloc, context, path, Action::Mkdir, done)
}

/// Writes all of the bytes at the offset, or none.
#[unsafe(no_mangle)]
pub extern "C" fn qfs_write(
    alloc: Global,
    session: &mut Session,
    caller: &Caller,
    moment: u64,
    path: &[u8],
    off: u64,
    bytes: &[u8],
    done: &mut DoneReply,
) -> u32
    ensures called { IsCalled (held_in session.old.slot.kept) (held_in session.new.slot.kept)
        caller.now moment (Write path.now off bytes.now) result }
    ensures done { result ≡ 0 → IsReplyTo (held_in session.old.slot.kept)
        (line_by caller.now moment (Write path.now off bytes.now)) (done_in done.new) }
{
    let context = Context { caller, moment };
    let bytes = Input::Bytes(bytes);
    session.change_at(alloc, context, path, Action::Write { off, bytes }, done)
}

/// Writes so many equal bytes at the offset, or none.
#[unsafe(no_mangle)]
pub extern "C" fn qfs_fill(
    alloc: Global,
    session: &mut Session,
    caller: &Caller,
    moment: u64,
    path: &[u8],
    off: u64,
    count: u64,
    byte: u8,
    done: &mut DoneReply,
) -> u32
    ensures called { IsCalled (held_in session.old.slot.kept) (held_in session.new.slot.kept)
        caller.now moment (Write path.now off (replicate count byte)) result }
    ensures done { result ≡ 0 → IsReplyTo (held_in session.old.slot.kept)
        (line_by caller.now moment (Write path.now off (replicate count byte))) (done_in done.new) }
{
    let context = Context { caller, moment };
    let bytes = Input::Fill { count, byte };
    session.change_at(alloc, context, path, Action::Write { off, bytes }, done)
}

/// Sets a file's size, in bytes.
#[unsafe(no_mangle)]
pub extern "C" fn qfs_truncate(
    alloc: Global,
    session: &mut Session,
    caller: &Caller,
    moment: u64,
    path: &[u8],
    size: u64,
    done: &mut DoneReply,
) -> u32
    ensures called { IsCalled (held_in session.old.slot.kept) (held_in session.new.slot.kept)
        caller.now moment (Truncate path.now size) result }
    ensures done { result ≡ 0 → IsReplyTo (held_in session.old.slot.kept)
        (line_by caller.now moment (Truncate path.now size)) (done_in done.new) }
{
    let path = match path_of(alloc, path) {
        Ok(path) => path,
        Err(fault) => return fault.code(),
    };
    let call = Call::Truncate { path, size };
    session.change(alloc, Context { caller, moment }, &call, done)
}

/// Gives a file a further name.
#[unsafe(no_mangle)]
pub extern "C" fn qfs_link(
    alloc: Global,
    session: &mut Session,
    caller: &Caller,
    moment: u64,
    from: &[u8],
    to: &[u8],
    done: &mut DoneReply,
) -> u32
    ensures called { IsCalled (held_in session.old.slot.kept) (held_in session.new.slot.kept)
        caller.now moment (Link from.now to.now) result }
    ensures done { result ≡ 0 → IsReplyTo (held_in session.old.slot.kept)
        (line_by caller.now moment (Link from.now to.now)) (done_in done.new) }
{
    let from = match path_of(alloc, from) {
        Ok(from) => from,
        Err(fault) => return fault.code(),
    };
    let to = match path_of(alloc, to) {
        Ok(to) => to,
        Err(fault) => return fault.code(),
    };
    let call = Call::Link { from, to };
    session.change(alloc, Context { caller, moment }, &call, done)
}

/// Takes a file's name away.
#[unsafe(no_mangle)]
pub extern "C" fn qfs_unlink(
    alloc: Global,
    session: &mut Session,
    caller: &Caller,
    moment: u64,
    path: &[u8],
    done: &mut DoneReply,
) -> u32
    ensures called { IsCalled (held_in session.old.slot.kept) (held_in session.new.slot.kept)
        caller.now moment (Unlink path.now) result }
    ensures done { result ≡ 0 → IsReplyTo (held_in session.old.slot.kept)
        (line_by caller.now moment (Unlink path.now)) (done_in done.new) }
{
    let path = match path_of(alloc, path) {
        Ok(path) => path,
        Err(fault) => return fault.code(),
    };
    let call = Call::Unlink { path };
    session.change(alloc, Context { caller, moment }, &call, done)
}

/// Takes an empty directory away.
#[unsafe(no_mangle)]
pub extern "C" fn qfs_rmdir(
    alloc: Global,
    session: &mut Session,
    caller: &Caller,
    moment: u64,
    path: &[u8],
    done: &mut DoneReply,
) -> u32
    ensures called { IsCalled (held_in session.old.slot.kept) (held_in session.new.slot.kept)
        caller.now moment (Rmdir path.now) result }
    ensures done { result ≡ 0 → IsReplyTo (held_in session.old.slot.kept)
        (line_by caller.now moment (Rmdir path.now)) (done_in done.new) }
{
    let path = match path_of(alloc, path) {
        Ok(path) => path,
        Err(fault) => return fault.code(),
    };
    let call = Call::Rmdir { path };
    session.change(alloc, Context { caller, moment }, &call, done)
}

/// Gives what has one name another.
#[unsafe(no_mangle)]
pub extern "C" fn qfs_rename(
    alloc: Global,
    session: &mut Session,
    caller: &Caller,
    moment: u64,
    from: &[u8],
    to: &[u8],
    done: &mut DoneReply,
) -> u32
    ensures called { IsCalled (held_in session.old.slot.kept) (held_in session.new.slot.kept)
        caller.now moment (Rename from.now to.now) result }
    ensures done { result ≡ 0 → IsReplyTo (held_in session.old.slot.kept)
        (line_by caller.now moment (Rename from.now to.now)) (done_in done.new) }
{
    let from = match path_of(alloc, from) {
        Ok(from) => from,
        Err(fault) => return fault.code(),
    };
    let to = match path_of(alloc, to) {
        Ok(to) => to,
        Err(fault) => return fault.code(),
    };
    let call = Call::Rename { from, to };
    session.change(alloc, Context { caller, moment }, &call, done)
}

/// Gives an inode another user, group or project.
#[unsafe(no_mangle)]
pub extern "C" fn qfs_chown(
    alloc: Global,
    session: &mut Session,
    caller: &Caller,
    moment: u64,
    path: &[u8],
    owners: &NewOwners,
    done: &mut DoneReply,
) -> u32
    ensures called { IsCalled (held_in session.old.slot.kept) (held_in session.new.slot.kept)
        caller.now moment (chown_by path.now owners.now) result }
    ensures done { result ≡ 0 → IsReplyTo (held_in session.old.slot.kept)
        (line_by caller.now moment (chown_by path.now owners.now)) (done_in done.new) }
{
    let path = match path_of(alloc, path) {
        Ok(path) => path,
        Err(fault) => return fault.code(),
    };
    let call = Call::Chown {
        path,
        uid: owners.user(),
        gid: owners.group(),
        project: owners.project(),
    };
    session.change(alloc, Context { caller, moment }, &call, done)
}

/// Sets the limits of a user, a group or a project: of kind 0, 1 or 2.
#[unsafe(no_mangle)]
pub extern "C" fn qfs_setquota(
    alloc: Global,
    session: &mut Session,
    caller: &Caller,
    moment: u64,
    kind: u32,
    id: u32,
    limits: &NewLimits,
    done: &mut DoneReply,
) -> u32
    ensures kind { 2 < kind → IsToldNoKind (held_in session.old.slot.kept) (held_in session.new.slot.kept) result }
    ensures called { kind ≤ 2 → IsCalled (held_in session.old.slot.kept) (held_in session.new.slot.kept)
        caller.now moment (SetQuota (kind_in kind) id (limits_in limits.now)) result }
    ensures done { result ≡ 0 → IsReplyTo (held_in session.old.slot.kept)
        (line_by caller.now moment (SetQuota (kind_in kind) id (limits_in limits.now))) (done_in done.new) }
{
    let kind = match kind_of(kind) {
        Ok(kind) => kind,
        Err(fault) => return fault.code(),
    };
    let call = Call::SetQuota {
        kind,
        id,
        limits: limits.limits(),
    };
    session.change(alloc, Context { caller, moment }, &call, done)
}

/// Sets the graces, in seconds.
#[unsafe(no_mangle)]
pub extern "C" fn qfs_setgrace(
    alloc: Global,
    session: &mut Session,
    caller: &Caller,
    moment: u64,
    block: u64,
    inode: u64,
    done: &mut DoneReply,
) -> u32
    ensures called { IsCalled (held_in session.old.slot.kept) (held_in session.new.slot.kept)
        caller.now moment (SetGrace (record { block = block; inode = inode })) result }
    ensures done { result ≡ 0 → IsReplyTo (held_in session.old.slot.kept)
        (line_by caller.now moment (SetGrace (record { block = block; inode = inode }))) (done_in done.new) }
{
    let call = Call::SetGrace {
        graces: Graces { block, inode },
    };
    session.change(alloc, Context { caller, moment }, &call, done)
}
