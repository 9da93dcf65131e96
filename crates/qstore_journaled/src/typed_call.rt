//! What the types of a call say of it. These are laws for proofs, and do nothing.
ghost use Rattle.std.specs.Prelude.{◌<◌, ◌^◌, replicate};
ghost use Rattle.qplain.specs.Calls.{IsCall};
ghost use Rattle.qplain.specs.Paths.{ArePathBytes};
ghost use Rattle.qplain.specs.Ranges.{AreBytes, AreLimits, IsOwner};

use qblocks::Input;
use qplain::{Call, Data, Path};
use qrules::Limits;

#[inline(always)]
fn path_is_typed(path: &Path)
    ensures { ArePathBytes path.now }
{
    let _bytes = path.bytes();
}

#[inline(always)]
fn laid_out_are_typed(bytes: &[u8])
    ensures { AreBytes bytes.now }
{}

#[inline(always)]
fn equal_are_typed(count: u64, byte: u8)
    ensures { AreBytes (replicate count byte) }
{}

#[inline(always)]
fn data_are_typed(bytes: &Data)
    ensures { AreBytes bytes.now }
{
    match bytes.input() {
        Input::Bytes(bytes) => laid_out_are_typed(bytes),
        Input::Fill { count, byte } => equal_are_typed(count, byte),
    }
}

#[inline(always)]
fn owner_is_typed(owner: Option<u32>)
    ensures { IsOwner owner }
{}

#[inline(always)]
fn limits_are_typed(limits: Limits)
    ensures { AreLimits limits }
{}

#[inline(always)]
fn id_is_typed(id: u32)
    ensures { id < 2 ^ 32 }
{}

#[inline(always)]
fn number_is_typed(number: u64)
    ensures { number < 2 ^ 64 }
{}

/// The parts of a call are what their types can hold.
#[inline(always)]
pub(crate) fn call_is_typed(call: &Call)
    ensures { IsCall call.now }
{
    match call {
        Call::Create { path }
        | Call::Mkdir { path }
        | Call::Stat { path }
        | Call::Unlink { path }
        | Call::Rmdir { path } => path_is_typed(path),
        Call::Write { path, off, bytes } => {
            path_is_typed(path);
            number_is_typed(*off);
            data_are_typed(bytes);
        }
        Call::Truncate { path, size } => {
            path_is_typed(path);
            number_is_typed(*size);
        }
        Call::Read { path, off, len } => {
            path_is_typed(path);
            number_is_typed(*off);
            number_is_typed(*len);
        }
        Call::Link { from, to } | Call::Rename { from, to } => {
            path_is_typed(from);
            path_is_typed(to);
        }
        Call::Chown {
            path,
            uid,
            gid,
            project,
        } => {
            path_is_typed(path);
            owner_is_typed(*uid);
            owner_is_typed(*gid);
            owner_is_typed(*project);
        }
        Call::SetQuota { id, limits, .. } => {
            id_is_typed(*id);
            limits_are_typed(*limits);
        }
        Call::SetGrace { graces } => {
            number_is_typed(graces.block);
            number_is_typed(graces.inode);
        }
        Call::Quota { id, .. } => id_is_typed(*id),
    }
}
