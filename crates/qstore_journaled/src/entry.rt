//! The entry of a call, and its place.
ghost use Rattle.std.specs.Prelude.{◌≡◌, ◌≤◌, ◌+◌, length, take, vec_capacity, vec_len, IfOk, OnOk};
ghost use Rattle.qplain.specs.Journal.{entry_of};
ghost use Rattle.qstore_journaled.specs.Lines.{line_of};

use qplain::{Call, Cred, Entry, NoMemory, Reply};

/// Gives up what stands behind the first `len` entries, and makes room for one more.
#[inline(always)]
pub(crate) fn make_place(entries: &mut Vec<Entry>, len: usize) -> Result<(), NoMemory>
    requires { len ≤ length entries.old.items }
    ensures entries { entries.new.items ≡ take len entries.old.items }
    ensures room { OnOk result (vec_len entries.new + 1 ≤ vec_capacity entries.new) }
{
    // Mostly no entry is ready any more, and `truncate` is out of line.
    if entries.len() > len {
        entries.truncate(len);
    }
    Ok(entries.reserve(1)?)
}

/// The entry of a caller's call, which shares what the call has.
#[inline(always)]
pub(crate) fn entry_for(
    worker: u64,
    cred: &Cred,
    moment: u64,
    call: &Call,
    reply: Reply,
) -> Result<Entry, NoMemory>
    ensures { IfOk result (λ e. e ≡ entry_of worker (line_of cred.now moment call.now) reply) }
{
    Ok(Entry {
        worker,
        cred: cred.copy()?,
        moment,
        call: call.copy()?,
        reply,
    })
}
