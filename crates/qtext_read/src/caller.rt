//! Callers as words.
ghost use Rattle.std.specs.Prelude.{◌≡◌, [], Ok, IfOk, IfErr};
ghost use Rattle.std.specs.Option.{option_map};
ghost use Rattle.qtext.specs.Gives.{Fails, Gives};
ghost use Rattle.qtext.specs.Words.{parts, parts_after};
ghost use Rattle.qtext_read.specs.Callers.{own_ids_in, own_ids_of, few_groups_of, caller_by, caller_from, caller_of};

use arrayvec::ArrayVec;
use qplain::{Cred, MAX_MORE_GROUPS};
use qtext::{ReadFault, TextKind, first_part, id_of};
use std::alloc::Global;

/// The uid and the gid of `UID:GID`.
#[tactic(auto, unfolding(crate::specs::Callers::own_ids_in))]
fn own_ids_of(text: &[u8]) -> Result<(u32, u32), ReadFault>
    ensures { Gives result (own_ids_of (parts 58 text.now)) }
{
    let (uid, after) = first_part(text, b':');
    let Some(after) = after else {
        return Err(ReadFault::Fault(TextKind::BadCred));
    };
    let (gid, after) = first_part(after, b':');
    match after {
        None => Ok((
            id_of(TextKind::BadCred, uid)?,
            id_of(TextKind::BadCred, gid)?,
        )),
        Some(_) => Err(ReadFault::Fault(TextKind::BadCred)),
    }
}

/// The further groups of a caller, where there are any, and no more than a caller may name. They take no memory.
fn groups_of(text: Option<&[u8]>) -> Result<ArrayVec<u32, MAX_MORE_GROUPS>, ReadFault>
    ensures groups { IfOk result (λ groups.
        few_groups_of (parts_after 44 (option_map (λ t. t.now) text.entry)) ≡ Ok groups.items) }
    ensures fault { IfErr result (λ fault.
        Fails fault (few_groups_of (parts_after 44 (option_map (λ t. t.now) text.entry)))) }
{
    let mut groups = ArrayVec::new();
    let mut left = text;
    while let Some(rest) = left {
        let (group, after) = first_part(rest, b',');
        let group = id_of(TextKind::BadCred, group)?;
        if groups.is_full() {
            return Err(ReadFault::Fault(TextKind::BadCred));
        }
        groups.push(group);
        left = after;
    }
    Ok(groups)
}

/// A caller of these ids who names further groups. Most name none, so it is out of line: its room for them is large.
#[inline(never)]
#[tactic(auto, unfolding(crate::specs::Callers::caller_by))]
fn caller_with(alloc: Global, uid: u32, gid: u32, groups: &[u8]) -> Result<Cred, ReadFault>
    ensures { Gives result (caller_by (uid, gid) (parts 44 groups.now)) }
{
    let more = groups_of(Some(groups))?;
    match Cred::new(alloc, uid, gid, more.as_slice())? {
        Some(cred) => Ok(cred),
        None => Err(ReadFault::Fault(TextKind::BadCred)),
    }
}

/// `UID:GID`, then at most 16 times `,GROUP`.
#[tactic(auto, unfolding(crate::specs::Callers::caller_from))]
pub fn caller_of(alloc: Global, word: &[u8]) -> Result<Cred, ReadFault>
    ensures { Gives result (caller_of word.now) }
{
    let (own, groups) = first_part(word, b',');
    let (uid, gid) = own_ids_of(own)?;
    match groups {
        Some(groups) => caller_with(alloc, uid, gid, groups),
        None => match Cred::new(alloc, uid, gid, &[])? {
            Some(cred) => Ok(cred),
            None => Err(ReadFault::Fault(TextKind::BadCred)),
        },
    }
}
