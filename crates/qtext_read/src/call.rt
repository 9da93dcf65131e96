//! Calls as words: the call that words spell, and the parts of a call.
//!
//! A call is large, and what comes of a `match` is moved once more: it is returned where it is made.
#![tactic(auto, unfolding(crate::specs::Calls::call_of, crate::specs::Calls::call_by, crate::specs::Rows::values_in))]

ghost use Rattle.std.specs.Prelude.{◌≡◌, ◌≢◌, length, map, ◌∷◌, []};
ghost use Rattle.qplain.specs.Calls.{IsCall};
ghost use Rattle.qplain.specs.declared.edition.Edition.{Edition};
ghost use Rattle.qtext.specs.Gives.{Gives};
ghost use Rattle.qtext_read.specs.declared.row.Verb.TheVariants.{Chown, Fill, SetQuota, Write};
ghost use Rattle.qtext_read.specs.Calls.{AreTyped, call_in, call_of, parts_in, parts_of};

use crate::argument::{LimitsWords, kind_of, owner_of};
use crate::paths::Paths;
use crate::row::{MAX_FILL, Verb, verb_of};
use qplain::{Call, Data, Edition, Path, SharedItems};
use qrules::{Graces, Kind, Limits};
use qtext::{ReadFault, TextKind, byte_of, data_of, id_of, number, number_of};
use std::alloc::Global;

const WORD_COUNT: ReadFault = ReadFault::Fault(TextKind::WordCount);

/// `fill PATH OFF COUNT BYTE`: a write of that many equal bytes. It stands apart, so that other calls take less.
#[inline(never)]
fn fill_of<'a>(
    alloc: Global,
    paths: &mut Paths<'a>,
    path: &'a [u8],
    off: &[u8],
    count: &[u8],
    byte: &[u8],
) -> Result<Call, ReadFault>
    ensures { (edition : Edition) → Gives result
        (call_of edition Fill (path.now ∷ off.now ∷ count.now ∷ byte.now ∷ [])) }
{
    let path = paths.read(alloc, path, &[off, count, byte])?;
    let off = number(off)?;
    let count = number_of(TextKind::BadNumber, MAX_FILL, count)?;
    let bytes = Data::fill(count, byte_of(byte)?);
    Ok(Call::Write { path, off, bytes })
}

/// The call of a verb and one word.
fn of_one_word<'a>(
    alloc: Global,
    paths: &mut Paths<'a>,
    verb: Verb,
    path: &'a [u8],
) -> Result<Call, ReadFault>
    ensures { (edition : Edition) → Gives result (call_of edition verb (path.now ∷ [])) }
{
    if !matches!(
        verb,
        Verb::Create | Verb::Mkdir | Verb::Stat | Verb::Unlink | Verb::Rmdir
    ) {
        return Err(WORD_COUNT);
    }
    let path = paths.read(alloc, path, &[])?;
    if verb == Verb::Stat {
        return Ok(Call::Stat { path });
    }
    if verb == Verb::Create {
        return Ok(Call::Create { path });
    }
    if verb == Verb::Mkdir {
        return Ok(Call::Mkdir { path });
    }
    if verb == Verb::Unlink {
        return Ok(Call::Unlink { path });
    }
    Ok(Call::Rmdir { path })
}

/// The call of a verb and two words.
fn of_two_words<'a>(
    alloc: Global,
    paths: &mut Paths<'a>,
    edition: Edition,
    verb: Verb,
    first: &'a [u8],
    second: &'a [u8],
) -> Result<Call, ReadFault>
    ensures { Gives result (call_of edition verb (first.now ∷ second.now ∷ [])) }
{
    if verb == Verb::Quota {
        let kind = kind_of(edition, first)?;
        let id = id_of(TextKind::BadNumber, second)?;
        return Ok(Call::Quota { kind, id });
    }
    if verb == Verb::SetGrace {
        let block = number(first)?;
        let inode = number(second)?;
        let graces = Graces { block, inode };
        return Ok(Call::SetGrace { graces });
    }
    if !matches!(verb, Verb::Truncate | Verb::Link | Verb::Rename) {
        return Err(WORD_COUNT);
    }
    let path = paths.read(alloc, first, &[second])?;
    if verb == Verb::Truncate {
        let size = number(second)?;
        return Ok(Call::Truncate { path, size });
    }
    let to = paths.read(alloc, second, &[])?;
    if verb == Verb::Link {
        return Ok(Call::Link { from: path, to });
    }
    Ok(Call::Rename { from: path, to })
}

/// `write PATH OFF DATA`.
fn write_of<'a>(
    alloc: Global,
    paths: &mut Paths<'a>,
    path: &'a [u8],
    off: &[u8],
    bytes: &[u8],
) -> Result<Call, ReadFault>
    ensures { (edition : Edition) → Gives result (call_of edition Write (path.now ∷ off.now ∷ bytes.now ∷ [])) }
{
    let path = paths.read(alloc, path, &[off, bytes])?;
    let off = number(off)?;
    let bytes = SharedItems::new(data_of(alloc, bytes)?.into_vec())?;
    Ok(Call::Write {
        path,
        off,
        bytes: Data::new(bytes),
    })
}

/// The call of a verb but `write`, and three words.
fn of_three_words<'a>(
    alloc: Global,
    paths: &mut Paths<'a>,
    verb: Verb,
    path: &'a [u8],
    second: &[u8],
    third: &[u8],
) -> Result<Call, ReadFault>
    requires { verb ≢ Write }
    ensures { (edition : Edition) → Gives result
        (call_of edition verb (path.now ∷ second.now ∷ third.now ∷ [])) }
{
    if !matches!(verb, Verb::Read | Verb::Chown) {
        return Err(WORD_COUNT);
    }
    let path = paths.read(alloc, path, &[second, third])?;
    if verb == Verb::Chown {
        let uid = owner_of(second)?;
        let gid = owner_of(third)?;
        let project = None;
        return Ok(Call::Chown {
            path,
            uid,
            gid,
            project,
        });
    }
    let off = number(second)?;
    let len = number(third)?;
    Ok(Call::Read { path, off, len })
}

/// `chown PATH UID GID PROJECT`.
#[inline(never)]
fn chown_of<'a>(
    alloc: Global,
    paths: &mut Paths<'a>,
    arguments: &[&'a [u8]],
) -> Result<Call, ReadFault>
    requires { length arguments.now ≡ 4 }
    ensures { (edition : Edition) → Gives result (call_of edition Chown (map (λ word. word.now) arguments.now)) }
{
    let [path, uid, gid, project] = arguments else {
        unreachable!();
    };
    Ok(Call::Chown {
        path: paths.read(alloc, path, &[uid, gid, project])?,
        uid: owner_of(uid)?,
        gid: owner_of(gid)?,
        project: Some(id_of(TextKind::BadNumber, project)?),
    })
}

/// `setquota KIND ID BSOFT BHARD ISOFT IHARD`.
#[inline(always)]
fn setquota_of(
    edition: Edition,
    kind: &[u8],
    id: &[u8],
    limits: LimitsWords<'_>,
) -> Result<Call, ReadFault>
    ensures { Gives result (call_of edition SetQuota (kind.now ∷ id.now ∷ limits.entry.block_soft.now
        ∷ limits.entry.block_hard.now ∷ limits.entry.inode_soft.now ∷ limits.entry.inode_hard.now ∷ [])) }
{
    Ok(Call::SetQuota {
        kind: kind_of(edition, kind)?,
        id: id_of(TextKind::BadNumber, id)?,
        limits: Limits {
            block_soft: number(limits.block_soft)?,
            block_hard: number(limits.block_hard)?,
            inode_soft: number(limits.inode_soft)?,
            inode_hard: number(limits.inode_hard)?,
        },
    })
}

/// The call of a verb and its arguments, of which there are as many as it takes; chown may have a project.
#[tactic(auto, unfolding(crate::specs::Calls::call_of))]
#[inline(always)]
pub(crate) fn call_of<'a>(
    alloc: Global,
    paths: &mut Paths<'a>,
    edition: Edition,
    verb: Verb,
    arguments: &[&'a [u8]],
) -> Result<Call, ReadFault>
    ensures { Gives result (call_of edition verb (map (λ word. word.now) arguments.now)) }
{
    if let [path] = arguments {
        return of_one_word(alloc, paths, verb, path);
    }
    if let [path, second, third] = arguments {
        if verb == Verb::Write {
            return write_of(alloc, paths, path, second, third);
        }
        return of_three_words(alloc, paths, verb, path, second, third);
    }
    if let [kind, id, block_soft, block_hard, inode_soft, inode_hard] = arguments
        && verb == Verb::SetQuota
    {
        let limits = LimitsWords {
            block_soft,
            block_hard,
            inode_soft,
            inode_hard,
        };
        return setquota_of(edition, kind, id, limits);
    }
    if let [first, second] = arguments {
        return of_two_words(alloc, paths, edition, verb, first, second);
    }
    if let [path, second, third, fourth] = arguments {
        if verb == Verb::Fill {
            return fill_of(alloc, paths, path, second, third, fourth);
        }
        if verb == Verb::Chown {
            return chown_of(alloc, paths, arguments);
        }
    }
    Err(WORD_COUNT)
}

/// The call that words of a script spell, the first of them its verb. Scripts are of edition 2.
///
/// Of faults the first is reported: the verb, the count of arguments, the arguments from left to right. That a call is
/// read says nothing of whether a store takes it. An Err gives no call. Its paths share the bytes of their text where
/// the words end the line that was begun.
#[tactic(auto, unfolding(crate::specs::Calls::call_in))]
#[inline(always)]
pub fn call_in<'a>(
    alloc: Global,
    paths: &mut Paths<'a>,
    words: &[&'a [u8]],
) -> Result<Call, ReadFault>
    ensures { Gives result (call_in (map (λ word. word.now) words.now)) }
{
    let [verb, arguments @ ..] = words else {
        return Err(ReadFault::Fault(TextKind::BadVerb));
    };
    let verb = verb_of(verb)?;
    call_of(alloc, paths, Edition::Two, verb, arguments)
}

/// The values in the places of a call's arguments.
#[derive(Clone, Copy)]
pub enum Values<'a> {
    Path(&'a Path),
    Paths(&'a Path, &'a Path),
    Size(&'a Path, u64),
    Range(&'a Path, u64, u64),
    Bytes(&'a Path, u64, &'a Data),
    Owners(&'a Path, Option<u32>, Option<u32>, Option<u32>),
    Limits(Kind, u32, &'a Limits),
    Graces(&'a Graces),
    Record(Kind, u32),
}

/// A call's verb, and the values in the places of its arguments.
#[derive(Clone, Copy)]
pub struct CallParts<'a> {
    pub verb: Verb,
    pub values: Values<'a>,
}

/// The parts of a call: what a journal, a transcript and data for programs spell, each in its way.
#[inline(always)]
pub fn parts_of(call: &Call) -> CallParts<'_>
    ensures parts { parts_in result ≡ parts_of call.now }
    ensures typed { AreTyped result.values → IsCall call.now }
{
    let (verb, values) = match call {
        Call::Create { path } => (Verb::Create, Values::Path(path)),
        Call::Mkdir { path } => (Verb::Mkdir, Values::Path(path)),
        Call::Write { path, off, bytes } => (Verb::Write, Values::Bytes(path, *off, bytes)),
        Call::Truncate { path, size } => (Verb::Truncate, Values::Size(path, *size)),
        Call::Read { path, off, len } => (Verb::Read, Values::Range(path, *off, *len)),
        Call::Stat { path } => (Verb::Stat, Values::Path(path)),
        Call::Link { from, to } => (Verb::Link, Values::Paths(from, to)),
        Call::Unlink { path } => (Verb::Unlink, Values::Path(path)),
        Call::Rmdir { path } => (Verb::Rmdir, Values::Path(path)),
        Call::Rename { from, to } => (Verb::Rename, Values::Paths(from, to)),
        Call::Chown {
            path,
            uid,
            gid,
            project,
        } => (Verb::Chown, Values::Owners(path, *uid, *gid, *project)),
        Call::SetQuota { kind, id, limits } => {
            (Verb::SetQuota, Values::Limits(*kind, *id, limits))
        }
        Call::SetGrace { graces } => (Verb::SetGrace, Values::Graces(graces)),
        Call::Quota { kind, id } => (Verb::Quota, Values::Record(*kind, *id)),
    };
    CallParts { verb, values }
}
