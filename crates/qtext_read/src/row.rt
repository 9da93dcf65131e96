//! The one table of calls: the word of each verb, and what it takes.
ghost use Rattle.std.specs.Prelude.{◌≡◌};
ghost use Rattle.qtext.specs.Gives.{Gives};
ghost use Rattle.qtext_read.specs.Rows.{arity, name, row, takes, verb_of, verb_text};

use qtext::{ReadFault, TextKind};

/// The first word of a call.
#[derive(Clone, Copy, Debug, PartialEq, Eq)]
pub enum Verb {
    Create,
    Mkdir,
    Write,
    Fill,
    Truncate,
    Read,
    Stat,
    Link,
    Unlink,
    Rmdir,
    Rename,
    Chown,
    SetQuota,
    SetGrace,
    Quota,
}

/// All verbs, in the order in which they are told.
pub const VERBS: [Verb; 15] = [
    Verb::Create,
    Verb::Mkdir,
    Verb::Write,
    Verb::Fill,
    Verb::Truncate,
    Verb::Read,
    Verb::Stat,
    Verb::Link,
    Verb::Unlink,
    Verb::Rmdir,
    Verb::Rename,
    Verb::Chown,
    Verb::SetQuota,
    Verb::SetGrace,
    Verb::Quota,
];

/// The word of a verb.
pub fn verb_word(verb: Verb) -> &'static [u8]
    ensures { result.now ≡ verb_text verb }
{
    match verb {
        Verb::Create => b"create",
        Verb::Mkdir => b"mkdir",
        Verb::Write => b"write",
        Verb::Fill => b"fill",
        Verb::Truncate => b"truncate",
        Verb::Read => b"read",
        Verb::Stat => b"stat",
        Verb::Link => b"link",
        Verb::Unlink => b"unlink",
        Verb::Rmdir => b"rmdir",
        Verb::Rename => b"rename",
        Verb::Chown => b"chown",
        Verb::SetQuota => b"setquota",
        Verb::SetGrace => b"setgrace",
        Verb::Quota => b"quota",
    }
}

/// The verb that is spelled so. What most lines ask for is looked at first.
#[tactic(auto, unfolding(crate::specs::Rows::verb_of))]
pub fn verb_of(word: &[u8]) -> Result<Verb, ReadFault>
    ensures { Gives result (verb_of word.now) }
{
    if word == b"write".as_slice() {
        return Ok(Verb::Write);
    }
    if word == b"stat".as_slice() {
        return Ok(Verb::Stat);
    }
    if word == b"read".as_slice() {
        return Ok(Verb::Read);
    }
    if word == b"create".as_slice() {
        return Ok(Verb::Create);
    }
    if word == b"mkdir".as_slice() {
        return Ok(Verb::Mkdir);
    }
    if word == b"fill".as_slice() {
        return Ok(Verb::Fill);
    }
    if word == b"truncate".as_slice() {
        return Ok(Verb::Truncate);
    }
    if word == b"link".as_slice() {
        return Ok(Verb::Link);
    }
    if word == b"unlink".as_slice() {
        return Ok(Verb::Unlink);
    }
    if word == b"rmdir".as_slice() {
        return Ok(Verb::Rmdir);
    }
    if word == b"rename".as_slice() {
        return Ok(Verb::Rename);
    }
    if word == b"chown".as_slice() {
        return Ok(Verb::Chown);
    }
    if word == b"setquota".as_slice() {
        return Ok(Verb::SetQuota);
    }
    if word == b"setgrace".as_slice() {
        return Ok(Verb::SetGrace);
    }
    if word == b"quota".as_slice() {
        return Ok(Verb::Quota);
    }
    Err(ReadFault::Fault(TextKind::BadVerb))
}

/// The most bytes that `fill` may ask for.
pub const MAX_FILL: u64 = 131_072;

/// An argument of a call.
#[derive(Clone, Copy, Debug, PartialEq, Eq)]
pub enum Argument {
    Path,
    From,
    To,
    Offset,
    Size,
    Length,
    Data,
    Count,
    Byte,
    Uid,
    Gid,
    Project,
    Kind,
    Id,
    BlockSoft,
    BlockHard,
    InodeSoft,
    InodeHard,
    BlockGrace,
    InodeGrace,
}

/// The name of an argument, as data for programs have it.
pub fn name_of(argument: Argument) -> &'static [u8]
    ensures { result.now ≡ name argument }
{
    match argument {
        Argument::Path => b"path",
        Argument::From => b"from",
        Argument::To => b"to",
        Argument::Offset => b"offset",
        Argument::Size => b"size",
        Argument::Length => b"length",
        Argument::Data => b"data",
        Argument::Count => b"count",
        Argument::Byte => b"byte",
        Argument::Uid => b"uid",
        Argument::Gid => b"gid",
        Argument::Project => b"project",
        Argument::Kind => b"kind",
        Argument::Id => b"id",
        Argument::BlockSoft => b"block_soft",
        Argument::BlockHard => b"block_hard",
        Argument::InodeSoft => b"inode_soft",
        Argument::InodeHard => b"inode_hard",
        Argument::BlockGrace => b"block",
        Argument::InodeGrace => b"inode",
    }
}

/// What a verb takes, in its order; a chown need not have its last.
pub fn row_of(verb: Verb) -> &'static [Argument]
    ensures { result.now ≡ row verb }
{
    match verb {
        Verb::Create | Verb::Mkdir | Verb::Stat | Verb::Unlink | Verb::Rmdir => &[Argument::Path],
        Verb::Write => &[Argument::Path, Argument::Offset, Argument::Data],
        Verb::Fill => &[
            Argument::Path,
            Argument::Offset,
            Argument::Count,
            Argument::Byte,
        ],
        Verb::Truncate => &[Argument::Path, Argument::Size],
        Verb::Read => &[Argument::Path, Argument::Offset, Argument::Length],
        Verb::Link | Verb::Rename => &[Argument::From, Argument::To],
        Verb::Chown => &[
            Argument::Path,
            Argument::Uid,
            Argument::Gid,
            Argument::Project,
        ],
        Verb::SetQuota => &[
            Argument::Kind,
            Argument::Id,
            Argument::BlockSoft,
            Argument::BlockHard,
            Argument::InodeSoft,
            Argument::InodeHard,
        ],
        Verb::SetGrace => &[Argument::BlockGrace, Argument::InodeGrace],
        Verb::Quota => &[Argument::Kind, Argument::Id],
    }
}

/// As many arguments as a verb takes, where a chown names no project.
pub(crate) fn arity(verb: Verb) -> usize
    ensures { result ≡ arity verb }
{
    match verb {
        Verb::Chown => 3,
        _ => row_of(verb).len(),
    }
}

/// Whether a verb takes so many arguments.
pub fn takes(verb: Verb, count: usize) -> bool
    ensures { result ≡ takes verb count }
{
    count == arity(verb) || count == row_of(verb).len()
}
