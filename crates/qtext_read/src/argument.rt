//! The arguments that more than one call takes.
ghost use Rattle.std.specs.Prelude.{◌≡◌};
ghost use Rattle.qtext.specs.Gives.{Gives};
ghost use Rattle.qtext_read.specs.Arguments.{kind_of, owner_of, path_of};

use qplain::{Edition, Path};
use qrules::Kind;
use qtext::{ReadFault, TextKind, id_of};
use std::alloc::Global;

/// A path: whether it leads anywhere is for the store to say.
pub(crate) fn path_of(alloc: Global, word: &[u8]) -> Result<Path, ReadFault>
    ensures { Gives result (path_of word.now) }
{
    match Path::new(alloc, word)? {
        Some(path) => Ok(path),
        None => Err(ReadFault::Fault(TextKind::BadWord)),
    }
}

/// `user` or `group`, or in edition 2 `project`.
#[tactic(auto, unfolding(crate::specs::Arguments::kind_of, crate::specs::Arguments::project_kind_of))]
pub(crate) fn kind_of(edition: Edition, word: &[u8]) -> Result<Kind, ReadFault>
    ensures { Gives result (kind_of edition word.now) }
{
    if word == b"user".as_slice() {
        return Ok(Kind::User);
    }
    if word == b"group".as_slice() {
        return Ok(Kind::Group);
    }
    if word == b"project".as_slice() {
        return match edition {
            Edition::One => Err(ReadFault::Fault(TextKind::BadWord)),
            Edition::Two => Ok(Kind::Project),
        };
    }
    Err(ReadFault::Fault(TextKind::BadWord))
}

/// The id of an owner, or None for a dash, else BadNumber.
#[tactic(auto, unfolding(crate::specs::Arguments::owner_of))]
pub fn owner_of(word: &[u8]) -> Result<Option<u32>, ReadFault>
    ensures { Gives result (owner_of word.now) }
{
    if word == b"-".as_slice() {
        return Ok(None);
    }
    let id = id_of(TextKind::BadNumber, word)?;
    Ok(Some(id))
}

/// `BSOFT BHARD ISOFT IHARD`.
#[derive(Clone, Copy)]
pub struct LimitsWords<'a> {
    pub block_soft: &'a [u8],
    pub block_hard: &'a [u8],
    pub inode_soft: &'a [u8],
    pub inode_hard: &'a [u8],
}
