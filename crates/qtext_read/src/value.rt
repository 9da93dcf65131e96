//! Words in the places of arguments, judged one by one: for who is not in a hurry.
ghost use Rattle.std.specs.Prelude.{◌≡◌, ◌≤◌, length, map, IfOk};
ghost use Rattle.qplain.specs.declared.edition.Edition.TheVariants.{Two};
ghost use Rattle.qtext_read.specs.Judged.{IsJudged, is_value, values_before};

use crate::argument::{kind_of, owner_of, path_of};
use crate::row::{Argument, MAX_FILL};
use qplain::Edition;
use qtext::{ReadFault, TextKind, byte_of, data_of, id_of, number, number_of};
use std::alloc::{AllocError, Global};

/// Whether something was read, whatever it is. An Err is out of memory.
pub fn was_read<T: Drop>(read: Result<T, ReadFault>) -> Result<bool, AllocError>
    ensures { IfOk result (λ is. IsJudged is read) }
{
    match read {
        Ok(_) => Ok(true),
        Err(ReadFault::Fault(_)) => Ok(false),
        Err(ReadFault::Memory) => Err(AllocError),
    }
}

/// Whether a word of a script is one in the place of an argument. An Err is out of memory, for the copy of a path or of
/// data.
#[tactic(auto, using(crate::proofs::Judged::judged))]
fn is_value(alloc: Global, argument: Argument, word: &[u8]) -> Result<bool, AllocError>
    ensures { IfOk result (λ is. is ≡ is_value Two argument word.now) }
{
    match argument {
        Argument::Path | Argument::From | Argument::To => was_read(path_of(alloc, word)),
        Argument::Data => was_read(data_of(alloc, word)),
        Argument::Byte => was_read(byte_of(word)),
        Argument::Count => was_read(number_of(TextKind::BadNumber, MAX_FILL, word)),
        Argument::Uid | Argument::Gid => was_read(owner_of(word)),
        Argument::Project | Argument::Id => was_read(id_of(TextKind::BadNumber, word)),
        Argument::Kind => was_read(kind_of(Edition::Two, word)),
        Argument::Offset
        | Argument::Size
        | Argument::Length
        | Argument::BlockSoft
        | Argument::BlockHard
        | Argument::InodeSoft
        | Argument::InodeHard
        | Argument::BlockGrace
        | Argument::InodeGrace => was_read(number(word)),
    }
}

/// How many of these words stand before the first that is none in its place of the row. An Err is out of memory.
#[tactic(auto, unfolding(crate::specs::Judged::values_before))]
pub fn values_before(alloc: Global, row: &[Argument], words: &[&[u8]]) -> Result<usize, AllocError>
    ensures before { IfOk result (λ before.
        before ≡ values_before Two row.now (map (λ word. word.now) words.now)) }
    ensures within { IfOk result (λ before. before ≤ length words.now) }
{
    let [argument, row @ ..] = row else {
        return Ok(0);
    };
    let [word, words @ ..] = words else {
        return Ok(0);
    };
    if is_value(alloc, *argument, word)? {
        Ok(1 + values_before(alloc, row, words)?)
    } else {
        Ok(0)
    }
}
