//! The calls that a friendly line asks for, as words with a space before each.
ghost use Rattle.std.specs.Prelude.{◌≡◌, ◌++◌, map, IfOk};
ghost use Rattle.qtext.specs.Pieces.{piece_text};
ghost use Rattle.qtext_read.specs.Rows.{verb_of};
ghost use Rattle.qtext_expand.specs.FriendlyCalls.{all_worked, arguments_of, calls_by, calls_of, first_of, one_call};
ghost use Rattle.qtext_expand.specs.FriendlyCalls.{plain_calls, removals_of, ways_of, worked};
ghost use Rattle.qtext_expand.specs.FriendlyWords.{spaced};
ghost use Rattle.qtext_expand.specs.GivesAs.{GivesTexts};

use crate::fill::fill_calls;
use crate::names::{named, principals_of};
use crate::value::{Measure, measured};
use crate::ways::{removal_calls, way_calls};
use crate::words::{alone, put_spaced, put_words};
use qplain::Setup;
use qtext::{Piece, ReadFault, TextKind};
use qtext_read::{Argument, row_of, takes, verb_of};
use std::alloc::{AllocError, Global};

/// What comes of the calls of a line, as texts.
type Calls = Result<Vec<Vec<u8>>, ReadFault>;

/// A word in the place of an argument, worked out; an id is of the kind that the first word names.
fn worked<'a>(
    setup: &Setup,
    kind: &[u8],
    argument: Argument,
    word: &'a [u8],
) -> Result<Piece<'a>, AllocError>
    ensures { IfOk result (λ piece. piece_text piece ≡ worked setup.now kind.now argument word.now) }
{
    match argument {
        Argument::Offset | Argument::Size | Argument::Length => measured(Measure::Bytes, word),
        Argument::BlockSoft | Argument::BlockHard => measured(Measure::Kibibytes, word),
        Argument::BlockGrace | Argument::InodeGrace => measured(Measure::Seconds, word),
        Argument::Uid => Ok(named(setup.users(), word)),
        Argument::Gid => Ok(named(setup.groups(), word)),
        Argument::Project => Ok(named(setup.projects(), word)),
        Argument::Id => Ok(named(principals_of(setup, kind), word)),
        Argument::Path
        | Argument::From
        | Argument::To
        | Argument::Data
        | Argument::Count
        | Argument::Byte
        | Argument::Kind
        | Argument::InodeSoft
        | Argument::InodeHard => Ok(Piece::Text(word)),
    }
}

/// Puts words in the places of these arguments, worked out, after what is there.
fn put_worked(
    text: &mut Vec<u8>,
    setup: &Setup,
    kind: &[u8],
    row: &[Argument],
    words: &[&[u8]],
) -> Result<(), AllocError>
    ensures { IfOk result (λ _. text.new.items ≡ text.old.items
        ++ spaced (all_worked setup.now kind.now row.now (map (λ word. word.now) words.now))) }
{
    let [argument, row @ ..] = row else {
        return Ok(());
    };
    let [word, words @ ..] = words else {
        return Ok(());
    };
    put_spaced(text, worked(setup, kind, *argument, word)?)?;
    put_worked(text, setup, kind, row, words)
}

fn first_of<'a>(words: &[&'a [u8]]) -> &'a [u8]
    ensures { result.now ≡ first_of (map (λ word. word.now) words.now) }
{
    match words {
        [] => &[],
        [first, ..] => first,
    }
}

/// Puts the words behind one, worked out where it is a verb that takes so many, after what is there.
fn put_arguments(
    text: &mut Vec<u8>,
    setup: &Setup,
    verb: &[u8],
    words: &[&[u8]],
) -> Result<(), AllocError>
    ensures { IfOk result (λ _. text.new.items ≡ text.old.items
        ++ spaced (arguments_of setup.now (verb_of verb.now) (map (λ word. word.now) words.now))) }
{
    match verb_of(verb) {
        Ok(verb) if takes(verb, words.len()) => {
            put_worked(text, setup, first_of(words), row_of(verb), words)
        }
        Ok(_) | Err(ReadFault::Fault(_)) => put_words(text, words),
        Err(ReadFault::Memory) => Err(AllocError),
    }
}

fn one_call(alloc: Global, setup: &Setup, verb: &[u8], words: &[&[u8]]) -> Calls
    ensures { GivesTexts result (one_call setup.now verb.now (map (λ word. word.now) words.now)) }
{
    let mut call = Vec::new(alloc);
    put_spaced(&mut call, Piece::Text(verb))?;
    put_arguments(&mut call, setup, verb, words)?;
    Ok(alone(alloc, call)?)
}

#[tactic(auto, unfolding(crate::specs::FriendlyCalls::ways_of))]
fn ways_of(alloc: Global, paths: &[&[u8]]) -> Calls
    ensures { GivesTexts result (ways_of (map (λ path. path.now) paths.now)) }
{
    match paths {
        [path] => Ok(way_calls(alloc, path)?),
        _ => Err(ReadFault::Fault(TextKind::WordCount)),
    }
}

#[tactic(auto, unfolding(crate::specs::FriendlyCalls::removals_of))]
fn removals_of(alloc: Global, paths: &[&[u8]]) -> Calls
    ensures { GivesTexts result (removals_of (map (λ path. path.now) paths.now)) }
{
    match paths {
        [] => Err(ReadFault::Fault(TextKind::WordCount)),
        [_, ..] => Ok(removal_calls(alloc, paths)?),
    }
}

/// The calls of a word and those behind it, where no flag asks for more.
fn plain_calls(alloc: Global, setup: &Setup, verb: &[u8], words: &[&[u8]]) -> Calls
    ensures { GivesTexts result (plain_calls setup.now verb.now (map (λ word. word.now) words.now)) }
{
    match words {
        [path, off, count, byte] if verb == b"fill".as_slice() => {
            fill_calls(alloc, path, off, count, byte)
        }
        _ => one_call(alloc, setup, verb, words),
    }
}

fn calls_by(alloc: Global, setup: &Setup, verb: &[u8], words: &[&[u8]]) -> Calls
    ensures { GivesTexts result (calls_by setup.now verb.now (map (λ word. word.now) words.now)) }
{
    let [flag, behind @ ..] = words else {
        return plain_calls(alloc, setup, verb, words);
    };
    if verb == b"mkdir".as_slice() && *flag == b"-p".as_slice() {
        return ways_of(alloc, behind);
    }
    if verb == b"rm".as_slice() && *flag == b"-r".as_slice() {
        return removals_of(alloc, behind);
    }
    plain_calls(alloc, setup, verb, words)
}

#[tactic(auto, unfolding(crate::specs::FriendlyCalls::calls_of))]
pub(crate) fn calls_of(alloc: Global, setup: &Setup, words: &[&[u8]]) -> Calls
    ensures { GivesTexts result (calls_of setup.now (map (λ word. word.now) words.now)) }
{
    match words {
        [] => Ok(alone(alloc, Vec::new(alloc))?),
        [verb, words @ ..] => calls_by(alloc, setup, verb, words),
    }
}
