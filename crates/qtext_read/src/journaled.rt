//! Calls as journals have them: without `fill`, and with data in lower case. In edition 1 they name no project.
ghost use Rattle.std.specs.Prelude.{◌≡◌, ◌≤◌, ◌+◌, length, map, IfOk};
ghost use Rattle.qtext.specs.Gives.{Gives};
ghost use Rattle.qtext_read.specs.Journaled.{argument_count, counted_call_of, has_project, in_one_case};
ghost use Rattle.qtext_read.specs.Journaled.{is_project_word, journaled_call_in, journaled_verb_of};

use crate::call::call_of;
use crate::paths::Paths;
use crate::row::{Verb, arity, verb_of};
use crate::upper_case::has_upper_case;
use qplain::{Call, Edition};
use qtext::{ReadFault, TextKind};
use std::alloc::Global;

/// Whether the fourth word behind chown is a project: in edition 2, unless it is the arrow before the reply.
fn is_project_word(edition: Edition, word: &[u8]) -> bool
    ensures { result ≡ is_project_word edition word.now }
{
    match edition {
        Edition::One => false,
        Edition::Two => word != b"=>".as_slice(),
    }
}

/// Whether these are the words behind a chown that names a project.
fn has_project(edition: Edition, verb: Verb, behind: &[&[u8]]) -> bool
    ensures { result ≡ has_project edition verb (map (λ word. word.now) behind.now) }
{
    match (verb, behind) {
        (Verb::Chown, [_, _, _, fourth, ..]) => is_project_word(edition, fourth),
        _ => false,
    }
}

/// How many of the words behind a verb are its arguments.
fn argument_count(edition: Edition, verb: Verb, behind: &[&[u8]]) -> usize
    ensures { result ≡ argument_count edition verb (map (λ word. word.now) behind.now) }
{
    if has_project(edition, verb, behind) {
        4
    } else {
        arity(verb)
    }
}

/// The verb that is spelled so, where a journal may have it.
#[tactic(auto, unfolding(crate::specs::Journaled::journaled_verb_of))]
fn journaled_verb_of(word: &[u8]) -> Result<Verb, ReadFault>
    ensures { Gives result (journaled_verb_of word.now) }
{
    let verb = verb_of(word)?;
    if verb == Verb::Fill {
        return Err(ReadFault::Fault(TextKind::BadVerb));
    }
    Ok(verb)
}

/// Whether the data among the arguments, if there are any, are in lower case.
#[tactic(auto, unfolding(crate::specs::Journaled::in_one_case))]
fn in_one_case(verb: Verb, arguments: &[&[u8]]) -> bool
    ensures { result ≡ in_one_case verb (map (λ word. word.now) arguments.now) }
{
    match (verb, arguments) {
        (Verb::Write, [_, _, data]) => !has_upper_case(data),
        _ => true,
    }
}

/// The call of a verb that so many words behind it belong to, with data in lower case, and how many words it has.
#[tactic(auto, unfolding(crate::specs::Journaled::counted_call_of, crate::specs::Journaled::journaled_call_of))]
fn counted_call_of<'a>(
    alloc: Global,
    paths: &mut Paths<'a>,
    edition: Edition,
    verb: Verb,
    count: usize,
    behind: &[&'a [u8]],
) -> Result<(Call, usize), ReadFault>
    ensures call { Gives result (counted_call_of edition verb count (map (λ word. word.now) behind.now)) }
    ensures within { IfOk result (λ read. read.1 ≤ 1 + length behind.now) }
{
    let Some((arguments, after)) = behind.split_at_checked(count) else {
        return Err(ReadFault::Fault(TextKind::WordCount));
    };
    paths.go_before(after);
    let call = call_of(alloc, paths, edition, verb, arguments)?;
    if !in_one_case(verb, arguments) {
        return Err(ReadFault::Fault(TextKind::BadHex));
    }
    Ok((call, 1 + count))
}

/// The call that words begin with, the first of them its verb, and how many words it has, in the one spelling that
/// journals of this edition have: without `fill`, with data in lower case, and in edition 1 with no project.
///
/// Of faults the first is reported: the verb, too few arguments, the arguments from left to right. An Err gives no
/// call.
#[tactic(auto, unfolding(crate::specs::Journaled::journaled_call_in))]
pub fn journaled_call_in<'a>(
    alloc: Global,
    paths: &mut Paths<'a>,
    edition: Edition,
    words: &[&'a [u8]],
) -> Result<(Call, usize), ReadFault>
    ensures call { Gives result (journaled_call_in edition (map (λ word. word.now) words.now)) }
    ensures within { IfOk result (λ read. read.1 ≤ length words.now) }
{
    match words {
        [] => Err(ReadFault::Fault(TextKind::BadVerb)),
        [verb, behind @ ..] => {
            let verb = journaled_verb_of(verb)?;
            let count = argument_count(edition, verb, behind);
            counted_call_of(alloc, paths, edition, verb, count, behind)
        }
    }
}
