//! Callers, with ids in place of names.
ghost use Rattle.std.specs.Prelude.{◌≡◌, ◌++◌, IfOk};
ghost use Rattle.std.specs.Option.{option_map};
ghost use Rattle.qtext.specs.Words.{parts, parts_after};
ghost use Rattle.qtext_expand.specs.FriendlyWords.{is_caller};
ghost use Rattle.qtext_expand.specs.Names.{caller_ids, groups_text, named_text, own_text};

use crate::names::id_named;
use crate::words::put_number;
use qplain::{Principal, Setup};
use qtext::first_part;
use std::alloc::{AllocError, Global};

/// Whether a word stands for a caller: it has a colon.
pub(crate) fn is_caller(word: &[u8]) -> bool
    ensures { result ≡ is_caller word.now }
{
    word.iter().any(|byte| *byte == b':')
}

/// Puts an id in place of a name, or the word as it stands, after what is there.
fn put_named(text: &mut Vec<u8>, principals: &[Principal], word: &[u8]) -> Result<(), AllocError>
    ensures { IfOk result (λ _. text.new.items ≡ text.old.items ++ named_text principals.now word.now) }
{
    match id_named(word, principals) {
        Some(id) => put_number(text, u64::from(id)),
        None => text.extend_from_slice(word),
    }
}

/// Puts the groups that are left, each with a separator before it, after what is there.
fn put_groups(
    text: &mut Vec<u8>,
    separator: u8,
    groups: &[Principal],
    names: Option<&[u8]>,
) -> Result<(), AllocError>
    ensures { IfOk result (λ _. text.new.items ≡ text.old.items
        ++ groups_text separator groups.now (parts_after separator (option_map (λ t. t.now) names.entry))) }
{
    let mut left = names;
    while let Some(rest) = left {
        let (name, after) = first_part(rest, separator);
        text.push(separator)?;
        put_named(text, groups, name)?;
        left = after;
    }
    Ok(())
}

/// Puts a user and its groups after what is there.
fn put_own(text: &mut Vec<u8>, setup: &Setup, own: &[u8]) -> Result<(), AllocError>
    ensures { IfOk result (λ _. text.new.items ≡ text.old.items ++ own_text setup.now (parts 58 own.now)) }
{
    let (user, groups) = first_part(own, b':');
    put_named(text, setup.users(), user)?;
    put_groups(text, b':', setup.groups(), groups)
}

/// `USER:GROUP`, then a comma before each further group, with ids in place of names.
pub(crate) fn caller_ids(alloc: Global, setup: &Setup, word: &[u8]) -> Result<Vec<u8>, AllocError>
    ensures { IfOk result (λ text. text.items ≡ caller_ids setup.now word.now) }
{
    let mut text = Vec::new(alloc);
    let (own, groups) = first_part(word, b',');
    put_own(&mut text, setup, own)?;
    put_groups(&mut text, b',', setup.groups(), groups)?;
    Ok(text)
}
