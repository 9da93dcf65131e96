//! The items of the input: `KIND LENGTH`, a line end, and so many bytes.
ghost use Rattle.std.specs.Prelude.{◌<◌, length, IfSome};

use qtext::{first_part, number};

/// What a text is to be read as.
#[derive(Clone, Copy)]
pub(crate) enum Kind {
    Script,
    Journal,
    Config,
}

/// A text, and what it is to be read as.
#[derive(Clone, Copy)]
pub(crate) struct Item<'a> {
    pub(crate) kind: Kind,
    pub(crate) text: &'a [u8],
}

/// The kind of that name.
fn kind_of(word: &[u8]) -> Option<Kind> {
    if word == b"script".as_slice() {
        return Some(Kind::Script);
    }
    if word == b"journal".as_slice() {
        return Some(Kind::Journal);
    }
    if word == b"config".as_slice() {
        return Some(Kind::Config);
    }
    None
}

/// The kind and the length that a head tells.
fn head_of(head: &[u8]) -> Option<(Kind, usize)> {
    let (kind, len) = first_part(head, b' ');
    match number(len?) {
        Ok(len) => Some((kind_of(kind)?, len as usize)),
        Err(_) => None,
    }
}

/// The first item of an input, and what stands after it, where the input begins with one.
pub(crate) fn next_item(input: &[u8]) -> Option<(Item<'_>, &[u8])>
    ensures shorter { IfSome result (λ found. length found.1.now < length input.now) }
{
    let (head, after) = first_part(input, b'\n');
    let after = after?;
    let (kind, len) = head_of(head)?;
    if after.len() < len {
        return None;
    }
    let (text, rest) = after.split_at(len);
    Some((Item { kind, text }, rest))
}
