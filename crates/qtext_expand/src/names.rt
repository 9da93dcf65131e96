//! Ids in place of names.
ghost use Rattle.std.specs.Prelude.{◌≡◌};
ghost use Rattle.qtext.specs.Pieces.{piece_text};
ghost use Rattle.qtext_expand.specs.Names.{id_named, named_text, principals_of};

use qplain::{Principal, Setup};
use qtext::Piece;

#[tactic(auto, unfolding(crate::specs::Names::id_named))]
pub(crate) fn id_named(name: &[u8], principals: &[Principal]) -> Option<u32>
    ensures { result ≡ id_named name.now principals.now }
{
    match principals {
        [] => None,
        [first, rest @ ..] => {
            if first.name.as_str().as_bytes() == name {
                return Some(first.id);
            }
            id_named(name, rest)
        }
    }
}

/// An id in place of a name; any other word stays.
pub(crate) fn named<'a>(principals: &[Principal], word: &'a [u8]) -> Piece<'a>
    ensures { piece_text result ≡ named_text principals.now word.now }
{
    match id_named(word, principals) {
        Some(id) => Piece::Number(u64::from(id)),
        None => Piece::Text(word),
    }
}

/// The principals of the kind that a word names; of another there are none.
#[tactic(auto, unfolding(crate::specs::Names::principals_of))]
pub(crate) fn principals_of<'a>(setup: &'a Setup, kind: &[u8]) -> &'a [Principal]
    ensures { result.now ≡ principals_of setup.now kind.now }
{
    if kind == b"user".as_slice() {
        return setup.users();
    }
    if kind == b"group".as_slice() {
        return setup.groups();
    }
    if kind == b"project".as_slice() {
        return setup.projects();
    }
    &[]
}
