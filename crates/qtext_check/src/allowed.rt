//! What may stand in the place of a word at fault.

use crate::fault::Wrong;
use crate::near::{MOST_DIFFERING, difference};
use qplain::Refusal;
use qtext::{Piece, TextKind, Written, put, put_pieces};
use qtext_read::{Argument, VERBS, Verb, row_of, verb_of, verb_word};
use std::io::Write;

/// The kinds of principals.
const KINDS: [&str; 3] = ["user", "group", "project"];

const MOMENT: &str = "a moment in seconds, 0 to 1099511627776";

/// How an argument stands in the form of a call.
fn sign(argument: Argument) -> &'static str {
    match argument {
        Argument::Path => "PATH",
        Argument::From => "FROM",
        Argument::To => "TO",
        Argument::Offset => "OFF",
        Argument::Size => "SIZE",
        Argument::Length => "LEN",
        Argument::Data => "DATA",
        Argument::Count => "COUNT",
        Argument::Byte => "BYTE",
        Argument::Uid => "UID",
        Argument::Gid => "GID",
        Argument::Project => "[PROJECT]",
        Argument::Kind => "KIND",
        Argument::Id => "ID",
        Argument::BlockSoft => "BSOFT",
        Argument::BlockHard => "BHARD",
        Argument::InodeSoft => "ISOFT",
        Argument::InodeHard => "IHARD",
        Argument::BlockGrace => "BLOCK",
        Argument::InodeGrace => "INODE",
    }
}

/// Writes all verbs, one of which may stand there.
fn put_verbs<W: Write>(out: &mut W) -> Written {
    let verbs: &[Verb] = &VERBS;
    let [first, others @ .., last] = verbs else {
        return Ok(());
    };
    put(out, verb_word(*first))?;
    for verb in others {
        put_pieces(out, &[Piece::Text(b", "), Piece::Text(verb_word(*verb))])?;
    }
    put_pieces(out, &[Piece::Text(b" or "), Piece::Text(verb_word(*last))])
}

/// Writes the words that a call has.
fn put_form<W: Write>(out: &mut W, verb: Verb) -> Written {
    put(out, verb_word(verb))?;
    for argument in row_of(verb) {
        let sign = sign(*argument).as_bytes();
        put_pieces(out, &[Piece::Text(b" "), Piece::Text(sign)])?;
    }
    Ok(())
}

/// What the argument of a call is in a line of a script.
fn argument_words(argument: Argument) -> &'static str {
    match argument {
        Argument::Path | Argument::From | Argument::To => "a path, which begins with /",
        Argument::Data => "hexadecimal digits, two a byte, or -",
        Argument::Count => "how many bytes, 0 to 65536",
        Argument::Byte => "two hexadecimal digits",
        Argument::Uid | Argument::Gid => "an id, 0 to 4294967295, or -",
        Argument::Project | Argument::Id => "an id, 0 to 4294967295",
        Argument::Kind => "user, group or project",
        _ => "a number, 0 to 18446744073709551615",
    }
}

/// The argument of a call of this verb that is the word of that number of its line, from 0, where it is one.
fn argument_at(verb: &[u8], word: usize) -> Option<Argument> {
    match (verb_of(verb), word.checked_sub(3)) {
        (Ok(verb), Some(index)) => row_of(verb).get(index).copied(),
        _ => None,
    }
}

/// What the word of a line of a script is.
fn word_words(verb: &[u8], word: usize) -> &'static str {
    match word {
        0 => MOMENT,
        1 => "UID:GID, then at most 16 times ,GROUP",
        _ => match argument_at(verb, word) {
            Some(argument) => argument_words(argument),
            None => "no word",
        },
    }
}

fn path_words(refusal: Refusal) -> &'static str {
    match refusal {
        Refusal::ENAMETOOLONG => "a path of at most 4095 bytes, 255 between two /",
        _ => "a path that begins with /, with no part that is empty, . or ..",
    }
}

/// What the argument of a call is that a store may take.
fn lawful_argument(argument: Argument, refusal: Refusal) -> &'static str {
    match argument {
        Argument::Path | Argument::From | Argument::To => path_words(refusal),
        Argument::Uid | Argument::Gid | Argument::Project | Argument::Id => {
            "an id that the configuration declares"
        }
        Argument::BlockSoft | Argument::BlockHard | Argument::InodeSoft | Argument::InodeHard =>
            "a limit, 0 to 1099511627776",
        Argument::BlockGrace | Argument::InodeGrace => "a grace in seconds, 1 to 4294967295",
        Argument::Length | Argument::Data | Argument::Count => "at most 65536 bytes",
        Argument::Offset | Argument::Size | Argument::Byte | Argument::Kind => {
            argument_words(argument)
        }
    }
}

/// What the word of a line is that a store may take.
fn lawful_words(verb: &[u8], word: usize, refusal: Refusal) -> &'static str {
    match word {
        0 => MOMENT,
        1 => "a user and groups that the configuration declares",
        _ => match argument_at(verb, word) {
            Some(argument) => lawful_argument(argument, refusal),
            None => "no word",
        },
    }
}

/// What may stand in a line of this verb in place of the word of that number, from 0, or of the line.
fn allowed_words(wrong: Wrong, verb: &[u8], word: usize) -> &'static str {
    match wrong {
        Wrong::Text(TextKind::Cut) => "a line feed at the end of the line",
        Wrong::Text(TextKind::BadByte) => "a space, or a byte from 0x21 to 0x7e",
        Wrong::Text(TextKind::TooMany) => "at most 65536 lines",
        Wrong::Text(_) => word_words(verb, word),
        Wrong::Refused(refusal) => lawful_words(verb, word, refusal),
    }
}

/// Writes what may stand in a line of this verb in place of the word of that number, from 0.
pub(crate) fn put_allowed<W: Write>(
    out: &mut W,
    wrong: Wrong,
    verb: &[u8],
    word: usize,
) -> Written {
    match (wrong, verb_of(verb)) {
        (Wrong::Text(TextKind::WordCount), Ok(verb)) => put_form(out, verb),
        (Wrong::Text(TextKind::BadVerb | TextKind::WordCount), _) => put_verbs(out),
        _ => put(out, allowed_words(wrong, verb, word).as_bytes()),
    }
}

/// The call that does what a verb of a shell or of the quota tools does.
fn call_meant(verb: &[u8]) -> Option<&'static [u8]> {
    match verb {
        b"touch" => Some(b"create"),
        b"cat" => Some(b"read"),
        b"ln" => Some(b"link"),
        b"mv" => Some(b"rename"),
        b"rm" | b"del" | b"remove" => Some(b"unlink"),
        b"getquota" => Some(b"quota"),
        _ => None,
    }
}

/// The first verb from which a word differs by at most so many bytes.
fn verb_within(word: &[u8], most: usize) -> Option<&'static [u8]> {
    for verb in VERBS {
        let verb = verb_word(verb);
        if difference(word, verb) <= most {
            return Some(verb);
        }
    }
    None
}

/// The verb that a word is nearly: the first of those from which it differs least.
fn near_verb(word: &[u8]) -> Option<&'static [u8]> {
    for most in 0..=MOST_DIFFERING {
        match verb_within(word, most) {
            Some(verb) => return Some(verb),
            None => {}
        }
    }
    None
}

fn near_kind(word: &[u8]) -> Option<&'static [u8]> {
    for kind in KINDS {
        if difference(word, kind.as_bytes()) <= MOST_DIFFERING {
            return Some(kind.as_bytes());
        }
    }
    None
}

/// A word that is near to one at fault, where there is one.
pub(crate) fn near_words(
    wrong: Wrong,
    verb: &[u8],
    number: usize,
    word: &[u8],
) -> Option<&'static [u8]> {
    match wrong {
        Wrong::Text(TextKind::BadVerb) => call_meant(word).or(near_verb(word)),
        Wrong::Text(TextKind::BadWord) => match argument_at(verb, number) {
            Some(Argument::Kind) => near_kind(word),
            _ => None,
        },
        _ => None,
    }
}
