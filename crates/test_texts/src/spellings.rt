//! The one spelling of a script's text, made of its words alone: `fill` is the write that it is, data are in lower
//! case, and all else is as it stands.

use qtext::{cut_line, number};
use std::alloc::{AllocError, Global};

/// Puts a word in lower case.
fn put_lower(out: &mut Vec<u8>, word: &[u8]) -> Result<(), AllocError> {
    for byte in word {
        out.push(byte.to_ascii_lowercase())?;
    }
    Ok(())
}

/// Puts the data of a fill: so many times the byte, or a dash for none.
fn put_fill(out: &mut Vec<u8>, count: &[u8], byte: &[u8]) -> Result<(), AllocError> {
    let count = number(count).unwrap_or(0);
    if count == 0 {
        out.push(b'-')?;
    }
    for _ in 0..count {
        put_lower(out, byte)?;
    }
    Ok(())
}

/// Puts words, each with a space after it.
fn put_front(out: &mut Vec<u8>, words: &[&[u8]]) -> Result<(), AllocError> {
    for word in words {
        out.extend_from_slice(word)?;
        out.push(b' ')?;
    }
    Ok(())
}

/// Puts the last word of a line, which of a write is its data.
fn put_last(out: &mut Vec<u8>, front: &[&[u8]], word: &[u8]) -> Result<(), AllocError> {
    match front {
        [_, _, verb, _, _] if *verb == b"write".as_slice() => put_lower(out, word),
        _ => out.extend_from_slice(word),
    }
}

/// Puts the words of a line.
fn put_words(out: &mut Vec<u8>, words: &[&[u8]]) -> Result<(), AllocError> {
    match words {
        [moment, caller, verb, path, off, count, byte] if *verb == b"fill".as_slice() => {
            put_front(out, &[*moment, *caller, b"write", *path, *off])?;
            put_fill(out, count, byte)
        }
        [front @ .., last] => {
            put_front(out, front)?;
            put_last(out, front, last)
        }
        [] => Ok(()),
    }
}

/// The one spelling of a text whose lines are whole.
pub(crate) fn one_spelling(alloc: Global, text: &[u8]) -> Result<Vec<u8>, AllocError> {
    let mut out = Vec::new(alloc);
    let mut room = Vec::new(alloc);
    let mut rest = text;
    while !rest.is_empty() {
        let line = cut_line(&mut room, rest)?;
        put_words(&mut out, &room)?;
        out.push(b'\n')?;
        rest = line.after.unwrap_or(&[]);
    }
    Ok(out)
}
