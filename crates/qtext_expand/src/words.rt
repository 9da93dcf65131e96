//! The words of a friendly line, and words put together again.
ghost use Rattle.std.specs.Prelude.{◌≡◌, ◌++◌, ◌∷◌, [], map, decimal, IfOk};
ghost use Rattle.qtext.specs.Pieces.{piece_text};
ghost use Rattle.qtext_expand.specs.FriendlyWords.{begins, friendly_words, some_word, spaced};

use itoa::Buffer;
use qtext::{Piece, put_pieces};
use std::alloc::{AllocError, Global};

pub(crate) fn begins(byte: u8, word: &[u8]) -> bool
    ensures { result ≡ begins byte word.now }
{
    match word {
        [] => false,
        [first, ..] => *first == byte,
    }
}

/// Puts a word after those that are there, unless it has no byte.
fn put_some<'a>(said: &mut Vec<&'a [u8]>, word: &'a [u8]) -> Result<(), AllocError>
    ensures { IfOk result (λ _. map (λ word. word.now) said.new.items
        ≡ map (λ word. word.now) said.old.items ++ some_word word.now) }
{
    if !word.is_empty() {
        said.push(word)?;
    }
    Ok(())
}

/// Words up to one that begins with a number sign, without those of no byte.
pub(crate) fn friendly_words<'a>(
    alloc: Global,
    words: &[&'a [u8]],
) -> Result<Vec<&'a [u8]>, AllocError>
    ensures { IfOk result (λ said. map (λ word. word.now) said.items
        ≡ friendly_words (map (λ word. word.now) words.now)) }
{
    let mut said = Vec::new(alloc);
    for word in words {
        if begins(b'#', word) {
            return Ok(said);
        }
        put_some(&mut said, word)?;
    }
    Ok(said)
}

/// Puts a space and a piece after what is there.
pub(crate) fn put_spaced(text: &mut Vec<u8>, piece: Piece<'_>) -> Result<(), AllocError>
    ensures { IfOk result (λ _. text.new.items ≡ text.old.items ++ 32 ∷ piece_text piece.entry) }
{
    match put_pieces(text, &[Piece::Text(b" "), piece]) {
        Ok(()) => Ok(()),
        Err(_) => Err(AllocError),
    }
}

pub(crate) fn text_of(alloc: Global, pieces: &[Piece<'_>]) -> Result<Vec<u8>, AllocError>
    ensures { IfOk result (λ text. text.items ≡ spaced (map piece_text pieces.now)) }
{
    let mut text = Vec::new(alloc);
    for piece in pieces {
        put_spaced(&mut text, *piece)?;
    }
    Ok(text)
}

/// Puts words after what is there, with a space before each.
pub(crate) fn put_words(text: &mut Vec<u8>, words: &[&[u8]]) -> Result<(), AllocError>
    ensures { IfOk result (λ _. text.new.items ≡ text.old.items ++ spaced (map (λ word. word.now) words.now)) }
{
    for word in words {
        put_spaced(text, Piece::Text(word))?;
    }
    Ok(())
}

/// Puts a number in decimal digits after what is there.
pub(crate) fn put_number(text: &mut Vec<u8>, n: u64) -> Result<(), AllocError>
    ensures { IfOk result (λ _. text.new.items ≡ text.old.items ++ decimal n) }
{
    let mut buffer = Buffer::new();
    text.extend_from_slice(buffer.format(n).as_bytes())
}

pub(crate) fn alone(alloc: Global, call: Vec<u8>) -> Result<Vec<Vec<u8>>, AllocError>
    ensures { IfOk result (λ calls. map (λ call. call.items) calls.items ≡ call.items ∷ []) }
{
    let mut calls = Vec::new(alloc);
    calls.push(call)?;
    Ok(calls)
}
