//! `fill` of any size, by pieces.
ghost use Rattle.std.specs.Prelude.{◌≡◌, ◌≤◌, ◌<◌, ◌+◌, ◌*◌, ◌^◌, map, IfOk};
ghost use Rattle.qtext_expand.specs.FriendlyCalls.{fill_as_told, fill_calls, piece_call, pieces_in, pieces_of};
ghost use Rattle.qtext_expand.specs.GivesAs.{GivesTexts};

use crate::value::{Measure, measured, value};
use crate::words::{alone, text_of};
use qplain::MAX_LINES;
use qtext::{Piece, ReadFault, TextKind};
use std::alloc::{AllocError, Global};

/// As many bytes has a piece, which is as many as one call may write.
const PIECE: u64 = 65_536;

#[derive(Clone, Copy)]
struct Filled<'a> {
    path: &'a [u8],
    off: u64,
    count: u64,
    byte: &'a [u8],
}

/// How many pieces so many bytes have: no bytes have one.
fn pieces_in(count: u64) -> u64
    ensures { result ≡ pieces_in count }
{
    if count == 0 { 1 } else { count.div_ceil(PIECE) }
}

fn piece_call(alloc: Global, filled: Filled<'_>, i: u64) -> Result<Vec<u8>, AllocError>
    requires end { filled.off + filled.count < 2 ^ 64 }
    requires within { i * PIECE ≤ filled.count }
    ensures { IfOk result (λ call. call.items
        ≡ piece_call filled.entry.path.now filled.entry.byte.now filled.entry.off filled.entry.count i) }
{
    let before = i * PIECE;
    let len = (filled.count - before).min(PIECE);
    text_of(
        alloc,
        &[
            Piece::Text(b"fill"),
            Piece::Text(filled.path),
            Piece::Number(filled.off + before),
            Piece::Number(len),
            Piece::Text(filled.byte),
        ],
    )
}

/// All pieces, unless they are more than a script may have lines.
fn pieces_of(alloc: Global, filled: Filled<'_>) -> Result<Vec<Vec<u8>>, ReadFault>
    requires { filled.off + filled.count < 2 ^ 64 }
    ensures { GivesTexts result
        (pieces_of filled.entry.path.now filled.entry.byte.now filled.entry.off filled.entry.count) }
{
    let pieces = pieces_in(filled.count);
    if pieces > MAX_LINES as u64 {
        return Err(ReadFault::Fault(TextKind::TooMany));
    }
    let mut calls = Vec::new(alloc);
    for i in 0..pieces {
        calls.push(piece_call(alloc, filled, i)?)?;
    }
    Ok(calls)
}

/// A fill as its words tell it, with their units worked out.
fn as_told<'a>(
    alloc: Global,
    path: &'a [u8],
    off: &'a [u8],
    count: &'a [u8],
    byte: &'a [u8],
) -> Result<Vec<Vec<u8>>, AllocError>
    ensures { IfOk result (λ calls. map (λ call. call.items) calls.items
        ≡ fill_as_told path.now off.now count.now byte.now) }
{
    let off = measured(Measure::Bytes, off)?;
    let count = measured(Measure::Bytes, count)?;
    let call = text_of(
        alloc,
        &[
            Piece::Text(b"fill"),
            Piece::Text(path),
            off,
            count,
            Piece::Text(byte),
        ],
    )?;
    alone(alloc, call)
}

/// `fill PATH OFF COUNT BYTE`, by pieces of 65,536 bytes.
#[tactic(auto, unfolding(crate::specs::FriendlyCalls::fill_calls))]
pub(crate) fn fill_calls(
    alloc: Global,
    path: &[u8],
    off: &[u8],
    count: &[u8],
    byte: &[u8],
) -> Result<Vec<Vec<u8>>, ReadFault>
    ensures { GivesTexts result (fill_calls path.now off.now count.now byte.now) }
{
    if let (Some(off), Some(count)) = (value(Measure::Bytes, off)?, value(Measure::Bytes, count)?) {
        if off.checked_add(count).is_some() {
            let filled = Filled {
                path,
                off,
                count,
                byte,
            };
            return pieces_of(alloc, filled);
        }
    }
    Ok(as_told(alloc, path, off, count, byte)?)
}
