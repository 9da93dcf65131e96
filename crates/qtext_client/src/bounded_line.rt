//! The lines of a reader, one after the other, each up to a bound.
ghost use Rattle.std.specs.Prelude.{◌≡◌, ◌<◌, ◌≤◌, ◌⊎◌, ◌^◌, [], length, vec_len};
ghost use Rattle.std.specs.Io.BufRead.{take_through};
ghost use Rattle.qtext_client.specs.BoundedLines.{Gets, PassesOver, PassesPart, TakesPart, TakesTurns};
ghost use Rattle.qtext_client.specs.declared.bounded_line.TheConstants.{MAX_LINE};
ghost use Rattle.qtext_client.specs.declared.bounded_line.Got.TheVariants.{Refused};
ghost use Rattle.qtext_client.specs.declared.turns.TheConstants.{KIB};

use crate::moments::Moments;
use crate::turns::{KIB, Turns, await_turns};
use qlanes::first_place;
use std::io::{BufRead, ErrorKind};

/// The longest line, in bytes, with its line end.
pub const MAX_LINE: usize = 262_144;

/// What came of the next line.
#[derive(Clone, Copy, Debug, PartialEq, Eq)]
pub enum Got {
    /// It stands in the room, with its line end, or without one where the input has ended behind it.
    Text,
    /// It is longer than the bound. All of it was passed over.
    TooLong,
    /// There was no memory for it. All of it was passed over.
    NoMemory,
    /// There is no more.
    End,
    /// The reader refuses. What it gave of the line is lost.
    Refused,
}

/// What came of the part of a line that a reader shows.
#[derive(Clone, Copy, Debug, PartialEq, Eq)]
pub(crate) enum LinePart {
    /// It was taken, and is the last of the line.
    Last,
    /// It was taken, and more may come.
    More,
    /// It was not taken: with it the line is longer than the bound.
    TooLong,
    /// It was not taken: there was no memory for it.
    NoMemory,
    /// There is none, since the reader refuses.
    Refused,
}

/// What came of the part of a line that a reader shows and that is passed over.
#[derive(Clone, Copy, Debug, PartialEq, Eq)]
pub(crate) enum Passed {
    /// It is the last of the line.
    Last,
    /// More may come, and so many bytes have taken no turn yet.
    More(u64),
    /// There is none, since the reader refuses.
    Refused,
}

/// How many bytes stand up to the first line end, with it, or in all.
fn len_through(shown: &[u8]) -> usize
    ensures line { result ≡ length (take_through 10 shown.now) }
    ensures bound { result ≤ length shown.now }
    ensures few { result < 2 ^ 63 }
{
    let at = first_place(shown, b'\n');
    if at < shown.len() {
        at + 1
    } else {
        shown.len()
    }
}

/// Takes the part of a line that the reader shows, where the line stays within the bound.
fn take_part<R: BufRead>(reader: &mut R, line: &mut Vec<u8>) -> LinePart
    requires { vec_len line.old ≤ MAX_LINE }
    ensures takes { TakesPart (R.remaining reader.old) (R.remaining reader.new) line.old.items line.new.items result }
    ensures short { vec_len line.new ≤ MAX_LINE }
{
    let shown = match reader.fill_buf() {
        Ok(shown) => shown,
        Err(error) if error.kind() == ErrorKind::Interrupted => return LinePart::More,
        Err(_) => return LinePart::Refused,
    };
    let end = len_through(shown);
    if end == 0 {
        return LinePart::Last;
    }
    if end > MAX_LINE - line.len() {
        return LinePart::TooLong;
    }
    if line.extend_from_slice(&shown[..end]).is_err() {
        return LinePart::NoMemory;
    }
    let last = shown[end - 1] == b'\n';
    reader.consume(end);
    if last { LinePart::Last } else { LinePart::More }
}

/// Passes over the part of a line that the reader shows, and takes a turn for each KiB of it and of so many bytes
/// before it, fewer than a KiB, that have taken none.
fn pass_part<R: BufRead, M: Moments>(
    reader: &mut R,
    turns: &mut Option<Turns>,
    moments: &M,
    left: u64,
) -> Passed
    requires { left < KIB }
    ensures { PassesPart left (R.remaining reader.old) (R.remaining reader.new) turns.old turns.new result }
{
    let shown = match reader.fill_buf() {
        Ok(shown) => shown,
        Err(error) if error.kind() == ErrorKind::Interrupted => return Passed::More(left),
        Err(_) => return Passed::Refused,
    };
    let len = len_through(shown);
    if len == 0 {
        return Passed::Last;
    }
    let last = shown[len - 1] == b'\n';
    reader.consume(len);
    let due = left + len as u64;
    await_turns(turns, moments, due / KIB);
    if last {
        Passed::Last
    } else {
        Passed::More(due % KIB)
    }
}

/// Passes over a line of which the room has the beginning, and empties the room. What came of it is this, unless the
/// reader refuses. Each part takes its turns as soon as it was read: a line that does not end costs what others do.
fn pass<R: BufRead, M: Moments>(
    reader: &mut R,
    line: &mut Vec<u8>,
    turns: &mut Option<Turns>,
    moments: &M,
    got: Got,
) -> Got
    ensures over { (result ≡ Refused) ⊎ ((result ≡ got) × PassesOver (vec_len line.old) (R.remaining reader.old)
        (R.remaining reader.new) turns.old turns.new) }
    ensures empty { line.new.items ≡ [] }
{
    let read = line.len() as u64;
    line.clear();
    await_turns(turns, moments, read / KIB);
    let mut left = read % KIB;
    for _ in 0..u64::MAX {
        match pass_part(reader, turns, moments, left) {
            Passed::Last => return got,
            Passed::More(rest) => left = rest,
            Passed::Refused => return Got::Refused,
        }
    }
    Got::Refused
}

/// Reads the next line into the room, in place of what it holds. One that is passed over takes its turns by then.
pub fn next_line<R: BufRead, M: Moments>(
    reader: &mut R,
    line: &mut Vec<u8>,
    turns: &mut Option<Turns>,
    moments: &M,
) -> Got
    ensures gets { Gets (R.remaining reader.old) (R.remaining reader.new) line.new.items result }
    ensures short { vec_len line.new ≤ MAX_LINE }
    ensures turns { TakesTurns (R.remaining reader.old) result turns.old turns.new }
{
    line.clear();
    for _ in 0..u64::MAX {
        match take_part(reader, line) {
            LinePart::Last if line.is_empty() => return Got::End,
            LinePart::Last => return Got::Text,
            LinePart::More => {}
            LinePart::TooLong => return pass(reader, line, turns, moments, Got::TooLong),
            LinePart::NoMemory => return pass(reader, line, turns, moments, Got::NoMemory),
            LinePart::Refused => return Got::Refused,
        }
    }
    Got::Refused
}
