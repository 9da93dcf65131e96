//! The next line of a text.
ghost use Rattle.std.specs.Prelude.{◌≡◌, ◌<◌, ◌+◌, ◌∷◌, ℕ, true, map, length, IfOk};
ghost use Rattle.std.specs.List.{list_all};
ghost use Rattle.qtext.specs.Words.{is_text_byte, parts, words};
ghost use Rattle.qtext_files.specs.RawLines.{raw_lines_from};

use qtext::cut_line;
use std::alloc::AllocError;

/// A line as it stands in a text.
#[derive(Clone, Copy, Debug)]
pub struct NextLine<'a> {
    /// The line, with no line end.
    pub bytes: &'a [u8],
    /// Whether a line end stands after it.
    pub whole: bool,
    /// Whether each of its bytes is a space or one that prints.
    pub is_text: bool,
    /// What follows.
    pub after: &'a [u8],
}

/// The first line of a text that is not empty.
///
/// Its words are put into the room, whatever that holds, so that lines share one allocation. Where a byte of it is
/// neither a space nor one that prints, the room holds some of its words. An Err says nothing of the text.
pub fn next_line<'a>(room: &mut Vec<&'a [u8]>, text: &'a [u8]) -> Result<NextLine<'a>, AllocError>
    requires { 0 < length text.now }
    ensures first { IfOk result (λ line. (n : ℕ) → raw_lines_from n (parts 10 text.now)
        ≡ record { number = n; bytes = line.bytes.now; whole = line.whole }
        ∷ raw_lines_from (n + 1) (parts 10 line.after.now)) }
    ensures shorter { IfOk result (λ line. length line.after.now < length text.now) }
    ensures bytes { IfOk result (λ line. line.is_text ≡ list_all is_text_byte line.bytes.now) }
    ensures words { IfOk result (λ line. line.is_text ≡ true
        → map (λ word. word.now) room.new.items ≡ words line.bytes.now) }
{
    let line = cut_line(room, text)?;
    match line.after {
        Some(after) => Ok(NextLine {
            bytes: line.bytes,
            whole: true,
            is_text: line.is_text,
            after,
        }),
        None => Ok(NextLine {
            bytes: line.bytes,
            whole: false,
            is_text: line.is_text,
            after: &[],
        }),
    }
}
