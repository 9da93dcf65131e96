//! A line of an image behind its head.
ghost use Rattle.std.specs.Prelude.{◌≡◌, ℕ, true, map};
ghost use Rattle.std.specs.List.{list_all};
ghost use Rattle.qtext.specs.Words.{is_text_byte, words as words_of};
ghost use Rattle.qtext_image.specs.Images.{is_end};
ghost use Rattle.qtext_image_read.specs.Lines.{TellsLine, line_in};

use crate::row::{ImageRow, row_in};
use qtext::{ReadFault, TextKind};
use qtext_files::NextLine;

/// A line of an image behind its head.
#[derive(Clone, Copy, Debug)]
pub enum ImageLine<'a> {
    /// `end`: the last line.
    End,
    Row(ImageRow<'a>),
}

/// Whether these are the words of the last line.
#[tactic(auto, unfolding(qtext_image::specs::Images::is_end))]
fn is_end(words: &[&[u8]]) -> bool
    ensures { result ≡ is_end (map (λ word. word.now) words.now) }
{
    match words {
        [word] => *word == b"end".as_slice(),
        _ => false,
    }
}

/// What a line of an image behind its head says, as `next_line` cut it, or the first thing wrong in it: no line feed, a
/// byte outside 0x20 to 0x7E, the verb, the count of words, the others from left to right. Data are in lower case,
/// numbers without leading zeros. O(bytes), no memory; an Err gives nothing.
///
/// Which rows may follow which, and what they have to fit, is not looked at.
#[tactic(auto, unfolding(crate::specs::Lines::line_in, qtext_image::specs::Images::words_of))]
pub fn read_line<'a>(line: &NextLine<'a>, words: &[&'a [u8]]) -> Result<ImageLine<'a>, ReadFault>
    // The line was cut into these words, if it is text.
    requires bytes { line.now.is_text ≡ list_all is_text_byte line.now.bytes.now }
    requires words { line.now.is_text ≡ true → map (λ word. word.now) words.now ≡ words_of line.now.bytes.now }

    // What it says, whatever its number.
    ensures exact { (n : ℕ) → TellsLine result
        (line_in (record { number = n; bytes = line.now.bytes.now; whole = line.now.whole })) }
{
    if !line.whole {
        return Err(ReadFault::Fault(TextKind::Cut));
    }
    if !line.is_text {
        return Err(ReadFault::Fault(TextKind::BadByte));
    }
    if is_end(words) {
        return Ok(ImageLine::End);
    }
    match row_in(words) {
        Ok(row) => Ok(ImageLine::Row(row)),
        Err(fault) => Err(fault),
    }
}
