ghost use Rattle.std.specs.Prelude.{◌≡◌, ◌≢◌, ◌<◌, ◌∷◌, true, false, map, length, take, slice_index, IfOk, IfSome};
ghost use Rattle.std.specs.Prelude.{IsNone};
ghost use Rattle.std.specs.Option.{option_map};
ghost use Rattle.std.specs.List.{list_all};
ghost use Rattle.qtext.specs.Words.{is_text_byte, parts, words, parts_after};

use crate::first_part;
use crate::printing::word_at;
use std::alloc::AllocError;

/// A line that was cut from the head of a text.
#[derive(Clone, Copy, Debug)]
pub struct CutLine<'a> {
    /// The line, with no line end.
    pub bytes: &'a [u8],
    /// What stands after its line end, where there is one.
    pub after: Option<&'a [u8]>,
    /// Whether each of its bytes is a space or one that prints.
    pub is_text: bool,
}

/// A line in which that byte is neither a space nor one that prints.
fn no_text(text: &[u8], at: usize) -> CutLine<'_>
    requires within { at < length text.now }
    requires before { list_all is_text_byte (take at text.now) ≡ true }
    requires byte { is_text_byte (slice_index text.now at) ≡ false }
    requires inside { slice_index text.now at ≢ 10 }
    ensures parts { parts 10 text.now
        ≡ result.bytes.now ∷ parts_after 10 (option_map (λ after. after.now) result.after) }
    ensures whole { IsNone result.after → result.bytes.now ≡ text.now }
    ensures shorter { IfSome result.after (λ after. length after.now < length text.now) }
    ensures no_text { list_all is_text_byte result.bytes.now ≡ false }
    ensures told { result.is_text ≡ false }
{
    let (bytes, after) = first_part(text, b'\n');
    CutLine {
        bytes,
        after,
        is_text: false,
    }
}

/// Cuts the first line from a text, and puts its words in place of the old ones, in one pass over its bytes. Where a
/// byte of the line is neither a space nor one that prints, the room holds some of its words.
pub fn cut_line<'a>(room: &mut Vec<&'a [u8]>, text: &'a [u8]) -> Result<CutLine<'a>, AllocError>
    ensures parts { IfOk result (λ line. parts 10 text.now
        ≡ line.bytes.now ∷ parts_after 10 (option_map (λ after. after.now) line.after)) }
    ensures whole { IfOk result (λ line. IsNone line.after → line.bytes.now ≡ text.now) }
    ensures shorter { IfOk result (λ line. IfSome line.after (λ after. length after.now < length text.now)) }
    ensures bytes { IfOk result (λ line. line.is_text ≡ list_all is_text_byte line.bytes.now) }
    ensures words { IfOk result (λ line. line.is_text ≡ true
        → map (λ word. word.now) room.new.items ≡ words line.bytes.now) }
{
    room.clear();
    let mut start = 0;
    loop {
        let (word, end) = word_at(text, start);
        room.push(word)?;
        if end == text.len() {
            return Ok(CutLine {
                bytes: text,
                after: None,
                is_text: true,
            });
        }
        match text[end] {
            b' ' => start = end + 1,
            b'\n' => {
                return Ok(CutLine {
                    bytes: text.split_at(end).0,
                    after: Some(text.split_at(end + 1).1),
                    is_text: true,
                });
            }
            _ => return Ok(no_text(text, end)),
        }
    }
}
