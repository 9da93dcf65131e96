//! Lines as a script has them, by the reader of lines.
ghost use Rattle.std.specs.Prelude.{◌≡◌, map, true, IfOk};
ghost use Rattle.std.specs.List.{list_all};
ghost use Rattle.qtext.specs.Gives.{Gives};
ghost use Rattle.qtext.specs.Words.{is_text_byte, words as words_of};
ghost use Rattle.qtext_expand.specs.Plain.{plain_moment};

use qtext::{ReadFault, cut_line};
use qtext_files::{NextLine, read_line};
use qtext_read::Paths;
use std::alloc::{AllocError, Global};

/// Cuts a line that has no end into its words, and takes it as one that has.
fn whole_line<'a>(room: &mut Vec<&'a [u8]>, bytes: &'a [u8]) -> Result<NextLine<'a>, AllocError>
    ensures same { IfOk result (λ line. line.bytes.now ≡ bytes.now) }
    ensures whole { IfOk result (λ line. line.whole ≡ true) }
    ensures bytes { IfOk result (λ line. line.is_text ≡ list_all is_text_byte line.bytes.now) }
    ensures words { IfOk result (λ line. line.is_text ≡ true
        → map (λ word. word.now) room.new.items ≡ words_of line.bytes.now) }
{
    let cut = cut_line(room, bytes)?;
    match cut.after {
        None => Ok(NextLine {
            bytes,
            whole: true,
            is_text: cut.is_text,
            after: &[],
        }),
        // It has a line end in it, which is no text.
        Some(after) => Ok(NextLine {
            bytes,
            whole: true,
            is_text: false,
            after,
        }),
    }
}

/// The moment of a line with its end, if it is plain, or the first thing wrong in it.
pub(crate) fn line_moment<'a>(
    alloc: Global,
    line: &NextLine<'a>,
    words: &[&'a [u8]],
) -> Result<u64, ReadFault>
    requires whole { line.now.whole ≡ true }
    requires bytes { line.now.is_text ≡ list_all is_text_byte line.now.bytes.now }
    requires words { line.now.is_text ≡ true → map (λ word. word.now) words.now ≡ words_of line.now.bytes.now }
    ensures { Gives result (plain_moment line.now.bytes.now) }
{
    match read_line(alloc, &mut Paths::apart(), 1, line, words) {
        Ok(read) => Ok(read.moment),
        Err(fault) => Err(fault),
    }
}

/// The moment of a plain line, or the first thing wrong in it. The line has no end.
pub(crate) fn plain_moment(alloc: Global, bytes: &[u8]) -> Result<u64, ReadFault>
    ensures { Gives result (plain_moment bytes.now) }
{
    let mut room = Vec::new(alloc);
    let line = whole_line(&mut room, bytes)?;
    line_moment(alloc, &line, &room)
}
