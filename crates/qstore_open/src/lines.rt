//! The lines of an image behind its head, taken in one after the other.
ghost use Rattle.std.specs.Prelude.{◌≡◌, ◌<◌, ◌+◌, ◌^◌, ℕ, List, true, map};
ghost use Rattle.std.specs.List.{list_all};
ghost use Rattle.qtext.specs.Words.{is_text_byte, parts, words as words_of};
ghost use Rattle.qtext_files.specs.RawLines.{raw_lines_from};
ghost use Rattle.qplain_image.specs.Rows.{Row as ImageRowOf};
ghost use Rattle.qstore_open.specs.declared.image_kind.ImageKind.TheVariants.{Text};
ghost use Rattle.qstore_open.specs.declared.row_fault.RowFault.TheVariants.{Row};
ghost use Rattle.qstore_open.specs.ReadTo.{IsBehind, TakesLine, TakesLines, in_line};
ghost use Rattle.qstore_open.specs.Told.{nothing_told};

use crate::image_fault::ImageFault;
use crate::image_kind::ImageKind;
use crate::open_fault::OpenFault;
use crate::opening::Opening;
use crate::row_fault::RowFault;
use qtext::{ReadFault, TextKind};
use qtext_files::{NextLine, next_line};
use qtext_image_read::{ImageLine, read_line};
use std::alloc::Global;

/// What a line was that was taken in.
#[derive(Clone, Copy, Debug)]
enum Taken {
    Row,
    /// The last line.
    End,
}

/// Takes in a line.
fn take_line(opening: &mut Opening, line: &NextLine, words: &[&[u8]]) -> Result<Taken, RowFault>
    requires bytes { line.now.is_text ≡ list_all is_text_byte line.now.bytes.now }
    requires words { line.now.is_text ≡ true → map (λ word. word.now) words.now ≡ words_of line.now.bytes.now }
    ensures { (n : ℕ) → TakesLine (record { number = n; bytes = line.now.bytes.now; whole = line.now.whole })
        opening.old opening.new result }
{
    match read_line(line, words) {
        Ok(ImageLine::End) => Ok(Taken::End),
        Ok(ImageLine::Row(row)) => match opening.take(&row) {
            Ok(()) => Ok(Taken::Row),
            Err(fault) => Err(fault),
        },
        Err(ReadFault::Memory) => Err(RowFault::Memory),
        Err(ReadFault::Fault(kind)) => Err(RowFault::Row(ImageKind::Text(kind))),
    }
}

/// What is told of a row's fault in this line.
fn in_line(line: u64, fault: RowFault) -> OpenFault
    ensures { result ≡ in_line line fault }
{
    match fault {
        RowFault::Memory => OpenFault::Memory,
        RowFault::Row(kind) => OpenFault::Image(ImageFault { line, kind }),
    }
}

/// What is wrong with the text of this line.
fn in_text(line: u64, kind: TextKind) -> OpenFault
    ensures { result ≡ in_line line (Row (Text kind)) }
{
    in_line(line, RowFault::Row(ImageKind::Text(kind)))
}

/// Tests that nothing stands behind the last line.
fn test_behind(line: u64, after: &[u8]) -> Result<(), OpenFault>
    requires { line + 1 < 2 ^ 64 }
    ensures { (limit : ℕ) (rows : List ImageRowOf)
        → IsBehind limit rows (raw_lines_from (line + 1) (parts 10 after.now)) result }
{
    if after.is_empty() {
        return Ok(());
    }
    Err(in_text(line + 1, TextKind::TooMany))
}

/// Takes in all lines up to the last, behind which none stands. The first of them is line 2.
pub fn take_lines(alloc: Global, opening: &mut Opening, text: &[u8]) -> Result<(), OpenFault>
    ensures { (limit : ℕ) → limit < 2 ^ 64 → opening.old ≡ nothing_told limit
        → TakesLines limit (raw_lines_from 2 (parts 10 text.now)) opening.new result }
{
    let mut room = Vec::new(alloc);
    let mut rest = text;
    let mut line = 2;
    while !rest.is_empty() {
        let next = next_line(&mut room, rest)?;
        match take_line(opening, &next, &room) {
            Ok(Taken::Row) => {}
            Ok(Taken::End) => return test_behind(line, next.after),
            Err(fault) => return Err(in_line(line, fault)),
        }
        rest = next.after;
        line += 1;
    }
    Err(in_text(line, TextKind::Cut))
}
