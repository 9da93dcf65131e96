//! The lines of a text, read one after the other: the loop of scripts and journals.
ghost use Rattle.std.specs.Prelude.{◌≡◌, ◌≤◌, ◌<◌, ◌+◌, ◌^◌, ℕ, true, map, length, Result, IfOk, OnOk};
ghost use Rattle.std.specs.List.{list_all};
ghost use Rattle.qtext.specs.declared.text_fault.TextKind.{TextKind};
ghost use Rattle.qtext.specs.Gives.{Reads};
ghost use Rattle.qtext.specs.Reading.{each_of};
ghost use Rattle.qtext.specs.Words.{is_text_byte, parts, words as words_of};
ghost use Rattle.qtext_files.specs.Added.{Adds};
ghost use Rattle.qtext_files.specs.RawLines.{RawLine, in_line, raw_lines_from};

use crate::raw_line::{NextLine, next_line};
use qrules::Items;
use qtext::{ReadFault, TextFault, TextKind};
use std::alloc::Global;

/// What the lines of a text are read as.
pub(crate) trait ReadLine<'a> {
    type Item: Drop;

    /// What a line says, or the first thing wrong in it.
    ghost says: { Self → RawLine → Result Self.Item TextKind };

    /// The number of the last line that there may be.
    ghost most: { Self → ℕ };

    /// Reads the line of that number, whose words these are, and puts it behind others. So it is put together where it
    /// comes to stand.
    fn read(
        &mut self,
        number: u64,
        line: &NextLine<'a>,
        words: &[&'a [u8]],
        items: &mut Vec<Self::Item>,
    ) -> Result<(), ReadFault>
        requires bytes { line.now.is_text ≡ list_all is_text_byte line.now.bytes.now }
        requires words { line.now.is_text ≡ true → map (λ word. word.now) words.now ≡ words_of line.now.bytes.now }
        ensures reads { Adds items.old.items items.new.items result
            (says self.old (record { number = number; bytes = line.now.bytes.now; whole = line.now.whole })) }
        ensures few { OnOk result (number ≤ most self.old) }
        ensures same { (l : RawLine) → says self.new l ≡ says self.old l }
        ensures same_most { most self.new ≡ most self.old };
}

/// The fault out of memory, whatever a text says.
pub(crate) const WANT_OF_MEMORY: TextFault = TextFault {
    line: 0,
    kind: TextKind::Memory,
};

/// What the lines of a text say, after N others, or the first line at fault.
pub(crate) fn read_lines<'a, R: ReadLine<'a>>(
    alloc: Global,
    reader: &mut R,
    before: u64,
    text: &'a [u8],
) -> Result<Items<R::Item>, TextFault>
    requires behind { before ≤ R.most reader.old }
    requires most { R.most reader.old < 2 ^ 32 }
    ensures lines { Reads result
        (each_of (λ l. in_line l.number (R.says reader.old l)) (raw_lines_from (before + 1) (parts 10 text.now))) }
    ensures few { IfOk result (λ items. before + length items ≤ R.most reader.old) }
{
    let mut items = Vec::new(alloc);
    let mut room = Vec::new(alloc);
    let mut rest = text;
    let mut number = before;
    while !rest.is_empty() {
        number += 1;
        let Ok(next) = next_line(&mut room, rest) else {
            return Err(WANT_OF_MEMORY);
        };
        match reader.read(number, &next, &room, &mut items) {
            Ok(()) => {}
            Err(ReadFault::Memory) => return Err(WANT_OF_MEMORY),
            Err(ReadFault::Fault(kind)) => return Err(TextFault { line: number, kind }),
        }
        rest = next.after;
    }
    Ok(Items::new(items))
}
