//! Friendly scripts, whole.
ghost use Rattle.std.specs.Prelude.{◌≡◌, ◌≤◌, ◌<◌, ◌+◌, ◌++◌, ◌⊎◌, List, Ok, Err, IfOk, map, true, length};
ghost use Rattle.std.specs.List.{list_all};
ghost use Rattle.qplain.specs.declared.bounds.TheConstants.{MAX_LINES};
ghost use Rattle.qplain.specs.declared.line.Line.{Line};
ghost use Rattle.qtext.specs.Gives.{Reads};
ghost use Rattle.qtext.specs.TextFaults.{want_of_memory};
ghost use Rattle.qtext.specs.Words.{is_text_byte, words as words_of};
ghost use Rattle.qtext_files.specs.Scripts.{script_of};
ghost use Rattle.qtext_expand.specs.Expansions.{IsScript, expansion, written_after};
ghost use Rattle.qtext_expand.specs.FriendlyWords.{ended};
ghost use Rattle.qtext_expand.specs.GivesAs.{AreBytes, GivesBy, ReadsBytes};
ghost use Rattle.qtext_expand.specs.WrittenAs.{written_as};

use crate::line::{Expanded, Standing};
use qplain::{MAX_LINES, Setup};
use qtext::{ReadFault, TextFault, TextKind};
use qtext_files::{NextLine, next_line};
use std::alloc::{AllocError, Global};

/// The fault out of memory, whatever a text says.
const WANT_OF_MEMORY: TextFault = TextFault {
    line: 0,
    kind: TextKind::Memory,
};

/// Puts lines, with a line end after each, after what is there.
fn put_ended(text: &mut Vec<u8>, lines: &[Vec<u8>]) -> Result<(), AllocError>
    ensures { IfOk result (λ _. text.new.items ≡ text.old.items ++ ended (map (λ line. line.items) lines.now)) }
{
    for line in lines {
        text.extend_from_slice(line)?;
        text.push(b'\n')?;
    }
    Ok(())
}

/// What a line is written out as after so many lines, or the first thing wrong in it.
fn line_after(
    before: usize,
    standing: Standing<'_>,
    line: &NextLine<'_>,
    words: &[&[u8]],
) -> Result<Expanded, ReadFault>
    requires before { before ≤ MAX_LINES }
    requires bytes { line.now.is_text ≡ list_all is_text_byte line.now.bytes.now }
    requires words { line.now.is_text ≡ true → map (λ word. word.now) words.now ≡ words_of line.now.bytes.now }
    ensures gives { GivesBy written_as result (written_after standing.entry.setup.now before standing.entry.when
        standing.entry.who.now line.now.whole line.now.bytes.now) }
    ensures few { IfOk result (λ w. before + length w.lines.items ≤ MAX_LINES) }
{
    let expanded = standing.written(line, words)?;
    if expanded.lines.len() > MAX_LINES - before {
        return Err(ReadFault::Fault(TextKind::TooMany));
    }
    Ok(expanded)
}

/// What the lines of a text are written out as, or the first line at fault.
fn expansion_of(alloc: Global, setup: &Setup, text: &[u8]) -> Result<Vec<u8>, TextFault>
    ensures { ReadsBytes result (expansion setup.now text.now) }
{
    let mut out = Vec::new(alloc);
    let mut room = Vec::new(alloc);
    let mut before = 0;
    let mut when = 0;
    let mut who = Vec::new(alloc);
    let mut rest = text;
    let mut number = 0;
    while !rest.is_empty() {
        number += 1;
        let Ok(line) = next_line(&mut room, rest) else {
            return Err(WANT_OF_MEMORY);
        };
        let standing = Standing {
            alloc,
            setup,
            when,
            who: &who,
        };
        match line_after(before, standing, &line, &room) {
            Ok(expanded) => {
                match put_ended(&mut out, &expanded.lines) {
                    Ok(()) => {}
                    Err(_) => return Err(WANT_OF_MEMORY),
                }
                before += expanded.lines.len();
                when = expanded.when;
                who = expanded.who;
            }
            Err(ReadFault::Memory) => return Err(WANT_OF_MEMORY),
            Err(ReadFault::Fault(kind)) => return Err(TextFault { line: number, kind }),
        }
        rest = line.after;
    }
    Ok(out)
}

/// Writes a friendly script out as a plain one, for a store of this setup: names stand there for ids, and moments,
/// callers, units, comments and calls in many parts as `docs/FORMATS.md` tells.
///
/// A line that a script may have stands as it is, so a plain script is left byte for byte. Of all others the first that
/// is at fault is told by its number in the text, with the fault that its plain line has; 65,536 lines may be written.
/// An Err gives none of them. Line 0 is at fault where memory is wanting, whatever the text says.
pub fn expand(alloc: Global, setup: &Setup, text: &[u8]) -> Result<Vec<u8>, TextFault>
    // What the text is written out as, out of memory aside.
    ensures exact { ReadsBytes result (expansion setup.now text.now) }

    // It is a script, whatever the text was.
    ensures plain { IfOk result (λ script. IsScript script.items) }

    // A script is left as it is, out of memory aside.
    ensures same { (lines : List Line) → script_of text.now ≡ Ok lines
        → AreBytes result text.now ⊎ (result ≡ Err want_of_memory) }
{
    expansion_of(alloc, setup, text)
}
