//! Scripts, read from text.
ghost use Rattle.std.specs.Prelude.{◌≡◌, ◌≤◌, ◌⊎◌, List, Ok, Err, IfOk, length};
ghost use Rattle.qplain.specs.declared.line.Line.{Line};
ghost use Rattle.qplain.specs.declared.bounds.TheConstants.{MAX_LINES};
ghost use Rattle.qtext.specs.Gives.{Reads};
ghost use Rattle.qtext_files.specs.Scripts.{script_of};

use crate::FromText;
use crate::callers::Callers;
use crate::line::LineReader;
use crate::lines::read_lines;
use qplain::{Line, Script};
use qrules::Items;
use qtext::TextFault;
use qtext_read::Paths;
use std::alloc::Global;

/// A line is `MOMENT CALLER CALL`, with one space between two words and a line feed after it. There are at most 65,536,
/// and a text of no bytes has none. They count from 1.
impl FromText for Script {
    ghost use Rattle.qtext_files.specs.Scripts.{script_of};
    ghost use Rattle.qtext.specs.TextFaults.{want_of_memory};
    ghost use Rattle.qtext_files.specs.Spelling.{script_spelling};
    ghost use Rattle.qplain.specs.Held.{AreLines};

    ghost says = { script_of };

    /// Reads a script: its lines, or the first line at fault with the first thing wrong in it.
    ///
    /// In a line the first of these is reported: too many lines, no line feed, a byte outside 0x20 to 0x7E, the moment,
    /// the caller, the verb, the count of words, the arguments from left to right. That a call is read says nothing of
    /// whether a store takes it.
    ///
    /// An Err gives none of the lines. Line 0 is at fault where memory is wanting, whatever the text says.
    fn read(alloc: Global, text: &[u8]) -> Result<Self, TextFault>
        // What the text says, out of memory aside.
        ensures exact { (result ≡ script_of text.now) ⊎ (result ≡ Err want_of_memory) }

        // Lines that were read can be spelled out.
        ensures held { IfOk result AreLines }

        // Lines that are spelled out are read again.
        ensures again { (lines : List Line) → AreLines lines → text.now ≡ script_spelling lines
            → (result ≡ Ok lines) ⊎ (result ≡ Err want_of_memory) }
    {
        let mut reader = LineReader {
            alloc,
            callers: Callers::new(alloc),
            paths: Paths::of(text),
        };
        let lines = read_lines(alloc, &mut reader, 0, text)?;
        Ok(Script::new(lines))
    }
}
