//! One line of a script.
ghost use Rattle.std.specs.Prelude.{◌≡◌, map, true};
ghost use Rattle.std.specs.List.{list_all};
ghost use Rattle.qplain.specs.declared.bounds.TheConstants.{MAX_LINES};
ghost use Rattle.qtext.specs.Gives.{Gives};
ghost use Rattle.qtext.specs.Words.{is_text_byte, words as words_of};
ghost use Rattle.qtext_files.specs.Begun.{Begins};
ghost use Rattle.qtext_files.specs.Scripts.{line_in, script_line_of};

use crate::callers::Callers;
use crate::lines::ReadLine;
use crate::raw_line::NextLine;
use qplain::{Line, MAX_LINES};
use qtext::{ReadFault, TextKind, number};
use qtext_read::{Paths, call_in, caller_of};
use std::alloc::Global;

/// The words of a line whose moment is read.
#[derive(Clone, Copy)]
struct LineWords<'w, 'a> {
    moment: u64,
    caller: &'a [u8],
    call: &'w [&'a [u8]],
}

/// Begins to read the line of that number, whose words these are, `MOMENT CALLER CALL`: up to its caller.
#[inline(always)]
#[tactic(auto, unfolding(crate::specs::Scripts::script_line_of, crate::specs::Scripts::line_in))]
fn begin_line<'w, 'a>(
    paths: &mut Paths<'a>,
    line_number: u64,
    line: &NextLine<'a>,
    words: &'w [&'a [u8]],
) -> Result<LineWords<'w, 'a>, ReadFault>
    requires bytes { line.now.is_text ≡ list_all is_text_byte line.now.bytes.now }
    requires words { line.now.is_text ≡ true → map (λ word. word.now) words.now ≡ words_of line.now.bytes.now }
    ensures { Begins result
        (script_line_of (record { number = line_number; bytes = line.now.bytes.now; whole = line.now.whole })) }
{
    if line_number > MAX_LINES as u64 {
        return Err(ReadFault::Fault(TextKind::TooMany));
    }
    if !line.whole {
        return Err(ReadFault::Fault(TextKind::Cut));
    }
    if !line.is_text {
        return Err(ReadFault::Fault(TextKind::BadByte));
    }
    paths.begin_line(line.after);
    match words {
        [] => Err(ReadFault::Fault(TextKind::BadNumber)),
        [moment] => {
            number(moment)?;
            Err(ReadFault::Fault(TextKind::BadCred))
        }
        [moment, caller, call @ ..] => Ok(LineWords {
            moment: number(moment)?,
            caller,
            call,
        }),
    }
}

/// What the line of that number says, as `next_line` cut it from a script, or the first thing wrong in it: the order is
/// that of [`FromText::read`](crate::FromText) of a script, and so is what an Err leaves: nothing.
pub fn read_line<'a>(
    alloc: Global,
    paths: &mut Paths<'a>,
    number: u64,
    line: &NextLine<'a>,
    words: &[&'a [u8]],
) -> Result<Line, ReadFault>
    // The line was cut into these words, if it is text.
    requires bytes { line.now.is_text ≡ list_all is_text_byte line.now.bytes.now }
    requires words { line.now.is_text ≡ true → map (λ word. word.now) words.now ≡ words_of line.now.bytes.now }

    // What it says, out of memory aside.
    ensures exact { Gives result
        (script_line_of (record { number = number; bytes = line.now.bytes.now; whole = line.now.whole })) }
{
    let begun = begin_line(paths, number, line, words)?;
    let cred = caller_of(alloc, begun.caller)?;
    // A call is large, and a `?` would move it once more.
    match call_in(alloc, paths, begun.call) {
        Ok(call) => Ok(Line {
            cred,
            moment: begun.moment,
            call,
        }),
        Err(fault) => Err(fault),
    }
}

/// Reads the lines of a script, and keeps callers and a page of paths.
#[derive(Drop)]
pub(crate) struct LineReader<'a> {
    pub(crate) alloc: Global,
    pub(crate) callers: Callers<'a>,
    pub(crate) paths: Paths<'a>,
}

impl<'a> ReadLine<'a> for LineReader<'a> {
    type Item = Line;

    ghost says = { λ _ l. script_line_of l };

    ghost most = { λ _. MAX_LINES };

    #[tactic(auto, unfolding(crate::specs::Scripts::script_line_of))]
    fn read(
        &mut self,
        number: u64,
        line: &NextLine<'a>,
        words: &[&'a [u8]],
        lines: &mut Vec<Line>,
    ) -> Result<(), ReadFault> {
        let begun = begin_line(&mut self.paths, number, line, words)?;
        let cred = self.callers.read(self.alloc, begun.caller)?;
        match call_in(self.alloc, &mut self.paths, begun.call) {
            Ok(call) => {
                let Ok(()) = lines.reserve(1) else {
                    return Err(ReadFault::Memory);
                };
                lines.push_reserved(Line {
                    cred,
                    moment: begun.moment,
                    call,
                });
                Ok(())
            }
            Err(fault) => Err(fault),
        }
    }
}
