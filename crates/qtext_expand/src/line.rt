//! One line of a friendly script.
ghost use Rattle.std.specs.Prelude.{◌≡◌, map, true, IfOk};
ghost use Rattle.std.specs.List.{list_all};
ghost use Rattle.qtext.specs.Pieces.{piece_text};
ghost use Rattle.qtext.specs.Words.{is_text_byte, words as words_of};
ghost use Rattle.qtext_expand.specs.FriendlyLines.{as_caller, at_moment, call_lines, called, friendly_written};
ghost use Rattle.qtext_expand.specs.FriendlyLines.{call_head, line_text, line_written, words_written};
ghost use Rattle.qtext_expand.specs.GivesAs.{GivesBy, GivesTexts};
ghost use Rattle.qtext_expand.specs.Plain.{each_judged, judged};
ghost use Rattle.qtext_expand.specs.WrittenAs.{as_it_stands, unchanged, written_as};

use crate::call::calls_of;
use crate::caller::{caller_ids, is_caller};
use crate::moment::{moment_in, split_moment};
use crate::plain::{line_moment, plain_moment};
use crate::words::{begins, friendly_words};
use qplain::Setup;
use qtext::{Piece, ReadFault, TextKind, put_pieces};
use qtext_files::NextLine;
use qtext_read::caller_of;
use std::alloc::{AllocError, Global};

/// Where the clock stands and who calls after a line, and the plain lines that are written for it.
#[derive(Drop)]
pub(crate) struct Expanded {
    pub(crate) when: u64,
    pub(crate) who: Vec<u8>,
    pub(crate) lines: Vec<Vec<u8>>,
}

/// What a line is read against: the setup, and where the clock stands and who calls, where a line does not tell.
#[derive(Clone, Copy)]
pub(crate) struct Standing<'a> {
    pub(crate) alloc: Global,
    pub(crate) setup: &'a Setup,
    pub(crate) when: u64,
    pub(crate) who: &'a [u8],
}

/// A line's caller, and what follows.
#[derive(Drop)]
struct Called<'a, 'w> {
    caller: Vec<u8>,
    rest: &'w [&'a [u8]],
}

/// No line, and the same standing but for the moment.
fn nothing(alloc: Global, when: u64, who: &[u8]) -> Result<Expanded, AllocError>
    ensures { IfOk result (λ w. written_as w ≡ unchanged when who.now) }
{
    Ok(Expanded {
        when,
        who: Vec::from_slice(alloc, who)?,
        lines: Vec::new(alloc),
    })
}

fn call_head<'a>(alloc: Global, moment: Piece<'a>, caller: &'a [u8]) -> Result<Vec<u8>, AllocError>
    ensures { IfOk result (λ text. text.items ≡ call_head (piece_text moment.entry) caller.now) }
{
    let mut text = Vec::new(alloc);
    match put_pieces(&mut text, &[moment, Piece::Text(b" "), Piece::Text(caller)]) {
        Ok(()) => Ok(text),
        Err(_) => Err(AllocError),
    }
}

/// A line of this head and this call, if it is plain.
#[tactic(auto, unfolding(crate::specs::Plain::judged))]
fn judged_line(alloc: Global, head: &[u8], call: &[u8]) -> Result<Vec<u8>, ReadFault>
    ensures { GivesBy (λ line. line.items) result (judged (line_text head.now call.now)) }
{
    let mut line = Vec::from_slice(alloc, head)?;
    line.extend_from_slice(call)?;
    plain_moment(alloc, &line)?;
    Ok(line)
}

/// A line of this head for each call, if each is plain.
fn judged_lines(alloc: Global, head: &[u8], calls: &[Vec<u8>]) -> Result<Vec<Vec<u8>>, ReadFault>
    ensures { GivesTexts result (each_judged (map (line_text head.now) (map (λ call. call.items) calls.now))) }
{
    let mut lines = Vec::new(alloc);
    for call in calls {
        lines.push(judged_line(alloc, head, call)?)?;
    }
    Ok(lines)
}

impl Standing<'_> {
    /// A line's caller, and what follows: where it tells none, who calls is as before.
    #[tactic(auto, unfolding(crate::specs::FriendlyLines::called))]
    fn split_caller<'a, 'w>(self, words: &'w [&'a [u8]]) -> Result<Called<'a, 'w>, AllocError>
        ensures caller { IfOk result (λ c. c.caller.items
            ≡ (called self.entry.setup.now self.entry.who.now (map (λ word. word.now) words.now)).caller) }
        ensures rest { IfOk result (λ c. map (λ word. word.now) c.rest.now
            ≡ (called self.entry.setup.now self.entry.who.now (map (λ word. word.now) words.now)).rest) }
    {
        match words {
            [first, rest @ ..] if is_caller(first) => Ok(Called {
                caller: caller_ids(self.alloc, self.setup, first)?,
                rest,
            }),
            _ => Ok(Called {
                caller: Vec::from_slice(self.alloc, self.who)?,
                rest: words,
            }),
        }
    }

    /// `[MOMENT] [CALLER] CALL`, for each of its calls a line.
    #[tactic(auto, unfolding(crate::specs::FriendlyLines::call_lines))]
    fn call_lines(self, words: &[&[u8]]) -> Result<Expanded, ReadFault>
        ensures { GivesBy written_as result
            (call_lines self.entry.setup.now self.entry.when self.entry.who.now (map (λ word. word.now) words.now)) }
    {
        let timed = split_moment(self.when, words)?;
        let called = self.split_caller(timed.rest)?;
        let head = call_head(self.alloc, timed.moment, &called.caller)?;
        let calls = calls_of(self.alloc, self.setup, called.rest)?;
        let lines = judged_lines(self.alloc, &head, &calls)?;
        Ok(Expanded {
            when: timed.when,
            who: Vec::from_slice(self.alloc, self.who)?,
            lines,
        })
    }

    #[tactic(auto, unfolding(crate::specs::FriendlyLines::as_caller))]
    fn as_caller(self, words: &[&[u8]]) -> Result<Expanded, ReadFault>
        ensures { GivesBy written_as result
            (as_caller self.entry.setup.now self.entry.when (map (λ word. word.now) words.now)) }
    {
        match words {
            [caller] => {
                let who = caller_ids(self.alloc, self.setup, caller)?;
                caller_of(self.alloc, &who)?;
                Ok(nothing(self.alloc, self.when, &who)?)
            }
            _ => Err(ReadFault::Fault(TextKind::WordCount)),
        }
    }

    #[tactic(auto, unfolding(crate::specs::FriendlyLines::at_moment))]
    fn at_moment(self, words: &[&[u8]]) -> Result<Expanded, ReadFault>
        ensures { GivesBy written_as result
            (at_moment self.entry.when self.entry.who.now (map (λ word. word.now) words.now)) }
    {
        match words {
            [moment] => match moment_in(self.when, moment)? {
                Some(when) => Ok(nothing(self.alloc, when, self.who)?),
                None => Err(ReadFault::Fault(TextKind::BadNumber)),
            },
            _ => Err(ReadFault::Fault(TextKind::WordCount)),
        }
    }

    #[tactic(auto, unfolding(crate::specs::FriendlyLines::words_written))]
    fn words_written(self, words: &[&[u8]]) -> Result<Expanded, ReadFault>
        ensures { GivesBy written_as result
            (words_written self.entry.setup.now self.entry.when self.entry.who.now (map (λ word. word.now) words.now)) }
    {
        match words {
            [] => Ok(nothing(self.alloc, self.when, self.who)?),
            [first, rest @ ..] => {
                if *first == b"as".as_slice() {
                    return self.as_caller(rest);
                }
                if *first == b"at".as_slice() {
                    return self.at_moment(rest);
                }
                self.call_lines(words)
            }
        }
    }

    #[tactic(auto, unfolding(crate::specs::FriendlyLines::friendly_written))]
    fn friendly_written(self, line: &NextLine<'_>, words: &[&[u8]]) -> Result<Expanded, ReadFault>
        requires bytes { line.now.is_text ≡ list_all is_text_byte line.now.bytes.now }
        requires words { line.now.is_text ≡ true → map (λ word. word.now) words.now ≡ words_of line.now.bytes.now }
        ensures { GivesBy written_as result
            (friendly_written self.entry.setup.now self.entry.when self.entry.who.now line.now.bytes.now) }
    {
        if begins(b'#', line.bytes) {
            return Ok(nothing(self.alloc, self.when, self.who)?);
        }
        if !line.is_text {
            return Err(ReadFault::Fault(TextKind::BadByte));
        }
        let words = friendly_words(self.alloc, words)?;
        self.words_written(&words)
    }

    fn as_it_stands(self, moment: u64, bytes: &[u8]) -> Result<Expanded, AllocError>
        ensures { IfOk result (λ w. written_as w ≡ as_it_stands moment self.entry.who.now bytes.now) }
    {
        let mut lines = Vec::new(self.alloc);
        lines.push(Vec::from_slice(self.alloc, bytes)?)?;
        Ok(Expanded {
            when: moment,
            who: Vec::from_slice(self.alloc, self.who)?,
            lines,
        })
    }

    /// What a line is written out as, or the first thing wrong in it. An Err gives nothing.
    #[tactic(auto, unfolding(crate::specs::FriendlyLines::line_written))]
    pub(crate) fn written(self, line: &NextLine<'_>, words: &[&[u8]]) -> Result<Expanded, ReadFault>
        requires bytes { line.now.is_text ≡ list_all is_text_byte line.now.bytes.now }
        requires words { line.now.is_text ≡ true → map (λ word. word.now) words.now ≡ words_of line.now.bytes.now }
        ensures { GivesBy written_as result (line_written self.entry.setup.now self.entry.when self.entry.who.now
            line.now.whole line.now.bytes.now) }
    {
        if !line.whole {
            return Err(ReadFault::Fault(TextKind::Cut));
        }
        match line_moment(self.alloc, line, words) {
            Ok(moment) => Ok(self.as_it_stands(moment, line.bytes)?),
            Err(ReadFault::Fault(_)) => self.friendly_written(line, words),
            Err(ReadFault::Memory) => Err(ReadFault::Memory),
        }
    }
}
