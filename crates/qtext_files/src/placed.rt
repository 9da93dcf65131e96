//! The first line of a journal that begins at a place.
ghost use Rattle.std.specs.Prelude.{◌≡◌, true, map, IfOk};
ghost use Rattle.std.specs.List.{list_all};
ghost use Rattle.qplain.specs.Journals.{IsWorkers};
ghost use Rattle.qtext.specs.Gives.{Gives};
ghost use Rattle.qtext.specs.Words.{is_text_byte, words as words_of};
ghost use Rattle.qtext_files.specs.Segments.{place_of, placed_in, placed_of, placed_told};

use crate::head::{Head, head_in, head_keyword, head_told};
use crate::raw_line::NextLine;
use qtext::{ReadFault, TextKind, number_of};

/// The greatest place at which a journal may begin.
const MAX_PLACE: u64 = 1 << 63;

/// What the first line tells: a journal's head, and the place at which it begins.
#[derive(Clone, Copy)]
pub(crate) struct Placed {
    pub(crate) head: Head,
    pub(crate) from: u64,
}

/// A place, from 1.
#[tactic(auto, unfolding(crate::specs::Segments::place_of))]
fn place_of(word: &[u8]) -> Result<u64, ReadFault>
    ensures { Gives result (place_of word.now) }
{
    let place = number_of(TextKind::BadHead, MAX_PLACE, word)?;
    if place == 0 {
        return Err(ReadFault::Fault(TextKind::BadHead));
    }
    Ok(place)
}

/// `quotafs journal E workers W from PLACE` in its seven words.
#[tactic(auto, unfolding(crate::specs::Segments::placed_told))]
fn placed_told(
    program: &[u8],
    journal: &[u8],
    edition: &[u8],
    noun: &[u8],
    workers: &[u8],
    from: &[u8],
    place: &[u8],
) -> Result<Placed, ReadFault>
    ensures placed { Gives result (placed_told program.now journal.now edition.now noun.now workers.now
        from.now place.now) }
    ensures range { IfOk result (λ placed. IsWorkers placed.head.workers) }
{
    let head = head_told(program, journal, edition, noun, workers)?;
    head_keyword(b"from", from)?;
    let from = place_of(place)?;
    Ok(Placed { head, from })
}

/// The words of a head, and `from PLACE` behind it where the place is not 0.
#[tactic(auto, unfolding(crate::specs::Segments::placed_in))]
fn placed_in(words: &[&[u8]]) -> Result<Placed, ReadFault>
    ensures placed { Gives result (placed_in (map (λ word. word.now) words.now)) }
    ensures range { IfOk result (λ placed. IsWorkers placed.head.workers) }
{
    match words {
        [program, journal, edition, noun, workers, from, place] => {
            placed_told(program, journal, edition, noun, workers, from, place)
        }
        _ => {
            let head = head_in(words)?;
            Ok(Placed { head, from: 0 })
        }
    }
}

/// What the first line tells, whose words these are.
#[tactic(auto, unfolding(crate::specs::Segments::placed_of))]
pub(crate) fn placed_of(line: &NextLine, words: &[&[u8]]) -> Result<Placed, ReadFault>
    requires bytes { line.now.is_text ≡ list_all is_text_byte line.now.bytes.now }
    requires words { line.now.is_text ≡ true → map (λ word. word.now) words.now ≡ words_of line.now.bytes.now }
    ensures placed { Gives result
        (placed_of (record { number = 1; bytes = line.now.bytes.now; whole = line.now.whole })) }
    ensures range { IfOk result (λ placed. IsWorkers placed.head.workers) }
{
    if !line.whole {
        return Err(ReadFault::Fault(TextKind::Cut));
    }
    if !line.is_text {
        return Err(ReadFault::Fault(TextKind::BadByte));
    }
    placed_in(words)
}
