//! The first line of a journal.
ghost use Rattle.std.specs.Prelude.{◌≡◌, true, map, IfOk};
ghost use Rattle.std.specs.List.{list_all};
ghost use Rattle.qtext.specs.Gives.{Gives};
ghost use Rattle.qtext.specs.Words.{is_text_byte, words as words_of};
ghost use Rattle.qtext_files.specs.Journals.{edition_of, head_in, head_of, head_keyword, head_told, workers_of};
ghost use Rattle.qplain.specs.Journals.{IsWorkers};

use crate::raw_line::NextLine;
use qplain::{Edition, MAX_WORKERS};
use qtext::{ReadFault, TextKind, number_of};

/// What the first line tells: the edition, and how many workers there are, from 1 to 16.
#[derive(Clone, Copy)]
pub(crate) struct Head {
    pub(crate) edition: Edition,
    pub(crate) workers: u64,
}

/// A word that stands in every head, or BadHead where the word is another.
#[tactic(auto, unfolding(crate::specs::Journals::head_keyword))]
pub fn head_keyword(wanted: &[u8], word: &[u8]) -> Result<(), ReadFault>
    ensures { Gives result (head_keyword wanted.now word.now) }
{
    if word == wanted {
        return Ok(());
    }
    Err(ReadFault::Fault(TextKind::BadHead))
}

/// The edition of a journal or an image, `1` or `2`, or BadHead.
#[tactic(auto, unfolding(crate::specs::Journals::edition_of))]
pub fn edition_of(word: &[u8]) -> Result<Edition, ReadFault>
    ensures { Gives result (edition_of word.now) }
{
    if word == b"1".as_slice() {
        return Ok(Edition::One);
    }
    if word == b"2".as_slice() {
        return Ok(Edition::Two);
    }
    Err(ReadFault::Fault(TextKind::BadHead))
}

/// How many workers there are, from 1 to 16.
#[tactic(auto, unfolding(crate::specs::Journals::workers_of))]
fn workers_of(word: &[u8]) -> Result<u64, ReadFault>
    ensures workers { Gives result (workers_of word.now) }
    ensures range { IfOk result IsWorkers }
{
    let workers = number_of(TextKind::BadHead, MAX_WORKERS, word)?;
    if workers == 0 {
        return Err(ReadFault::Fault(TextKind::BadHead));
    }
    Ok(workers)
}

/// `quotafs journal E workers W` in its five words.
#[tactic(auto, unfolding(crate::specs::Journals::head_told))]
pub(crate) fn head_told(
    program: &[u8],
    journal: &[u8],
    edition: &[u8],
    noun: &[u8],
    workers: &[u8],
) -> Result<Head, ReadFault>
    ensures head { Gives result (head_told program.now journal.now edition.now noun.now workers.now) }
    ensures range { IfOk result (λ head. IsWorkers head.workers) }
{
    head_keyword(b"quotafs", program)?;
    head_keyword(b"journal", journal)?;
    let edition = edition_of(edition)?;
    head_keyword(b"workers", noun)?;
    let workers = workers_of(workers)?;
    Ok(Head { edition, workers })
}

/// The five words of a head.
#[tactic(auto, unfolding(crate::specs::Journals::head_in))]
pub(crate) fn head_in(words: &[&[u8]]) -> Result<Head, ReadFault>
    ensures head { Gives result (head_in (map (λ word. word.now) words.now)) }
    ensures range { IfOk result (λ head. IsWorkers head.workers) }
{
    match words {
        [program, journal, edition, noun, workers] => {
            head_told(program, journal, edition, noun, workers)
        }
        _ => Err(ReadFault::Fault(TextKind::BadHead)),
    }
}

/// What the first line tells, whose words these are.
#[tactic(auto, unfolding(crate::specs::Journals::head_of))]
pub(crate) fn head_of(line: &NextLine, words: &[&[u8]]) -> Result<Head, ReadFault>
    requires bytes { line.now.is_text ≡ list_all is_text_byte line.now.bytes.now }
    requires words { line.now.is_text ≡ true → map (λ word. word.now) words.now ≡ words_of line.now.bytes.now }
    ensures head { Gives result
        (head_of (record { number = 1; bytes = line.now.bytes.now; whole = line.now.whole })) }
    ensures range { IfOk result (λ head. IsWorkers head.workers) }
{
    if !line.whole {
        return Err(ReadFault::Fault(TextKind::Cut));
    }
    if !line.is_text {
        return Err(ReadFault::Fault(TextKind::BadByte));
    }
    head_in(words)
}
