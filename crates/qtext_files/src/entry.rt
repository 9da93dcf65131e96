//! One entry of a journal.
ghost use Rattle.std.specs.Prelude.{◌+◌, map};
ghost use Rattle.qtext.specs.Gives.{Gives};
ghost use Rattle.qplain.specs.Editions.{max_entries_of};
ghost use Rattle.qtext_files.specs.Added.{Adds};
ghost use Rattle.qtext_files.specs.Journals.{reply_behind, entry_in, journal_entry_of, worker_of};

use crate::callers::Callers;
use crate::head::Head;
use crate::lines::ReadLine;
use crate::raw_line::NextLine;
use qplain::{Edition, Entry, Reply};
use qtext::{ReadFault, TextKind, number, number_of};
use qtext_read::{Paths, journaled_call_in, reply_in};
use std::alloc::Global;

/// The number of a worker, of which there are so many, from 1.
#[tactic(auto, unfolding(crate::specs::Journals::worker_of))]
fn worker_of(workers: u64, word: &[u8]) -> Result<u64, ReadFault>
    ensures { Gives result (worker_of workers word.now) }
{
    let worker = number_of(TextKind::BadNumber, workers, word)?;
    if worker == 0 {
        return Err(ReadFault::Fault(TextKind::BadNumber));
    }
    Ok(worker)
}

/// `=>` and a reply.
#[tactic(auto, unfolding(crate::specs::Journals::reply_behind))]
fn reply_behind(alloc: Global, edition: Edition, words: &[&[u8]]) -> Result<Reply, ReadFault>
    ensures { Gives result (reply_behind edition (map (λ word. word.now) words.now)) }
{
    match words {
        [] => Err(ReadFault::Fault(TextKind::BadReply)),
        [arrow, reply @ ..] => {
            if *arrow == b"=>".as_slice() {
                return reply_in(alloc, edition, reply);
            }
            Err(ReadFault::Fault(TextKind::BadReply))
        }
    }
}

/// `WORKER MOMENT CALLER CALL => REPLY` in a journal with this head, put behind other entries.
#[tactic(auto, unfolding(crate::specs::Journals::entry_in))]
fn entry_in<'a>(
    alloc: Global,
    callers: &mut Callers<'a>,
    paths: &mut Paths<'a>,
    head: Head,
    words: &[&'a [u8]],
    entries: &mut Vec<Entry>,
) -> Result<(), ReadFault>
    ensures { Adds entries.old.items entries.new.items result (entry_in head (map (λ word. word.now) words.now)) }
{
    match words {
        [] => Err(ReadFault::Fault(TextKind::BadNumber)),
        [worker] => {
            worker_of(head.workers, worker)?;
            Err(ReadFault::Fault(TextKind::BadNumber))
        }
        [worker, moment] => {
            worker_of(head.workers, worker)?;
            number(moment)?;
            Err(ReadFault::Fault(TextKind::BadCred))
        }
        [worker, moment, cred, behind @ ..] => {
            let worker = worker_of(head.workers, worker)?;
            let moment = number(moment)?;
            let cred = callers.read(alloc, cred)?;
            let (call, taken) = journaled_call_in(alloc, paths, head.edition, behind)?;
            let reply = reply_behind(alloc, head.edition, behind.split_at(taken).1)?;
            let Ok(()) = entries.reserve(1) else {
                return Err(ReadFault::Memory);
            };
            entries.push_reserved(Entry {
                worker,
                cred,
                moment,
                call,
                reply,
            });
            Ok(())
        }
    }
}

/// Reads the entries of a journal with this head, and keeps callers and a page of paths.
#[derive(Drop)]
pub(crate) struct EntryReader<'a> {
    pub(crate) alloc: Global,
    pub(crate) head: Head,
    pub(crate) callers: Callers<'a>,
    pub(crate) paths: Paths<'a>,
}

impl<'a> ReadLine<'a> for EntryReader<'a> {
    type Item = Entry;

    ghost says = { λ r l. journal_entry_of r.head l };

    ghost most = { λ r. max_entries_of r.head.edition + 1 };

    #[tactic(auto, unfolding(crate::specs::Journals::journal_entry_of))]
    fn read(
        &mut self,
        number: u64,
        line: &NextLine<'a>,
        words: &[&'a [u8]],
        entries: &mut Vec<Entry>,
    ) -> Result<(), ReadFault> {
        if number > self.head.edition.max_entries() as u64 + 1 {
            return Err(ReadFault::Fault(TextKind::TooMany));
        }
        if !line.whole {
            return Err(ReadFault::Fault(TextKind::Cut));
        }
        if !line.is_text {
            return Err(ReadFault::Fault(TextKind::BadByte));
        }
        self.paths.begin_line(line.after);
        entry_in(
            self.alloc,
            &mut self.callers,
            &mut self.paths,
            self.head,
            words,
            entries,
        )
    }
}
