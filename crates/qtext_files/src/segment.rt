//! Journals that begin at a place, read from text.
ghost use Rattle.std.specs.Prelude.{◌≡◌, ◌≤◌, ◌⊎◌, ℕ, Ok, Err, IfOk};
ghost use Rattle.qtext.specs.TextFaults.{want_of_memory};
ghost use Rattle.qtext_files.specs.Segments.{segment_of};

use crate::FromText;
use crate::journal::entries_of;
use crate::lines::WANT_OF_MEMORY;
use crate::placed::placed_of;
use crate::raw_line::next_line;
use qplain::Journal;
use qtext::{ReadFault, TextFault, TextKind};
use std::alloc::Global;

/// A journal that begins at a place: with the calls behind so many others.
#[derive(Drop)]
pub struct Segment {
    pub from: u64,
    pub journal: Journal,
}

/// What a text says, or the first line at fault.
fn segment_in(alloc: Global, text: &[u8]) -> Result<Segment, TextFault>
    ensures { (result ≡ segment_of text.now) ⊎ (result ≡ Err want_of_memory) }
{
    if text.is_empty() {
        return Err(TextFault {
            line: 1,
            kind: TextKind::BadHead,
        });
    }
    let mut room = Vec::new(alloc);
    let Ok(first) = next_line(&mut room, text) else {
        return Err(WANT_OF_MEMORY);
    };
    let placed = match placed_of(&first, &room) {
        Ok(placed) => placed,
        Err(ReadFault::Memory) => return Err(WANT_OF_MEMORY),
        Err(ReadFault::Fault(kind)) => return Err(TextFault { line: 1, kind }),
    };
    let entries = entries_of(alloc, placed.head, first.after)?;
    Ok(Segment {
        from: placed.from,
        journal: Journal::new(placed.head.edition, placed.head.workers, entries),
    })
}

/// The first line is a journal's, `quotafs journal E workers W`, or that with `from PLACE` behind it, PLACE from 1 to
/// 2^63: the place at which the journal begins. Each further one is as a journal's.
impl FromText for Segment {
    ghost use Rattle.std.specs.List.{AllByRecursion};
    ghost use Rattle.qplain.specs.Held.{IsHeld};
    ghost use Rattle.qplain.specs.Journals.{IsJournal, Written};
    ghost use Rattle.qtext.specs.TextFaults.{want_of_memory};
    ghost use Rattle.qtext_files.specs.Segments.{MAX_PLACE, segment_of, segment_spelling};

    ghost says = { segment_of };

    /// Reads a journal that begins at a place, 0 where the first line says none, or the first line at fault, as
    /// `Journal::read` does.
    fn read(alloc: Global, text: &[u8]) -> Result<Self, TextFault>
        // What the text says, out of memory aside.
        ensures exact { (result ≡ segment_of text.now) ⊎ (result ≡ Err want_of_memory) }

        // A journal that was read is spelled so, byte by byte.
        ensures spelled { IfOk result (λ s. segment_spelling s.from s.journal ≡ text.now) }

        // Its entries can be spelled out.
        ensures held { IfOk result (λ s. AllByRecursion IsHeld s.journal.entries) }

        // A journal that is spelled out is read again.
        ensures again { (from : ℕ) (j : Written) → from ≤ MAX_PLACE → IsJournal j → AllByRecursion IsHeld j.entries
            → text.now ≡ segment_spelling from j
            → (result ≡ Ok (record { from = from; journal = j })) ⊎ (result ≡ Err want_of_memory) }
    {
        segment_in(alloc, text)
    }
}
