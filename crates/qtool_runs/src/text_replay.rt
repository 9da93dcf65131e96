//! A journal's text, read and played again.
ghost use Rattle.std.specs.Prelude.{◌≡◌, ℕ, List, Ok, Err, IfOk};
ghost use Rattle.qplain.specs.declared.line.Line.{Line};
ghost use Rattle.qplain.specs.Setups.{in_edition};
ghost use Rattle.qplain.specs.State.{start};
ghost use Rattle.qrun_replay.specs.declared.outcome.Outcome.{Outcome};
ghost use Rattle.qrun_replay.specs.Replays.{IsReplayOf};
ghost use Rattle.qrun_replay.specs.Runs.{IsLeftByWorkers};
ghost use Rattle.qtext.specs.declared.text_fault.TextFault.{TextFault};
ghost use Rattle.qtext_files.specs.Journals.{journal_of};
ghost use Rattle.qtext_files.specs.Spelling.{CanBeRead, journal_spelling};
ghost use Rattle.qtool_runs.specs.TextReplays.{GivesBackOf, IsMismatchIn};
ghost use Rattle.qtool_runs.specs.declared.text_replay.TextReplayFault.TheVariants.{Mismatch, Text};

use crate::replay;
use qplain::Journal;
use qrun_replay::{Outcome, ReplayFault};
use qtext::{TextFault, TextKind};
use qtext_config::Config;
use qtext_files::FromText;
use std::alloc::Global;
use std::mem;

/// Why a journal's text has no outcome.
#[derive(Clone, Copy, Debug, PartialEq, Eq)]
pub enum TextReplayFault {
    /// Memory was wanted and not there.
    Memory,
    /// The text is no journal's: its first line at fault.
    Text(TextFault),
    /// The reply of the entry at this place, from 1, is another than the store's: the first such place.
    Mismatch(u64),
}

impl From<TextFault> for TextReplayFault {
    ghost use Rattle.qtool_runs.specs.TextReplays.{replay_fault_of_text};

    ghost from_gives = { λ fault given. given ≡ replay_fault_of_text fault };

    fn from(fault: TextFault) -> TextReplayFault {
        match fault.kind {
            TextKind::Memory => TextReplayFault::Memory,
            _ => TextReplayFault::Text(fault),
        }
    }
}

impl From<ReplayFault> for TextReplayFault {
    ghost use Rattle.qtool_runs.specs.TextReplays.{replay_fault_of};

    ghost from_gives = { λ fault given. given ≡ replay_fault_of fault };

    fn from(fault: ReplayFault) -> TextReplayFault {
        match fault {
            ReplayFault::Memory => TextReplayFault::Memory,
            ReplayFault::Mismatch(place) => TextReplayFault::Mismatch(place),
        }
    }
}

/// Reads a journal, and plays it again on a new store of the configuration in the journal's edition, as `replay` does.
///
/// It is for a program that ends after it: the text's memory is given back before the journal is played, and that of
/// the journal is left to the system.
pub fn replay_text(
    alloc: Global,
    config: Config,
    text: Vec<u8>,
    seed: u64,
) -> Result<Outcome, TextReplayFault>
    ensures outcome { IfOk result (λ o. (journal_of text.items ≡ Ok o.journal)
        × IsReplayOf (in_edition o.journal.edition config.setup)
        (start (in_edition o.journal.edition config.setup)) o.journal o) }
    ensures text { (fault : TextFault) → result ≡ Err (Text fault) → journal_of text.items ≡ Err fault }
    ensures mismatch { (place : ℕ) → result ≡ Err (Mismatch place) → IsMismatchIn config.setup text.items place }

    // What `write_journal` has written of a journal that workers have left, replayed under their configuration, gives
    // back what they have left, but for the lines that failed. `CanBeRead` is what `write_journal` ensures.
    ensures of_a_run { (lines : List (List Line)) (run : Outcome)
        → IsLeftByWorkers config.setup (start config.setup) lines run → CanBeRead run.journal
        → text.items ≡ journal_spelling run.journal → GivesBackOf run result }
{
    let journal = Journal::read(alloc, &text)?;
    drop(text);
    let played = replay(alloc, config, &journal, seed);
    mem::forget(journal);
    Ok(played?)
}
