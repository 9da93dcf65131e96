//! What came of a run or of a replay, told: its outcome, what is saved of it, and which lines were not done.
ghost use Rattle.std.specs.Prelude.{option_map, IfOk};
ghost use Rattle.qtool_files.specs.Saved.{IsReadable, IsSaved};
ghost use Rattle.qtool.specs.Printed.{IsTold, IsToldWith};

use crate::{Files, Outcome, OutcomeText, Refuser, SavedNames, finish_outcome};
use qrun_replay::PlacedTranscript;
use qtext::Telling;
use qtext_outcome::{are_all_done, put_denials, report_moment};
use std::io::Write;
use std::mem;

/// The status of what was written: 1 where a line was refused or failed and the caller is strict, else 0. A strict
/// caller is told by kinds how many such lines there are, whatever becomes of the error output.
fn tell_denials<E: Write>(transcripts: &[PlacedTranscript], telling: Telling, err: &mut E) -> u8
    ensures { IsToldWith telling transcripts.now result }
{
    if !telling.strict {
        return 0;
    }
    if are_all_done(transcripts) {
        return 0;
    }
    let _ = put_denials(err, transcripts);
    let _ = err.flush();
    1
}

/// Writes what came of it, and then tells a strict caller of lines that were not done. Ok is the status. The memory of
/// the outcome is left to the system: to give back each piece takes as long as a call.
pub(crate) fn finish<F: Files, O: Write, E: Write>(
    outcome: Outcome,
    telling: Telling,
    names: SavedNames<'_>,
    files: &mut F,
    out: &mut O,
    err: &mut E,
) -> Result<u8, Refuser>
    ensures told { IfOk result
        (λ status. IsTold telling outcome status (O.contents out.old) (O.contents out.new)) }
    ensures saved { IfOk result (λ _. IsSaved (F.held files.old) (F.held files.new)
        (option_map (λ n. n.now) names.entry.journal) (option_map (λ n. n.now) names.entry.image) outcome) }
    ensures again { IfOk result (λ _. IsReadable (option_map (λ n. n.now) names.entry.journal)
        (option_map (λ n. n.now) names.entry.image) outcome) }
{
    let transcripts = outcome.transcripts.as_slice();
    let at = report_moment(telling.at, transcripts);
    let text = OutcomeText::Whole(telling.view);
    let told = match finish_outcome(&outcome, text, at, names, files, out) {
        Ok(()) => Ok(tell_denials(transcripts, telling, err)),
        Err(refuser) => Err(refuser),
    };
    mem::forget(outcome);
    told
}
