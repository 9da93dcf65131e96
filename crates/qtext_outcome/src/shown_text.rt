//! Outcomes as a view shows them.
ghost use Rattle.std.specs.Prelude.{◌≡◌};
ghost use Rattle.qtext.specs.Written.{Writes};
ghost use Rattle.qtext_outcome.specs.Outcomes.{outcome_text};
ghost use Rattle.qtext_outcome.specs.Reports.{shown_report};
ghost use Rattle.qtext_outcome.specs.Views.{plain, shown_left, shown_text, shown_told};

use crate::Shown;
use crate::boards_text::put_boards;
use crate::outcome_text::{put_moment, put_rest};
use crate::shown_report::put_shown_report;
use crate::transcript_text::put_transcripts;
use qrun_replay::Outcome;
use qtext::{View, Written};
use std::io::Write;

/// Writes the transcripts, with the calls where they are asked for, and then the boards.
#[tactic(auto, using(qtext::proofs::Fronts::front_of_first, qtext::proofs::Fronts::writes_then))]
fn put_told<W: Write>(out: &mut W, view: View, outcome: &Outcome) -> Written
    ensures { Writes (W.contents out.old) (W.contents out.new) result (shown_told view outcome.now) }
{
    put_transcripts(out, view.calls, outcome.transcripts.as_slice())?;
    put_boards(out, outcome.boards.as_slice())
}

/// Writes what is left at the end.
pub(crate) fn put_shown_left<W: Write>(out: &mut W, shown: Shown, outcome: &Outcome) -> Written
    ensures { Writes (W.contents out.old) (W.contents out.new) result
        (shown_left shown.view outcome.now shown.moment) }
{
    put_moment(out, shown.moment)?;
    put_shown_report(out, shown, outcome.records.as_slice())?;
    put_rest(out, outcome)
}

/// Writes what came of a run as the view shows it, with the report as of the moment: the whole outcome, or the report
/// alone. Under a view that asks for nothing it is what `put_outcome` writes. It takes no memory. After an Err some
/// beginning of the text went out.
#[tactic(auto, using(qtext::proofs::Fronts::front_of_first, qtext::proofs::Fronts::writes_then))]
pub fn put_shown<W: Write>(out: &mut W, view: View, outcome: &Outcome, moment: u64) -> Written
    ensures writes { Writes (W.contents out.old) (W.contents out.new) result (shown_text view outcome.now moment) }
    ensures plain { view ≡ plain → shown_text view outcome.now moment ≡ outcome_text outcome.now moment }
{
    let shown = Shown { view, moment };
    if view.quiet {
        return put_shown_report(out, shown, outcome.records.as_slice());
    }
    put_told(out, view, outcome)?;
    put_shown_left(out, shown, outcome)
}
