//! Outcomes as lines of JSON.
ghost use Rattle.qtext.specs.Written.{Writes};
ghost use Rattle.qtext_rows.specs.Json.{json_text, left_objects, records_and_rest, told_objects};

use crate::line_objects::put_transcripts;
use crate::record_objects::put_records;
use crate::rest_objects::{put_looks, put_moment, put_rest};
use qrun_replay::Outcome;
use qtext::{View, Written};
use qtext_outcome::Shown;
use std::io::Write;

/// Writes the objects of the lines, and then those of the boards.
#[tactic(auto, using(qtext::proofs::Fronts::front_of_first, qtext::proofs::Fronts::writes_then))]
fn put_told<W: Write>(out: &mut W, view: View, outcome: &Outcome) -> Written
    ensures { Writes (W.contents out.old) (W.contents out.new) result (told_objects view outcome.now) }
{
    put_transcripts(out, view.calls, outcome.transcripts.as_slice())?;
    put_looks(out, outcome.boards.as_slice())
}

#[tactic(auto, using(qtext::proofs::Fronts::front_of_first, qtext::proofs::Fronts::writes_then))]
fn put_records_and_rest<W: Write>(out: &mut W, shown: Shown, outcome: &Outcome) -> Written
    ensures { Writes (W.contents out.old) (W.contents out.new) result
        (records_and_rest shown.view outcome.now shown.moment) }
{
    put_records(out, shown, outcome.records.as_slice())?;
    put_rest(out, outcome)
}

#[tactic(auto, using(qtext::proofs::Fronts::front_of_first, qtext::proofs::Fronts::writes_then))]
fn put_left<W: Write>(out: &mut W, shown: Shown, outcome: &Outcome) -> Written
    ensures { Writes (W.contents out.old) (W.contents out.new) result
        (left_objects shown.view outcome.now shown.moment) }
{
    put_moment(out, shown.moment)?;
    put_records_and_rest(out, shown, outcome)
}

/// Writes an outcome as lines of JSON, or its records alone.
#[tactic(auto, using(qtext::proofs::Fronts::front_of_first, qtext::proofs::Fronts::writes_then))]
pub(crate) fn put_json<W: Write>(out: &mut W, shown: Shown, outcome: &Outcome) -> Written
    ensures { Writes (W.contents out.old) (W.contents out.new) result
        (json_text shown.view outcome.now shown.moment) }
{
    if shown.view.quiet {
        return put_records(out, shown, outcome.records.as_slice());
    }
    put_told(out, shown.view, outcome)?;
    put_left(out, shown, outcome)
}
