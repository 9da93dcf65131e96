//! Outcomes in any format.
ghost use Rattle.qtext.specs.Written.{Writes};
ghost use Rattle.qtext_rows.specs.Formats.{formatted_text};

use crate::objects::put_json;
use crate::report_rows::put_csv;
use qrun_replay::Outcome;
use qtext::{Format, View, Written};
use qtext_outcome::{Shown, put_shown};
use std::io::Write;

/// Writes what came of a run as the view shows it, in the format that it asks for, with the report as of the moment:
/// the text that `put_shown` writes, lines of JSON, or the report alone as records of CSV, which are those of
/// `repquota -O csv` (repquota(8)). JSON and CSV have their amounts as numbers, of space in KiB, and the names of all
/// values, whatever the view asks for in larger units or heads; CSV has no calls.
///
/// It takes no memory. After an Err some beginning of the text went out.
pub fn put_formatted<W: Write>(out: &mut W, view: View, outcome: &Outcome, moment: u64) -> Written
    ensures { Writes (W.contents out.old) (W.contents out.new) result (formatted_text view outcome.now moment) }
{
    let shown = Shown { view, moment };
    match view.format {
        Format::Text => put_shown(out, view, outcome, moment),
        Format::Json => put_json(out, shown, outcome),
        Format::Csv => put_csv(out, shown, outcome.records.as_slice()),
    }
}
