//! How a command line asks to be told what came of a job.
ghost use Rattle.std.specs.Prelude.{◌≡◌, IfOk, IfErr, OnOk, true};
ghost use Rattle.clap.specs.Words.{found_of, rows_of};
ghost use Rattle.qtext_job.specs.Jobs.{FailsUnless};
ghost use Rattle.qtext_job.specs.Tellings.{IsReportAt, IsTellingIn, format_of, has_format, is_given, is_word_at};
ghost use Rattle.qtext_job.specs.Tellings.{view_of};
ghost use Rattle.qtext.specs.declared.report_moment.ReportMoment.{ReportMoment};
ghost use Rattle.qtext.specs.declared.telling.Telling.{Telling};

use crate::LineFault;
use crate::line_fault::invalid;
use crate::number::number_at;
use clap::ArgMatches;
use qrules::MAX_MOMENT;
use qtext::{Format, ReportMoment, Telling, View};
use std::alloc::Global;

/// Whether this word stands at an option.
fn is_word_at(matches: &ArgMatches<'_>, id: &str, word: &str) -> bool
    ensures { result ≡ is_word_at id.now word.now (rows_of (found_of matches.now)) }
{
    match matches.get_str(id) {
        Some(text) => text == word,
        None => false,
    }
}

/// Whether a flag was given.
pub(crate) fn is_set(matches: &ArgMatches<'_>, id: &str) -> bool
    ensures { result ≡ is_given id.now (rows_of (found_of matches.now)) }
{
    is_word_at(matches, id, "true")
}

fn no_moment(alloc: Global, matches: &ArgMatches<'_>) -> LineFault
    ensures { FailsUnless ⊥ result }
{
    let word = matches.get_str("at").unwrap_or("");
    let wanted = "a number from 0 to 1099511627776, or last, is";
    invalid(alloc, word, "--at <MOMENT>", wanted)
}

/// The moment of the report.
fn report_moment(alloc: Global, matches: &ArgMatches<'_>) -> Result<ReportMoment, LineFault>
    ensures ok { IfOk result (IsReportAt (rows_of (found_of matches.now))) }
    ensures err { IfErr result (FailsUnless
        ((at : ReportMoment) × IsReportAt (rows_of (found_of matches.now)) at)) }
{
    if is_word_at(matches, "at", "last") {
        return Ok(ReportMoment::Last);
    }
    match number_at(matches, "at", 0, MAX_MOMENT) {
        Some(moment) => Ok(ReportMoment::At(moment)),
        None => Err(no_moment(alloc, matches)),
    }
}

/// Whether the word at `--format` is a format.
fn has_format(matches: &ArgMatches<'_>) -> bool
    ensures { result ≡ has_format (rows_of (found_of matches.now)) }
{
    is_word_at(matches, "format", "text")
        || is_word_at(matches, "format", "json")
        || is_word_at(matches, "format", "csv")
}

/// The format of this word, which is one.
fn format(matches: &ArgMatches<'_>) -> Format
    ensures { result ≡ format_of (rows_of (found_of matches.now)) }
{
    if is_word_at(matches, "format", "json") {
        Format::Json
    } else if is_word_at(matches, "format", "csv") {
        Format::Csv
    } else {
        Format::Text
    }
}

fn no_format(alloc: Global, matches: &ArgMatches<'_>) -> LineFault
    ensures { FailsUnless ⊥ result }
{
    let word = matches.get_str("format").unwrap_or("");
    invalid(alloc, word, "--format <FORMAT>", "text, json or csv is")
}

fn test_format(alloc: Global, matches: &ArgMatches<'_>) -> Result<(), LineFault>
    ensures ok { OnOk result (has_format (rows_of (found_of matches.now)) ≡ true) }
    ensures err { IfErr result (FailsUnless (has_format (rows_of (found_of matches.now)) ≡ true)) }
{
    if has_format(matches) {
        Ok(())
    } else {
        Err(no_format(alloc, matches))
    }
}

/// What is to be shown.
fn view(matches: &ArgMatches<'_>) -> View
    ensures { result ≡ view_of (rows_of (found_of matches.now)) }
{
    View {
        format: format(matches),
        quiet: is_set(matches, "quiet"),
        heads: is_set(matches, "heads"),
        calls: is_set(matches, "calls"),
        human_readable: is_set(matches, "human-readable"),
        over: is_set(matches, "over"),
    }
}

/// How it is to be told what came of a job.
pub(crate) fn telling(alloc: Global, matches: &ArgMatches<'_>) -> Result<Telling, LineFault>
    ensures ok { IfOk result (IsTellingIn (rows_of (found_of matches.now))) }
    ensures err { IfErr result (FailsUnless
        ((telling : Telling) × IsTellingIn (rows_of (found_of matches.now)) telling)) }
{
    let at = report_moment(alloc, matches)?;
    test_format(alloc, matches)?;
    Ok(Telling {
        at,
        view: view(matches),
        strict: is_set(matches, "strict"),
        verbose: is_set(matches, "verbose"),
    })
}
