//! What came of a run or of a service, written out: its outcome, then its journal, and then an image of its store.
ghost use Rattle.std.specs.Prelude.{◌≡◌, Err, IfOk, IfErr, option_map};
ghost use Rattle.std.specs.Io.KnownBytes.{Appends};
ghost use Rattle.qtext.specs.Written.{AppendsFront, Writes};
ghost use Rattle.qtool_files.specs.OutcomeTexts.{told_text};
ghost use Rattle.qtool_files.specs.Saved.{IsLeftAt, IsReadable, IsSaved};
ghost use Rattle.qtool_files.specs.declared.finishing.Refuser.TheVariants.{Output};

use crate::Files;
use crate::saving::{save_image, save_journal};
use qrun_replay::Outcome;
use qtext::{RefusedWrite, View, Written};
use qtext_outcome::put_left;
use qtext_rows::put_formatted;
use std::io::Write;

/// What refused what came of a run.
#[derive(Clone, Copy, Debug, PartialEq, Eq)]
pub enum Refuser {
    /// The output.
    Output,
    /// The file for the journal: a draft cannot be made, refuses, or cannot be kept.
    Journal,
    /// The file for the image, likewise, or memory was wanted for it and not there.
    Image,
}

/// What is written of an outcome.
#[derive(Clone, Copy, Debug)]
pub enum OutcomeText {
    /// All of it, as the view shows it.
    Whole(View),
    /// What is left of a service: all but what its clients were told, who have read it.
    Left,
}

/// The files that an outcome is saved in, beside its text, where they are named.
#[derive(Clone, Copy, Debug)]
pub struct SavedNames<'a> {
    /// That of the journal.
    pub journal: Option<&'a str>,
    /// That of an image of the store.
    pub image: Option<&'a str>,
}

/// Writes the text of an outcome, with the report at the moment, and flushes it.
#[tactic(auto, using(crate::proofs::Flushes::refused_at_the_flush, qtext::proofs::Fronts::keeps_appends))]
fn finish_text<W: Write>(outcome: &Outcome, text: OutcomeText, at: u64, out: &mut W) -> Written
    ensures { Writes (W.contents out.old) (W.contents out.new) result (told_text text outcome.now at) }
{
    let written = match text {
        OutcomeText::Whole(view) => put_formatted(out, view, outcome, at),
        OutcomeText::Left => put_left(out, outcome, at),
    };
    if written.is_err() || out.flush().is_err() {
        return Err(RefusedWrite);
    }
    Ok(())
}

/// Writes what came of a run or of a service to the output, as this text with the report at the moment, and flushes
/// it; and then, where files are named for them, its journal and an image of its store, each as a draft, which is
/// flushed and kept under the name.
///
/// An output that refuses leaves no file: no draft is made. Where the journal or the image is refused, the text stands
/// whole in the output, and under its name there is what was there before; the image comes behind the journal, and is
/// not tried where that is refused. A program that is ended in between leaves the same, and may leave the draft.
pub fn finish_outcome<F: Files, O: Write>(
    outcome: &Outcome,
    text: OutcomeText,
    at: u64,
    names: SavedNames<'_>,
    files: &mut F,
    out: &mut O,
) -> Result<(), Refuser>
    ensures whole { (result ≡ Err Output → ⊥)
        → Appends (O.contents out.old) (O.contents out.new) (told_text text outcome.now at) }
    ensures beginning { result ≡ Err Output
        → AppendsFront (O.contents out.old) (O.contents out.new) (told_text text outcome.now at) }
    ensures no_file { result ≡ Err Output → files.new ≡ files.old }
    ensures again { IfOk result (λ _. IsReadable (option_map (λ n. n.now) names.entry.journal)
        (option_map (λ n. n.now) names.entry.image) outcome.now) }

    // Where files tell what they hold, as the machine's do not.
    ensures saved { IfOk result (λ _. IsSaved (F.held files.old) (F.held files.new)
        (option_map (λ n. n.now) names.entry.journal) (option_map (λ n. n.now) names.entry.image) outcome.now) }
    ensures left { IfErr result (IsLeftAt (F.held files.old) (F.held files.new)
        (option_map (λ n. n.now) names.entry.journal) outcome.now) }
{
    if finish_text(outcome, text, at, out).is_err() {
        return Err(Refuser::Output);
    }
    if save_journal(outcome, names.journal, files).is_err() {
        return Err(Refuser::Journal);
    }
    if save_image(outcome, names.image, files).is_err() {
        return Err(Refuser::Image);
    }
    Ok(())
}
