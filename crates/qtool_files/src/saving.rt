//! What is saved of an outcome in files: its journal, and an image of its store.
ghost use Rattle.std.specs.Prelude.{◌≡◌, IfOk, IsSome, OnErr, OnOk, option_map};
ghost use Rattle.std.specs.Io.KnownBytes.{Appends};
ghost use Rattle.qtext.specs.Written.{Writes};
ghost use Rattle.qtext_files.specs.Spelling.{CanBeRead, journal_spelling};
ghost use Rattle.qtext_image.specs.Held.{IsStateTyped};
ghost use Rattle.qtool_files.specs.Held.{StandsUnder};
ghost use Rattle.qtool_files.specs.Saved.{IsSavedUnder, image_left};

use crate::Files;
use qplain::Journal;
use qrun_replay::Outcome;
use qtext::{RefusedWrite, Written};
use qtext_files::put_journal;
use qtext_image_write::put_image;
use std::io::Write;

/// Writes the journal, and flushes it.
#[tactic(auto, using(crate::proofs::Flushes::refused_at_the_flush, qtext::proofs::Fronts::keeps_appends))]
fn finish_journal<W: Write>(journal: &Journal, out: &mut W) -> Written
    ensures writes { Writes (W.contents out.old) (W.contents out.new) result (journal_spelling journal.now) }
    ensures again { IfOk result (λ _. CanBeRead journal.now) }
{
    if put_journal(out, journal).is_err() || out.flush().is_err() {
        return Err(RefusedWrite);
    }
    Ok(())
}

/// Writes the image of the store that is left, and flushes it.
#[tactic(auto, using(crate::proofs::Flushes::refused_at_the_flush, qtext::proofs::Fronts::keeps_appends))]
fn finish_image<W: Write>(outcome: &Outcome, out: &mut W) -> Written
    ensures writes { Writes (W.contents out.old) (W.contents out.new) result (image_left outcome.now) }
    ensures again { IfOk result (λ _. IsStateTyped outcome.now.store.state) }
{
    let edition = outcome.setup.current_edition();
    let place = outcome.journal.get().entries().len() as u64;
    if put_image(out, edition, place, &outcome.store).is_err() || out.flush().is_err() {
        return Err(RefusedWrite);
    }
    Ok(())
}

/// Writes the journal as a draft, and keeps that under the name. A draft that refuses is given up.
#[tactic(auto, using(crate::proofs::Drafts::written_whole))]
fn keep_journal<F: Files>(journal: &Journal, files: &mut F, name: &str) -> Written
    ensures again { IfOk result (λ _. CanBeRead journal.now) }
    ensures kept { OnOk result
        (StandsUnder (F.held files.old) (F.held files.new) name.now (journal_spelling journal.now)) }
    ensures err { OnErr result (F.held files.new ≡ F.held files.old) }
{
    let Ok(mut draft) = files.draft(name) else {
        return Err(RefusedWrite);
    };
    if finish_journal(journal, &mut draft).is_err() {
        files.give_up(draft);
        return Err(RefusedWrite);
    }
    files.keep(draft, name).map_err(|_| RefusedWrite)
}

/// The same of the image of the store that is left.
#[tactic(auto, using(crate::proofs::Drafts::written_whole))]
fn keep_image<F: Files>(outcome: &Outcome, files: &mut F, name: &str) -> Written
    ensures again { IfOk result (λ _. IsStateTyped outcome.now.store.state) }
    ensures kept { OnOk result (StandsUnder (F.held files.old) (F.held files.new) name.now (image_left outcome.now)) }
    ensures err { OnErr result (F.held files.new ≡ F.held files.old) }
{
    let Ok(mut draft) = files.draft(name) else {
        return Err(RefusedWrite);
    };
    if finish_image(outcome, &mut draft).is_err() {
        files.give_up(draft);
        return Err(RefusedWrite);
    }
    files.keep(draft, name).map_err(|_| RefusedWrite)
}

/// Saves the journal where a file is named for it.
pub(crate) fn save_journal<F: Files>(
    outcome: &Outcome,
    name: Option<&str>,
    files: &mut F,
) -> Written
    ensures again { IfOk result (λ _. IsSome name.entry → CanBeRead outcome.now.journal) }
    ensures kept { OnOk result (IsSavedUnder (F.held files.old) (F.held files.new)
        (option_map (λ n. n.now) name.entry) (journal_spelling outcome.now.journal)) }
    ensures err { OnErr result (F.held files.new ≡ F.held files.old) }
{
    match name {
        Some(name) => keep_journal(outcome.journal.get(), files, name),
        None => Ok(()),
    }
}

/// Saves the image of the store that is left where a file is named for it.
pub(crate) fn save_image<F: Files>(outcome: &Outcome, name: Option<&str>, files: &mut F) -> Written
    ensures again { IfOk result (λ _. IsSome name.entry → IsStateTyped outcome.now.store.state) }
    ensures kept { OnOk result (IsSavedUnder (F.held files.old) (F.held files.new)
        (option_map (λ n. n.now) name.entry) (image_left outcome.now)) }
    ensures err { OnErr result (F.held files.new ≡ F.held files.old) }
{
    match name {
        Some(name) => keep_image(outcome, files, name),
        None => Ok(()),
    }
}
