//! Replays, from the name of a journal to what is told of it.
ghost use Rattle.std.specs.Prelude.{◌≡◌, IfErr, IfOk, option_map, string_bytes};
ghost use Rattle.qtool.specs.Endings.{IsLeftUnlessRefused};
ghost use Rattle.qtool.specs.Printed.{PrintsReplay};
ghost use Rattle.qtool.specs.Under.{IsReplayUnder};

use crate::ending::Ending;
use crate::finish::finish;
use crate::reading::{configuration, load};
use crate::saving::test_replayed;
use crate::standard::{optional, test_played};
use crate::{Files, Outcome, SavedNames, TextReplayFault, replay_text};
use qtext_job::ReplayJob;
use std::alloc::Global;
use std::io::Write;

/// The ending of a replay that has no outcome.
fn ending_of_replay(fault: TextReplayFault) -> Ending {
    match fault {
        TextReplayFault::Memory => Ending::Memory,
        TextReplayFault::Text(fault) => Ending::Journal(fault),
        TextReplayFault::Mismatch(place) => Ending::Mismatch(place),
    }
}

/// Reads the configuration and the journal, and plays it.
fn replay_of<F: Files>(
    alloc: Global,
    seed: u64,
    config: &str,
    journal: &str,
    files: &mut F,
) -> Result<Outcome, Ending>
    ensures played { IfOk result (IsReplayUnder (F.held files.old) config.now journal.now) }
    ensures same { F.held files.new ≡ F.held files.old }
{
    let config = configuration(alloc, files, config)?;
    let text = load(alloc, files, journal)?;
    replay_text(alloc, config, text, seed).map_err(ending_of_replay)
}

/// Plays the journal, and only then writes what came of it. Ok is the status.
pub(crate) fn replay_job<F: Files, O: Write, E: Write>(
    alloc: Global,
    seed: u64,
    replay: &ReplayJob,
    files: &mut F,
    out: &mut O,
    err: &mut E,
) -> Result<u8, Ending>
    ensures printed { IfOk result (λ status. PrintsReplay (string_bytes replay.now.config)
        (string_bytes replay.now.journal) replay.now.telling (option_map (λ n. string_bytes n) replay.now.save) status
        (F.held files.old) (F.held files.new) (O.contents out.old) (O.contents out.new)) }
    ensures left { IfErr result (IsLeftUnlessRefused (O.contents out.old) (O.contents out.new)) }
{
    let (config, journal) = (replay.config.as_str(), replay.journal.as_str());
    let telling = replay.telling;
    let names = SavedNames {
        journal: None,
        image: optional(&replay.save),
    };
    test_played(config, journal).map_err(Ending::Clash)?;
    test_replayed(files, names.image, config, journal).map_err(Ending::Clash)?;
    let outcome = replay_of(alloc, seed, config, journal, files).map_err(|ending| ending.explained(
        telling.verbose,
    ))?;
    match finish(outcome, telling, names, files, out, err) {
        Ok(status) => Ok(status),
        Err(refuser) => Err(Ending::refused(alloc, refuser, names)),
    }
}
