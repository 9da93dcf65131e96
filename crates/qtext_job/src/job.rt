//! What a command line asks for.
ghost use Rattle.std.specs.Prelude.{◌≡◌, ◌∷◌, [], ℕ, IfOk, IfErr, Some, List, map, option_map, codes, string_bytes};
ghost use Rattle.clap.specs.Words.{first_of, found_of, kind_of, rows_of, subcommand_rows_of};
ghost use Rattle.clap.specs.declared.error.kind.ErrorKind.TheVariants.{OutOfMemory};
ghost use Rattle.qtext_job.specs.declared.line_fault.LineFault.TheVariants.{Memory};
ghost use Rattle.qtext_job.specs.Jobs.{AreScriptsIn, FailsUnless, IsAskedBy, IsJobOf, IsNamedBy};
ghost use Rattle.qtext_job.specs.Jobs.{IsRefusalOf, IsToldBy, checked_in};

use crate::line_fault::missing;
use crate::number::number;
use crate::pair::clients;
use crate::report_options::{is_set, telling};
use crate::share_options::shares;
use crate::{LineFault, Pair, ShareOptions};
use clap::error::ErrorKind;
use clap::{ArgMatches, Error};
use command::command;
use qrules::MAX_MOMENT;
use qtext::Telling;
use std::alloc::{AllocError, Global};

mod command;

/// As many boards are taken at most.
const MAX_BOARDS: u64 = 1000;

/// As many lines go under one lock at most.
const MAX_BATCH: u64 = 64;

/// To run the scripts on a store of the configuration, each up to N lines at a time, while N boards are taken, to tell
/// what came of it, and to write the journal of the run, and an image of the store, where files are named for them.
#[derive(Debug, Drop)]
pub struct RunJob {
    pub config: String,
    pub telling: Telling,
    pub journal: Option<String>,
    pub save: Option<String>,
    pub boards: u64,
    pub batch: u64,
    pub scripts: Vec<String>,
}

/// To answer the clients' lines on a store of the configuration, at their moments or a clock's, until all have ended
/// or, where it is to stop at that, the first line has failed, to report at the moment, in seconds, to write the
/// journal where a file is named for it, likewise an image of the store, and the board while clients are served. Each
/// client that is bound to a caller may take the shares at most. Where none is named those of the configuration are
/// served, and where it names none either there is one, on standard input and output.
#[derive(Debug, Drop)]
pub struct ServeJob {
    pub config: String,
    pub at: u64,
    pub clock: bool,
    pub stop_at_failure: bool,
    pub journal: Option<String>,
    pub save: Option<String>,
    pub board: Option<String>,
    pub shares: ShareOptions,
    pub pairs: Vec<Pair>,
}

/// To play the journal on a store of the configuration, to tell what came of it, and to write an image of the store
/// where a file is named for it.
#[derive(Debug, Drop)]
pub struct ReplayJob {
    pub config: String,
    pub telling: Telling,
    pub save: Option<String>,
    pub journal: String,
}

/// To write a friendly script out as a plain one, for a store of the configuration: that in the file, or standard input
/// where none is named.
#[derive(Debug, Drop)]
pub struct ExpandJob {
    pub config: String,
    pub script: Option<String>,
}

/// To play nothing, and to tell all that is wrong in the configuration and in the scripts, of which there may be none.
#[derive(Debug, Drop)]
pub struct CheckJob {
    pub config: String,
    pub scripts: Vec<String>,
}

/// What the program is asked to do. Files are named as they stand on the command line.
#[derive(Debug, Drop)]
pub enum Job {
    Run(RunJob),
    Serve(ServeJob),
    Replay(ReplayJob),
    Expand(ExpandJob),
    Check(CheckJob),
}

/// What an error of `clap` is reported as.
fn fault(alloc: Global, error: &Error) -> LineFault
    ensures memory { kind_of error.now ≡ OutOfMemory → result ≡ Memory }
    ensures told { IsToldBy (kind_of error.now ∷ []) result }
{
    if matches!(error.kind(), ErrorKind::OutOfMemory) {
        return LineFault::Memory;
    }
    match error.to_string(alloc) {
        Ok(text) => LineFault::Line {
            help: !error.use_stderr(),
            text,
        },
        Err(_) => LineFault::Memory,
    }
}

fn named(alloc: Global, matches: &ArgMatches<'_>, id: &str) -> Result<String, LineFault>
    ensures ok { IfOk result (λ s. first_of id.now (rows_of (found_of matches.now)) ≡ Some (string_bytes s)) }
    ensures err { IfErr result (FailsUnless
        ((t : List ℕ) × (first_of id.now (rows_of (found_of matches.now)) ≡ Some t))) }
{
    match matches.get_str(id) {
        Some(text) => Ok(String::from_str(alloc, text)?),
        None => Err(missing(alloc)),
    }
}

/// The first value of what may be left out.
fn optional(alloc: Global, matches: &ArgMatches<'_>, id: &str) -> Result<Option<String>, AllocError>
    ensures { IfOk result (λ o. first_of id.now (rows_of (found_of matches.now))
        ≡ option_map (λ s. string_bytes s) o) }
{
    match matches.get_str(id) {
        Some(text) => Ok(Some(String::from_str(alloc, text)?)),
        None => Ok(None),
    }
}

fn copies(alloc: Global, names: &[&str]) -> Result<Vec<String>, AllocError>
    ensures { IfOk result (λ v. map (λ s. string_bytes s) v.items ≡ map (λ s. s.now) names.now) }
{
    let mut copies = Vec::new(alloc);
    for name in names {
        copies.push(String::from_str(alloc, name)?)?;
    }
    Ok(copies)
}

fn scripts(alloc: Global, matches: &ArgMatches<'_>) -> Result<Vec<String>, LineFault>
    ensures ok { IfOk result (λ v. AreScriptsIn (rows_of (found_of matches.now))
        (map (λ s. string_bytes s) v.items)) }
    ensures err { IfErr result (FailsUnless
        ((ts : List (List ℕ)) × AreScriptsIn (rows_of (found_of matches.now)) ts)) }
{
    match matches.get_strs("scripts") {
        Some(names) if !names.is_empty() => Ok(copies(alloc, names)?),
        _ => Err(missing(alloc)),
    }
}

fn run(alloc: Global, matches: &ArgMatches<'_>) -> Result<Job, LineFault>
    ensures ok { IfOk result (IsNamedBy (codes "run") (rows_of (found_of matches.now))) }
    ensures err { IfErr result (FailsUnless
        ((job : Job) × IsNamedBy (codes "run") (rows_of (found_of matches.now)) job)) }
{
    let config = named(alloc, matches, "config")?;
    let telling = telling(alloc, matches)?;
    let journal = optional(alloc, matches, "journal")?;
    let save = optional(alloc, matches, "save")?;
    let boards = number(alloc, matches, "boards", 0, MAX_BOARDS)?;
    let batch = number(alloc, matches, "batch", 1, MAX_BATCH)?;
    let scripts = scripts(alloc, matches)?;
    Ok(Job::Run(RunJob {
        config,
        telling,
        journal,
        save,
        boards,
        batch,
        scripts,
    }))
}

fn serve(alloc: Global, matches: &ArgMatches<'_>) -> Result<Job, LineFault>
    ensures ok { IfOk result (IsNamedBy (codes "serve") (rows_of (found_of matches.now))) }
    ensures err { IfErr result (FailsUnless
        ((job : Job) × IsNamedBy (codes "serve") (rows_of (found_of matches.now)) job)) }
{
    let config = named(alloc, matches, "config")?;
    Ok(Job::Serve(ServeJob {
        config,
        at: number(alloc, matches, "at", 0, MAX_MOMENT)?,
        clock: is_set(matches, "clock"),
        stop_at_failure: is_set(matches, "stop-at-failure"),
        journal: optional(alloc, matches, "journal")?,
        save: optional(alloc, matches, "save")?,
        board: optional(alloc, matches, "board")?,
        shares: shares(alloc, matches)?,
        pairs: clients(alloc, matches)?,
    }))
}

fn replay(alloc: Global, matches: &ArgMatches<'_>) -> Result<Job, LineFault>
    ensures ok { IfOk result (IsNamedBy (codes "replay") (rows_of (found_of matches.now))) }
    ensures err { IfErr result (FailsUnless
        ((job : Job) × IsNamedBy (codes "replay") (rows_of (found_of matches.now)) job)) }
{
    Ok(Job::Replay(ReplayJob {
        config: named(alloc, matches, "config")?,
        telling: telling(alloc, matches)?,
        save: optional(alloc, matches, "save")?,
        journal: named(alloc, matches, "journal")?,
    }))
}

fn expand(alloc: Global, matches: &ArgMatches<'_>) -> Result<Job, LineFault>
    ensures ok { IfOk result (IsNamedBy (codes "expand") (rows_of (found_of matches.now))) }
    ensures err { IfErr result (FailsUnless
        ((job : Job) × IsNamedBy (codes "expand") (rows_of (found_of matches.now)) job)) }
{
    let config = named(alloc, matches, "config")?;
    let script = optional(alloc, matches, "script")?;
    Ok(Job::Expand(ExpandJob { config, script }))
}

/// The scripts that are named, none where no word names one.
fn checked(alloc: Global, matches: &ArgMatches<'_>) -> Result<Vec<String>, AllocError>
    ensures { IfOk result (λ v. map (λ s. string_bytes s) v.items
        ≡ checked_in (rows_of (found_of matches.now))) }
{
    match matches.get_strs("scripts") {
        Some(names) => copies(alloc, names),
        None => Ok(Vec::new(alloc)),
    }
}

fn check(alloc: Global, matches: &ArgMatches<'_>) -> Result<Job, LineFault>
    ensures ok { IfOk result (IsNamedBy (codes "check") (rows_of (found_of matches.now))) }
    ensures err { IfErr result (FailsUnless
        ((job : Job) × IsNamedBy (codes "check") (rows_of (found_of matches.now)) job)) }
{
    let config = named(alloc, matches, "config")?;
    let scripts = checked(alloc, matches)?;
    Ok(Job::Check(CheckJob { config, scripts }))
}

fn job_of(alloc: Global, matches: &ArgMatches<'_>) -> Result<Job, LineFault>
    ensures ok { IfOk result (IsJobOf (subcommand_rows_of matches.now)) }
    ensures err { IfErr result (FailsUnless ((job : Job) × IsJobOf (subcommand_rows_of matches.now) job)) }
{
    match matches.subcommand() {
        Some(("run", matches)) => run(alloc, matches),
        Some(("serve", matches)) => serve(alloc, matches),
        Some(("replay", matches)) => replay(alloc, matches),
        Some(("expand", matches)) => expand(alloc, matches),
        Some(("check", matches)) => check(alloc, matches),
        _ => Err(missing(alloc)),
    }
}

impl Job {
    /// Reads the program's words, its own name the first of them, by one `clap` command: the job that its matches name,
    /// with the moment that the word at `--at` spells, in seconds from 0 to 2^40, and 0 where there is none, or of a
    /// run and of a replay the last one where the word is `last`, in the format that `--format` names, and as text
    /// where it does not, the flags that are given, the boards at `--boards`, from 0 to 1000, and 0 where there is
    /// none, and the lines at `--batch`, from 1 to 64, and 1 where there is none. Each client of a service is a pair, a
    /// word cut at its first colon, with a name on both sides; before the pair there may stand `UID:GID[,GROUP..]=`, a
    /// caller to whom it is bound (see `src/pair.rt`). What a bound client may take, of which a configuration says
    /// nothing else, is the number at `--share-calls` and that at `--share-kib`, each from 0 to 1048576, and 0 where
    /// there is none, that at `--share-depth`, from 1 to 2048, and 64 where there is none, and that at `--share-rate`,
    /// from 1 to 1048576, and 4000 where there is none.
    ///
    /// A request for help or for the version is a fault, too, whose text is for the output. Out of memory may come in
    /// place of any answer.
    pub fn read(alloc: Global, words: &[String]) -> Result<Job, LineFault>
        ensures job { IfOk result (IsAskedBy (map (λ w. string_bytes w) words.now)) }
        ensures refused { IfErr result (IsRefusalOf (map (λ w. string_bytes w) words.now)) }
    {
        let command = command(alloc)?;
        match command.try_get_matches_from(words) {
            Err(error) => Err(fault(alloc, &error)),
            Ok(matches) => job_of(alloc, &matches),
        }
    }
}
