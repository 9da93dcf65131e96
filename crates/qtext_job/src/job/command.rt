//! The command line, as `clap` is told it.
ghost use Rattle.std.specs.Prelude.{◌≡◌, IfOk, false};
ghost use Rattle.clap.specs.Words.{app_of, rule_of, shape_of, with_subcommand};
ghost use Rattle.clap.specs.declared.builder.command.Command.TheViews.{out-Command};
ghost use Rattle.qtext_job.specs.Commands as line;

use after_help::AFTER_HELP;
use argument::{option, with_arg, word, words};
use clap::{Arg, Command, value_parser};
use report_command::reporting;
use service_command::serve;
use std::alloc::{AllocError, Global};

mod after_help;
mod argument;
mod report_command;
mod service_command;

/// What help says of boards.
const BOARDS: &str = "\
The boards that one more thread takes while the scripts run, at most 1000";

/// What help says of the file for the image.
const SAVE: &str = "\
The file that an image of the store is written to, last of all";

/// A command of this name that does this.
fn named<'a>(alloc: Global, name: &'a str, about: &'a str) -> Command<'a>
    ensures app { app_of result ≡ line.new_app name.now }
    ensures local { (out-Command result).has_globals ≡ false }
{
    Command::new(alloc, name)
        .about(about)
        .after_help(AFTER_HELP)
}

/// A command of this name that does this under a configuration.
fn configured<'a>(alloc: Global, name: &'a str, about: &'a str) -> Result<Command<'a>, AllocError>
    ensures app { IfOk result (λ c. app_of c ≡ line.configured name.now) }
    ensures local { IfOk result (λ c. (out-Command c).has_globals ≡ false) }
{
    let config = option(alloc, "config", "FILE")
        .short('c')
        .help("The configuration: bounds, graces, users, groups and projects, in TOML")
        .required(true);
    with_arg(named(alloc, name, about), config)
}

/// The file for the journal.
fn journal<'a>(alloc: Global) -> Arg<'a>
    ensures rule { rule_of result ≡ line.journal }
    ensures local { result.global ≡ false }
{
    option(alloc, "journal", "FILE").short('j').help(
        "The file that the journal is written to, after what is printed",
    )
}

/// The command with the file that its store may be saved to.
fn with_saving<'a>(alloc: Global, command: Command<'a>) -> Result<Command<'a>, AllocError>
    ensures app { IfOk result (λ c. app_of c ≡ line.with_saving (app_of command.entry)) }
    ensures local { (out-Command command.entry).has_globals ≡ false
        → IfOk result (λ c. (out-Command c).has_globals ≡ false) }
{
    with_arg(command, option(alloc, "save", "FILE").help(SAVE))
}

/// The command with the options of how its store is shared.
fn with_sharing<'a>(alloc: Global, command: Command<'a>) -> Result<Command<'a>, AllocError>
    ensures app { IfOk result (λ c. app_of c ≡ line.with_sharing (app_of command.entry)) }
    ensures local { (out-Command command.entry).has_globals ≡ false
        → IfOk result (λ c. (out-Command c).has_globals ≡ false) }
{
    let boards = option(alloc, "boards", "N")
        .help(BOARDS)
        .value_parser(value_parser!(u64).range(0..=1000))
        .default_value("0");
    let batch = option(alloc, "batch", "N")
        .help("The lines for which a worker takes the lock at a time, from 1 to 64")
        .value_parser(value_parser!(u64).range(1..=64))
        .default_value("1");
    with_arg(with_arg(command, boards)?, batch)
}

fn run<'a>(alloc: Global) -> Result<Command<'a>, AllocError>
    ensures app { IfOk result (λ c. app_of c ≡ line.run) }
    ensures local { IfOk result (λ c. (out-Command c).has_globals ≡ false) }
{
    let about = "Plays scripts, read whole beforehand, on a new store and prints what came of it";
    let command = reporting(alloc, "run", about)?;
    let command = with_arg(command, journal(alloc))?;
    let command = with_saving(alloc, command)?;
    let command = with_sharing(alloc, command)?;
    let scripts = words(alloc, "scripts", "SCRIPT")
        .help("The scripts, one a worker: a line is MOMENT UID:GID[,GROUP..] CALL")
        .required(true);
    with_arg(command, scripts)
}

fn replay<'a>(alloc: Global) -> Result<Command<'a>, AllocError>
    ensures app { IfOk result (λ c. app_of c ≡ line.replay) }
    ensures local { IfOk result (λ c. (out-Command c).has_globals ≡ false) }
{
    let about = "Plays a journal of either again on a new store and prints what came of it";
    let journal = word(alloc, "journal", "JOURNAL")
        .help("The journal, as a run has written it")
        .required(true);
    let command = reporting(alloc, "replay", about)?;
    with_arg(with_saving(alloc, command)?, journal)
}

fn expand<'a>(alloc: Global) -> Result<Command<'a>, AllocError>
    ensures app { IfOk result (λ c. app_of c ≡ line.expand) }
    ensures local { IfOk result (λ c. (out-Command c).has_globals ≡ false) }
{
    let about =
        "Writes a friendly script, with names, units and comments, out as one that run takes";
    let script = word(alloc, "script", "FILE").help(
        "The friendly script; - and no file are standard input",
    );
    with_arg(configured(alloc, "expand", about)?, script)
}

fn check<'a>(alloc: Global) -> Result<Command<'a>, AllocError>
    ensures app { IfOk result (λ c. app_of c ≡ line.check) }
    ensures local { IfOk result (λ c. (out-Command c).has_globals ≡ false) }
{
    let about = "Plays nothing and tells all that is wrong in a configuration and in scripts";
    let scripts = words(alloc, "scripts", "SCRIPT").help("The scripts to look at, any number");
    with_arg(configured(alloc, "check", about)?, scripts)
}

/// The command with one more subcommand.
fn with_command<'a>(command: Command<'a>, sub: Command<'a>) -> Result<Command<'a>, AllocError>
    requires { (out-Command sub).has_globals ≡ false }
    ensures { IfOk result (λ c. app_of c ≡ with_subcommand (app_of command.entry) (shape_of sub.entry)) }
{
    command.subcommand(sub)
}

/// The command with those that play calls on a store.
fn with_stores<'a>(alloc: Global, command: Command<'a>) -> Result<Command<'a>, AllocError>
    ensures { IfOk result (λ c. app_of c ≡ line.with_stores (app_of command.entry)) }
{
    let command = with_command(command, run(alloc)?)?;
    let command = with_command(command, serve(alloc)?)?;
    with_command(command, replay(alloc)?)
}

/// The whole command line.
pub(crate) fn command<'a>(alloc: Global) -> Result<Command<'a>, AllocError>
    ensures { IfOk result (λ c. app_of c ≡ line.quotafs) }
{
    let about =
        "A shared store of files in memory, with disk quotas for users, groups and projects";
    let command = named(alloc, "quotafs", about)
        .version("0.1.0")
        .subcommand_required(true);
    let command = with_stores(alloc, command)?;
    let command = with_command(command, expand(alloc)?)?;
    with_command(command, check(alloc)?)
}
