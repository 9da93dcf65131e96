//! The command that serves, with its options of how and of what.
ghost use Rattle.std.specs.Prelude.{◌≡◌, IfOk, codes, false};
ghost use Rattle.clap.specs.Words.{app_of, rule_of};
ghost use Rattle.clap.specs.declared.builder.command.Command.TheViews.{out-Command};
ghost use Rattle.qtext_job.specs.Commands as line;

use super::argument::{flag, option, with_arg, words};
use super::{configured, journal, with_saving};
use clap::{Arg, Command, value_parser};
use std::alloc::{AllocError, Global};

/// What help says of the file for boards.
const BOARD: &str = "\
The file that the quota records are written to while clients are served, for a monitor";

/// What help says of clients.
const CLIENTS: &str = "\
The clients: lines come from the file or pipe IN, which is opened first, and replies go to OUT; - is standard input or \
output, and no pair stands for the clients of the configuration, or else -:-. Behind -- a pair may begin with -. \
UID:GID[,GROUP..]= before a pair binds its client to this caller: lines of others are refused";

/// What help says of a bound client's lines.
const SHARE_CALLS: &str = "\
The lines of a bound client that are answered at most; 0 is an equal part of 1048576";

/// What help says of what a bound client's lines and replies hold.
const SHARE_KIB: &str = "\
The KiB that the lines of a bound client and its replies hold at most; 0 is an equal part of 524288";

/// What help says of the clock.
const CLOCK: &str = "\
Lines are made at the service's own moment, in seconds since 1970, whatever moment they tell";

/// What help says of a bound client's turns.
const SHARE_RATE: &str = "\
The turns a second of a bound client, from 1 to 1048576: a line takes one, and one more for each KiB of it and of what \
it writes and reads";

/// What help says of the end at a failure.
const STOP_AT_FAILURE: &str = "\
Ends the service, with 5, at the first line that fails; its journal is kept";

/// The command with the files that are written of what was served.
fn with_files<'a>(alloc: Global, command: Command<'a>) -> Result<Command<'a>, AllocError>
    ensures app { IfOk result (λ c. app_of c ≡ line.with_files (app_of command.entry)) }
    ensures local { (out-Command command.entry).has_globals ≡ false
        → IfOk result (λ c. (out-Command c).has_globals ≡ false) }
{
    let command = with_arg(command, journal(alloc))?;
    let command = with_saving(alloc, command)?;
    with_arg(command, option(alloc, "board", "FILE").help(BOARD))
}

fn at<'a>(alloc: Global) -> Arg<'a>
    ensures rule { rule_of result ≡ line.at }
    ensures local { result.global ≡ false }
{
    option(alloc, "at", "MOMENT")
        .short('a')
        .help("The moment of the report, in seconds, from which graces are told")
        .value_parser(value_parser!(u64).range(0..=1_099_511_627_776))
        .default_value("0")
}

fn clock<'a>(alloc: Global) -> Arg<'a>
    ensures rule { rule_of result ≡ line.flag (codes "clock") }
    ensures local { result.global ≡ false }
{
    flag(alloc, "clock", CLOCK)
}

fn stop_at_failure<'a>(alloc: Global) -> Arg<'a>
    ensures rule { rule_of result ≡ line.flag (codes "stop-at-failure") }
    ensures local { result.global ≡ false }
{
    flag(alloc, "stop-at-failure", STOP_AT_FAILURE)
}

/// The command with the moments of a service, with when it ends, and what is told of it then.
fn with_end<'a>(alloc: Global, command: Command<'a>) -> Result<Command<'a>, AllocError>
    ensures app { IfOk result (λ c. app_of c ≡ line.with_end (app_of command.entry)) }
    ensures local { (out-Command command.entry).has_globals ≡ false
        → IfOk result (λ c. (out-Command c).has_globals ≡ false) }
{
    let command = with_arg(command, at(alloc))?;
    let command = with_arg(command, clock(alloc))?;
    let command = with_arg(command, stop_at_failure(alloc))?;
    with_files(alloc, command)
}

fn share_calls<'a>(alloc: Global) -> Arg<'a>
    ensures rule { rule_of result ≡ line.share_calls }
    ensures local { result.global ≡ false }
{
    option(alloc, "share-calls", "N")
        .help(SHARE_CALLS)
        .value_parser(value_parser!(u64).range(0..=1_048_576))
        .default_value("0")
}

fn share_kib<'a>(alloc: Global) -> Arg<'a>
    ensures rule { rule_of result ≡ line.share_kib }
    ensures local { result.global ≡ false }
{
    option(alloc, "share-kib", "N")
        .help(SHARE_KIB)
        .value_parser(value_parser!(u64).range(0..=1_048_576))
        .default_value("0")
}

fn share_depth<'a>(alloc: Global) -> Arg<'a>
    ensures rule { rule_of result ≡ line.share_depth }
    ensures local { result.global ≡ false }
{
    option(alloc, "share-depth", "N")
        .help("The components that a path of a bound client has at most, from 1 to 2048")
        .value_parser(value_parser!(u64).range(1..=2048))
        .default_value("64")
}

fn share_rate<'a>(alloc: Global) -> Arg<'a>
    ensures rule { rule_of result ≡ line.share_rate }
    ensures local { result.global ≡ false }
{
    option(alloc, "share-rate", "N")
        .help(SHARE_RATE)
        .value_parser(value_parser!(u64).range(1..=1_048_576))
        .default_value("4000")
}

/// The command with the options of what a bound client may take.
fn with_shares<'a>(alloc: Global, command: Command<'a>) -> Result<Command<'a>, AllocError>
    ensures app { IfOk result (λ c. app_of c ≡ line.with_shares (app_of command.entry)) }
    ensures local { (out-Command command.entry).has_globals ≡ false
        → IfOk result (λ c. (out-Command c).has_globals ≡ false) }
{
    let command = with_arg(command, share_calls(alloc))?;
    let command = with_arg(command, share_kib(alloc))?;
    let command = with_arg(command, share_depth(alloc))?;
    with_arg(command, share_rate(alloc))
}

pub(super) fn serve<'a>(alloc: Global) -> Result<Command<'a>, AllocError>
    ensures app { IfOk result (λ c. app_of c ≡ line.serve) }
    ensures local { IfOk result (λ c. (out-Command c).has_globals ≡ false) }
{
    let about =
        "Answers the lines of living clients one by one and prints at the end what came of it";
    let command = configured(alloc, "serve", about)?;
    let command = with_end(alloc, command)?;
    let command = with_shares(alloc, command)?;
    with_arg(command, words(alloc, "clients", "IN:OUT").help(CLIENTS))
}
