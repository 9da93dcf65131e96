//! A command that makes a report, with its options of how it is told.
ghost use Rattle.std.specs.Prelude.{◌≡◌, IfOk, codes, false};
ghost use Rattle.clap.specs.Words.{app_of, rule_of};
ghost use Rattle.clap.specs.declared.builder.command.Command.TheViews.{out-Command};
ghost use Rattle.qtext_job.specs.Commands as line;

use super::argument::{flag, option, with_arg};
use super::configured;
use clap::{Arg, Command};
use std::alloc::{AllocError, Global};

/// What help says of the moment.
const AT: &str = "\
The moment of the report, in seconds, from which graces are told; last is the greatest of any line";

/// What help says of the format.
const FORMAT: &str = "\
The form of what is printed: text, json, an object a line, or csv, the report alone";

/// What help says of larger units.
const HUMAN_READABLE: &str = "\
Shows space and inodes of the report in larger units, as repquota -s does";

/// What help says of strictness.
const STRICT: &str = "\
Ends with 1 where a line was refused or failed, and counts such lines on standard error";

fn report_at<'a>(alloc: Global) -> Arg<'a>
    ensures rule { rule_of result ≡ line.report_at }
    ensures local { result.global ≡ false }
{
    let at = option(alloc, "at", "MOMENT").short('a');
    at.help(AT).default_value("0")
}

fn format<'a>(alloc: Global) -> Arg<'a>
    ensures rule { rule_of result ≡ line.format }
    ensures local { result.global ≡ false }
{
    let format = option(alloc, "format", "FORMAT");
    format.help(FORMAT).default_value("text")
}

fn quiet<'a>(alloc: Global) -> Arg<'a>
    ensures rule { rule_of result ≡ line.quiet }
    ensures local { result.global ≡ false }
{
    flag(alloc, "quiet", "Prints the report alone").short('q')
}

fn verbose<'a>(alloc: Global) -> Arg<'a>
    ensures rule { rule_of result ≡ line.verbose }
    ensures local { result.global ≡ false }
{
    let why = "Tells in a second line why a file cannot be read";
    flag(alloc, "verbose", why).short('v')
}

fn heads<'a>(alloc: Global) -> Arg<'a>
    ensures rule { rule_of result ≡ line.flag (codes "heads") }
    ensures local { result.global ≡ false }
{
    let names = "Names the report's columns in a line over it";
    flag(alloc, "heads", names)
}

fn over<'a>(alloc: Global) -> Arg<'a>
    ensures rule { rule_of result ≡ line.flag (codes "over") }
    ensures local { result.global ≡ false }
{
    flag(alloc, "over", "Reports only who is over a limit")
}

fn human_readable<'a>(alloc: Global) -> Arg<'a>
    ensures rule { rule_of result ≡ line.human_readable }
    ensures local { result.global ≡ false }
{
    flag(alloc, "human-readable", HUMAN_READABLE).short('s')
}

/// The command with the options of what a report shows.
fn with_rows<'a>(alloc: Global, command: Command<'a>) -> Result<Command<'a>, AllocError>
    ensures app { IfOk result (λ c. app_of c ≡ line.with_rows (app_of command.entry)) }
    ensures local { (out-Command command.entry).has_globals ≡ false
        → IfOk result (λ c. (out-Command c).has_globals ≡ false) }
{
    let command = with_arg(command, heads(alloc))?;
    let command = with_arg(command, human_readable(alloc))?;
    with_arg(command, over(alloc))
}

/// The command with the options of what is shown.
fn with_view<'a>(alloc: Global, command: Command<'a>) -> Result<Command<'a>, AllocError>
    ensures app { IfOk result (λ c. app_of c ≡ line.with_view (app_of command.entry)) }
    ensures local { (out-Command command.entry).has_globals ≡ false
        → IfOk result (λ c. (out-Command c).has_globals ≡ false) }
{
    let command = with_arg(command, quiet(alloc))?;
    let command = with_rows(alloc, command)?;
    let calls = "Puts each reply behind its line's place and call";
    let command = with_arg(command, flag(alloc, "calls", calls))?;
    let command = with_arg(command, flag(alloc, "strict", STRICT))?;
    with_arg(command, verbose(alloc))
}

/// A command of this name that does this and makes a report.
pub(super) fn reporting<'a>(
    alloc: Global,
    name: &'a str,
    about: &'a str,
) -> Result<Command<'a>, AllocError>
    ensures app { IfOk result (λ c. app_of c ≡ line.reporting name.now) }
    ensures local { IfOk result (λ c. (out-Command c).has_globals ≡ false) }
{
    let command = configured(alloc, name, about)?;
    let command = with_arg(command, report_at(alloc))?;
    let command = with_arg(command, format(alloc))?;
    with_view(alloc, command)
}
