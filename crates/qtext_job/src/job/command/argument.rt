//! What a command takes: options, flags and words.
ghost use Rattle.std.specs.Prelude.{◌≡◌, IfOk, false};
ghost use Rattle.clap.specs.Words.{app_of, rule_of, with_rule};
ghost use Rattle.clap.specs.declared.builder.command.Command.TheViews.{out-Command};
ghost use Rattle.qtext_job.specs.Commands as line;

use clap::{Arg, ArgAction, Command};
use std::alloc::{AllocError, Global};

/// `--ID VALUE`.
pub(super) fn option<'a>(alloc: Global, id: &'a str, value: &'a str) -> Arg<'a>
    ensures rule { rule_of result ≡ line.option id.now }
    ensures local { result.global ≡ false }
{
    word(alloc, id, value).long(id)
}

/// `--ID`.
pub(super) fn flag<'a>(alloc: Global, id: &'a str, help: &'a str) -> Arg<'a>
    ensures rule { rule_of result ≡ line.flag id.now }
    ensures local { result.global ≡ false }
{
    Arg::new(alloc, id)
        .long(id)
        .help(help)
        .action(ArgAction::SetTrue)
}

/// One word, `VALUE`.
pub(super) fn word<'a>(alloc: Global, id: &'a str, value: &'a str) -> Arg<'a>
    ensures rule { rule_of result ≡ line.word id.now }
    ensures local { result.global ≡ false }
{
    Arg::new(alloc, id).value_name(value).action(ArgAction::Set)
}

/// Any number of words.
pub(super) fn words<'a>(alloc: Global, id: &'a str, value: &'a str) -> Arg<'a>
    ensures rule { rule_of result ≡ line.words id.now }
    ensures local { result.global ≡ false }
{
    word(alloc, id, value)
        .num_args(1..)
        .action(ArgAction::Append)
}

/// The command with one more argument.
pub(super) fn with_arg<'a>(command: Command<'a>, arg: Arg<'a>) -> Result<Command<'a>, AllocError>
    requires { arg.global ≡ false }
    ensures app { IfOk result (λ c. app_of c ≡ with_rule (app_of command.entry) (rule_of arg.entry)) }
    ensures local { (out-Command command.entry).has_globals ≡ false
        → IfOk result (λ c. (out-Command c).has_globals ≡ false) }
{
    command.arg(arg)
}
