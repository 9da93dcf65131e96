//! The clients that a command line names.
ghost use Rattle.std.specs.Prelude.{◌≡◌, List, Ok, None, IfOk, IfErr, IfSome, IsNone, map, string_bytes};
ghost use Rattle.clap.specs.Words.{Text, found_of, rows_of};
ghost use Rattle.qplain.specs.Caller.{Caller};
ghost use Rattle.qtext_job.specs.Jobs.{FailsUnless};
ghost use Rattle.qtext_job.specs.Pairs.{AreClientsIn, ArePairs, IsBoundBy, IsCutInto, IsPairOf, IsUnbound};

use crate::LineFault;
use crate::line_fault::invalid;
use clap::ArgMatches;
use qplain::Cred;
use qtext::ReadFault;
use qtext_read::caller_of;
use std::alloc::{AllocError, Global};

/// A client: who calls in all its lines, where it is bound, where these come from, and where its replies go. Files are
/// named as they stand on the command line. `-` is standard input, or standard output.
#[derive(Debug, Drop)]
pub struct Pair {
    pub caller: Option<Cred>,
    pub input: String,
    pub output: String,
}

fn no_pair(alloc: Global, word: &str) -> LineFault
    ensures { FailsUnless ⊥ result }
{
    let wanted = "two names with a colon between them are";
    invalid(alloc, word, "[IN:OUT]...", wanted)
}

/// The two names of a word, where it has them.
fn cut(word: &str) -> Option<(&str, &str)>
    ensures cut { IfSome result (λ names. IsCutInto word.now names.0.now names.1.now) }
    ensures uncut { IsNone result → (input output : Text) → IsCutInto word.now input output → ⊥ }
{
    match word.split_once(':') {
        Some((input, output)) if !input.is_empty() && !output.is_empty() => Some((input, output)),
        _ => None,
    }
}

/// Who is named before the first equals sign of a word, and what follows that, where a caller is.
fn bound(alloc: Global, word: &str) -> Result<Option<(Cred, &str)>, AllocError>
    ensures bound { IfOk result (λ b. IfSome b (λ x. IsBoundBy word.now x.0 x.1.now)) }
    ensures only { IfOk result (λ b. IfSome b (λ x. (caller : Caller) (names : Text)
        → IsBoundBy word.now caller names → names ≡ x.1.now)) }
    ensures unbound { result ≡ Ok None → IsUnbound word.now }
{
    let Some((before, names)) = word.split_once('=') else {
        return Ok(None);
    };
    match caller_of(alloc, before.as_bytes()) {
        Ok(caller) => Ok(Some((caller, names))),
        Err(ReadFault::Fault(_)) => Ok(None),
        Err(ReadFault::Memory) => Err(AllocError),
    }
}

/// The pair of these names in a word, bound to this caller.
fn pair_from(
    alloc: Global,
    word: &str,
    caller: Option<Cred>,
    names: &str,
) -> Result<Pair, LineFault>
    ensures ok { IfOk result (λ p. (p.caller ≡ caller)
        × IsCutInto names.now (string_bytes p.input) (string_bytes p.output)) }
    ensures err { IfErr result (FailsUnless ((input : Text) × (output : Text) × IsCutInto names.now input output)) }
{
    match cut(names) {
        Some((input, output)) => Ok(Pair {
            caller,
            input: String::from_str(alloc, input)?,
            output: String::from_str(alloc, output)?,
        }),
        None => Err(no_pair(alloc, word)),
    }
}

fn pair_of(alloc: Global, word: &str) -> Result<Pair, LineFault>
    ensures ok { IfOk result (IsPairOf word.now) }
    ensures err { IfErr result (FailsUnless ((pair : Pair) × IsPairOf word.now pair)) }
{
    match bound(alloc, word)? {
        Some((caller, names)) => pair_from(alloc, word, Some(caller), names),
        None => pair_from(alloc, word, None, word),
    }
}

fn pairs_of(alloc: Global, words: &[&str]) -> Result<Vec<Pair>, LineFault>
    ensures ok { IfOk result (λ pairs. ArePairs (map (λ w. w.now) words.now) pairs.items) }
    ensures err { IfErr result (FailsUnless
        ((pairs : List Pair) × ArePairs (map (λ w. w.now) words.now) pairs)) }
{
    let mut pairs = Vec::new(alloc);
    for word in words {
        pairs.push(pair_of(alloc, word)?)?;
    }
    Ok(pairs)
}

/// The clients that are named, none where no word names one.
pub(crate) fn clients(alloc: Global, matches: &ArgMatches<'_>) -> Result<Vec<Pair>, LineFault>
    ensures ok { IfOk result (λ pairs. AreClientsIn (rows_of (found_of matches.now)) pairs.items) }
    ensures err { IfErr result (FailsUnless
        ((pairs : List Pair) × AreClientsIn (rows_of (found_of matches.now)) pairs)) }
{
    match matches.get_strs("clients") {
        Some(words) => pairs_of(alloc, words),
        None => Ok(Vec::new(alloc)),
    }
}
