//! Numbers that a command line spells.
ghost use Rattle.std.specs.Prelude.{ℕ, IfOk, IfErr, IfSome, IsNone};
ghost use Rattle.clap.specs.Words.{found_of, rows_of};
ghost use Rattle.qtext_job.specs.Jobs.{FailsUnless};
ghost use Rattle.qtext_job.specs.Numbers.{IsNumberAt};

use crate::LineFault;
use crate::line_fault::missing;
use clap::ArgMatches;
use std::alloc::Global;

/// The number at an option that is given, or has a default, where one stands there that is within these bounds.
pub(crate) fn number_at(matches: &ArgMatches<'_>, id: &str, least: u64, most: u64) -> Option<u64>
    ensures some { IfSome result (IsNumberAt id.now least most (rows_of (found_of matches.now))) }
    ensures none { IsNone result → (n : ℕ) → IsNumberAt id.now least most (rows_of (found_of matches.now)) n → ⊥ }
{
    match matches.get_one::<u64>(id) {
        Some(number) if least <= number && number <= most => Some(number),
        _ => None,
    }
}

/// The number at an option that is given, or has a default, within these bounds.
pub(crate) fn number(
    alloc: Global,
    matches: &ArgMatches<'_>,
    id: &str,
    least: u64,
    most: u64,
) -> Result<u64, LineFault>
    ensures ok { IfOk result (IsNumberAt id.now least most (rows_of (found_of matches.now))) }
    ensures err { IfErr result (FailsUnless
        ((n : ℕ) × IsNumberAt id.now least most (rows_of (found_of matches.now)) n)) }
{
    match number_at(matches, id, least, most) {
        Some(number) => Ok(number),
        None => Err(missing(alloc)),
    }
}
