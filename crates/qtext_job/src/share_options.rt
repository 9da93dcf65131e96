//! What a command line says that a bound client may take of a service.
ghost use Rattle.std.specs.Prelude.{IfOk, IfErr};
ghost use Rattle.clap.specs.Words.{found_of, rows_of};
ghost use Rattle.qtext_job.specs.Jobs.{FailsUnless};
ghost use Rattle.qtext_job.specs.Shares.{AreSharesIn};
ghost use Rattle.qtext_job.specs.declared.share_options.ShareOptions.{ShareOptions};

use crate::LineFault;
use crate::number::number;
use clap::ArgMatches;
use std::alloc::Global;

/// As many lines may be named at most.
const MAX_CALLS: u64 = 1_048_576;

/// As many KiB may be named at most.
const MAX_KIB: u64 = 1_048_576;

/// As many components may be named at most.
const MAX_DEPTH: u64 = 2048;

/// As many turns a second may be named at most.
const MAX_RATE: u64 = 1_048_576;

/// What a client that is bound to a caller may take of a service at most, unless its table in the configuration says
/// otherwise.
#[derive(Clone, Copy, Debug)]
pub struct ShareOptions {
    /// The lines of the client that are answered; 0 stands for an equal part.
    pub calls: u64,
    /// The bytes that its lines and the replies to them hold; 0 stands for an equal part.
    pub bytes: u64,
    /// The components of a path.
    pub depth: u64,
    /// The turns of the client in a second.
    pub rate: u64,
}

/// What a bound client may take.
pub(crate) fn shares(alloc: Global, matches: &ArgMatches<'_>) -> Result<ShareOptions, LineFault>
    ensures ok { IfOk result (AreSharesIn (rows_of (found_of matches.now))) }
    ensures err { IfErr result (FailsUnless
        ((shares : ShareOptions) × AreSharesIn (rows_of (found_of matches.now)) shares)) }
{
    let calls = number(alloc, matches, "share-calls", 0, MAX_CALLS)?;
    let kib = number(alloc, matches, "share-kib", 0, MAX_KIB)?;
    let depth = number(alloc, matches, "share-depth", 1, MAX_DEPTH)?;
    let rate = number(alloc, matches, "share-rate", 1, MAX_RATE)?;
    Ok(ShareOptions {
        calls,
        bytes: kib * 1024,
        depth,
        rate,
    })
}
