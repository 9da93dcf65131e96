//! What a configuration says that a bound client may take of a service.

ghost use Rattle.std.specs.Prelude.{◌≡◌, ◌≤◌, IfOk, IfSome, option_map};
ghost use Rattle.toml.specs.View.{table_view};
ghost use Rattle.qtext_config.specs.ConfigFaults.{GivesBy};
ghost use Rattle.qtext_config.specs.ConfigShares.{bytes_of_kib, is_written, number_in, share_at, share_of};

use super::field::{number_of, optional_integer_at};
use crate::ConfigFault;
use std::alloc::Global;
use toml::Table;

/// So many calls may be named as a client's share at most, as by the options of `serve`, whose ranges these are.
pub const MAX_CALLS: u64 = 1_048_576;

/// So many KiB may be named at most.
pub const MAX_KIB: u64 = 1_048_576;

/// So many components of a path may be named at most.
pub const MAX_DEPTH: u64 = 2048;

/// So many turns a second may be named at most.
pub const MAX_RATE: u64 = 1_048_576;

/// What a bound client may take of a service at most, as far as its table says.
#[derive(Clone, Copy, Debug, PartialEq, Eq)]
pub struct ClientShare {
    /// The lines of the client that are answered; 0 stands for an equal part.
    pub calls: Option<u64>,
    /// The bytes that its lines and the replies to them hold; 0 stands for an equal part.
    pub bytes: Option<u64>,
    /// The components of a path.
    pub depth: Option<u64>,
    /// The turns of the client in a second.
    pub rate: Option<u64>,
}

impl ClientShare {
    /// Of a client of which no table says anything.
    pub const UNSAID: ClientShare = ClientShare {
        calls: None,
        bytes: None,
        depth: None,
        rate: None,
    };
}

/// The same, with bytes in KiB, whose numbers may still be out of range.
#[derive(Clone, Copy, Debug)]
pub(super) struct WrittenShare {
    calls: Option<i64>,
    kib: Option<i64>,
    depth: Option<i64>,
    rate: Option<i64>,
}

impl WrittenShare {
    /// Whether any of it is written.
    pub(super) fn is_written(&self) -> bool
        ensures { result ≡ is_written self.now }
    {
        self.calls.is_some() || self.kib.is_some() || self.depth.is_some() || self.rate.is_some()
    }
}

/// The share that a table writes.
#[tactic(auto, unfolding(crate::specs::ConfigShares::share_at))]
pub(super) fn share_at(alloc: Global, table: &Table) -> Result<WrittenShare, ConfigFault>
    ensures { GivesBy (λ share. share) result (share_at (table_view table.now)) }
{
    let calls = optional_integer_at(alloc, table, "share_calls")?;
    let kib = optional_integer_at(alloc, table, "share_kib")?;
    let depth = optional_integer_at(alloc, table, "share_depth")?;
    let rate = optional_integer_at(alloc, table, "share_rate")?;
    Ok(WrittenShare {
        calls,
        kib,
        depth,
        rate,
    })
}

/// The number of an integer, if there is one, within these.
#[tactic(auto, unfolding(crate::specs::ConfigShares::number_in))]
fn number_in(least: u64, most: u64, integer: Option<i64>) -> Result<Option<u64>, ConfigFault>
    ensures gives { GivesBy (λ n. n) result (number_in least most integer) }
    ensures most { IfOk result (λ number. IfSome number (λ n. n ≤ most)) }
{
    let Some(integer) = integer else {
        return Ok(None);
    };
    let number = number_of(integer)?;
    if least <= number && number <= most {
        Ok(Some(number))
    } else {
        Err(ConfigFault::Range)
    }
}

/// The bytes of so many KiB.
fn bytes_of(kib: Option<u64>) -> Option<u64>
    requires { IfSome kib (λ n. n ≤ MAX_KIB) }
    ensures { result ≡ option_map bytes_of_kib kib }
{
    match kib {
        Some(kib) => Some(kib * 1024),
        None => None,
    }
}

/// The share of these numbers, each in its range.
#[tactic(auto, unfolding(crate::specs::ConfigShares::share_of))]
pub(super) fn share_of(written: WrittenShare) -> Result<ClientShare, ConfigFault>
    ensures { GivesBy (λ share. share) result (share_of written) }
{
    let calls = number_in(0, MAX_CALLS, written.calls)?;
    let kib = number_in(0, MAX_KIB, written.kib)?;
    let depth = number_in(1, MAX_DEPTH, written.depth)?;
    let rate = number_in(1, MAX_RATE, written.rate)?;
    Ok(ClientShare {
        calls,
        bytes: bytes_of(kib),
        depth,
        rate,
    })
}
