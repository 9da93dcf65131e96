//! The names of a service: of the streams of its clients, and of what it reads and writes besides.
ghost use Rattle.std.specs.Prelude.{◌≡◌, ◌<◌, IfOk, length, map, option_map};
ghost use Rattle.std.specs.List.{list_any};
ghost use Rattle.qtext_client.specs.Terms.{binding_of};
ghost use Rattle.qtext_config.specs.ConfigClients.{named_client};
ghost use Rattle.qtool.specs.ClientNames.{terms_in};
ghost use Rattle.qtool.specs.Served.{is_taken, is_to_standard};
ghost use Rattle.qtool.specs.Terms.{or_part, share_told, terms_for, terms_told, told_for};

use crate::standard::STANDARD;
use qplain::NoMemory;
use qtext_client::{Allowance, Terms};
use qtext_config::{ClientShare, ConfigClient};
use qtext_job::ShareOptions;
use std::alloc::Global;

/// All calls of a journal, of which bound clients have equal parts.
const ALL_CALLS: u64 = 1_048_576;

/// All bytes that the lines of clients and their answers may hold, of which bound clients have equal parts: 512 MiB.
const ALL_BYTES: u64 = 536_870_912;

/// On which terms a client is served, where it is bound, and the names of its streams.
#[derive(Clone, Copy, Debug)]
pub(crate) struct ClientNames<'a> {
    pub(crate) terms: Option<Terms<'a>>,
    pub(crate) input: &'a str,
    pub(crate) output: &'a str,
}

/// Whether the client's replies go to standard output.
fn is_to_standard(client: &ConfigClient) -> bool
    ensures { result ≡ is_to_standard (named_client client.now) }
{
    client.replies.as_str() == STANDARD
}

/// Whether the replies of one of these clients do.
fn is_any_to_standard(clients: &[ConfigClient]) -> bool
    ensures { result ≡ list_any (λ client. is_to_standard (named_client client)) clients.now }
{
    clients.iter().any(|client| is_to_standard(client))
}

/// Whether standard output is a client's, as it is of the one client where none is named.
pub(crate) fn is_output_taken(clients: &[ConfigClient]) -> bool
    ensures { result ≡ is_taken (map named_client clients.now) }
{
    clients.is_empty() || is_any_to_standard(clients)
}

/// What a bound client may take: as its own share says, and else as all are told.
fn told_for(told: ShareOptions, share: ClientShare) -> ShareOptions
    ensures { result ≡ told_for told share }
{
    ShareOptions {
        calls: share.calls.unwrap_or(told.calls),
        bytes: share.bytes.unwrap_or(told.bytes),
        depth: share.depth.unwrap_or(told.depth),
        rate: share.rate.unwrap_or(told.rate),
    }
}

/// What was told, or where that is 0 an equal part for each of so many clients.
fn or_part(told: u64, all: u64, clients: u64) -> u64
    requires { 0 < clients }
    ensures { result ≡ or_part told all clients }
{
    if told == 0 { all / clients } else { told }
}

/// The share of each of so many clients.
fn share_of(told: ShareOptions, clients: u64) -> Allowance
    requires { 0 < clients }
    ensures { result ≡ share_told told clients }
{
    Allowance {
        calls: or_part(told.calls, ALL_CALLS, clients),
        bytes: or_part(told.bytes, ALL_BYTES, clients),
    }
}

/// On which terms a client of so many is served, where it is bound.
fn terms_of(client: &ConfigClient, told: ShareOptions, clients: u64) -> Option<Terms<'_>>
    requires { 0 < clients }
    ensures bound { option_map binding_of result ≡ (terms_for told clients (named_client client.now)).bound }
    ensures share { option_map (λ t. t.share) result ≡ (terms_for told clients (named_client client.now)).share }
    ensures rate { option_map (λ t. t.rate) result
        ≡ option_map (λ caller. (told_for told client.now.share).rate) client.now.caller }
{
    let told = told_for(told, client.share);
    match &client.caller {
        Some(caller) => Some(Terms {
            caller,
            depth: told.depth,
            share: share_of(told, clients),
            rate: told.rate,
        }),
        None => None,
    }
}

/// The names of clients of which some are named.
fn named<'a>(
    alloc: Global,
    clients: &'a [ConfigClient],
    told: ShareOptions,
) -> Result<Vec<ClientNames<'a>>, NoMemory>
    requires { 0 < length clients.now }
    ensures { IfOk result (λ names. map terms_in names.items
        ≡ map (λ client. terms_for told (length clients.now) (named_client client)) clients.now) }
{
    let mut names = Vec::new(alloc);
    for client in clients {
        names.push(ClientNames {
            terms: terms_of(client, told, clients.len() as u64),
            input: client.lines.as_str(),
            output: client.replies.as_str(),
        })?;
    }
    Ok(names)
}

/// The names of all clients, which are told of the shares of those that are bound; of one on standard input and output,
/// bound to nobody, where none is named.
pub(crate) fn names_of<'a>(
    alloc: Global,
    clients: &'a [ConfigClient],
    told: ShareOptions,
) -> Result<Vec<ClientNames<'a>>, NoMemory>
    ensures some { IfOk result (λ names. 0 < length names.items) }
    ensures terms { IfOk result
        (λ names. map terms_in names.items ≡ terms_told told (map named_client clients.now)) }
{
    if !clients.is_empty() {
        return named(alloc, clients, told);
    }
    let mut names = Vec::new(alloc);
    names.push(ClientNames {
        terms: None,
        input: STANDARD,
        output: STANDARD,
    })?;
    Ok(names)
}
