//! Clients as a configuration names them.

ghost use Rattle.std.specs.Prelude.{◌≡◌, map, string_bytes};
ghost use Rattle.toml.specs.View.{table_view};
ghost use Rattle.qtext.specs.Reading.{each_of};
ghost use Rattle.qtext_read.specs.Callers.{caller_of};
ghost use Rattle.qtext_config.specs.ConfigClients.{bound_for, caller_at, client_of, clients_of, clients_of_tables};
ghost use Rattle.qtext_config.specs.ConfigClients.{named_client, client_in_range, spelt, stream_at, client_fields};
ghost use Rattle.qtext_config.specs.ConfigFaults.{GivesBy};

use super::field::{field, text_at, value_at};
use super::keys::{no_unknown, unknown_after};
use super::share::{ClientShare, WrittenShare, share_at, share_of};
use super::tables::tables_at;
use crate::ConfigFault;
use qplain::{Cred, MAX_WORKERS};
use qrules::Items;
use qtext::ReadFault;
use qtext_read::caller_of;
use std::alloc::Global;
use toml::Table;

/// The keys of a client's table.
pub const CLIENT_KEYS: [&str; 7] = [
    "lines",
    "replies",
    "caller",
    "share_calls",
    "share_kib",
    "share_depth",
    "share_rate",
];

/// A client of a service: who calls in all its lines, where it is bound, where these come from, and where its replies
/// go, each a file's name or `-`; and what it may take.
#[derive(Debug, PartialEq, Eq, Drop)]
pub struct ConfigClient {
    pub caller: Option<Cred>,
    pub lines: String,
    pub replies: String,
    pub share: ClientShare,
}

/// A client of which the numbers of its share may still be out of range.
#[derive(Debug, Drop)]
struct WrittenClient {
    caller: Option<Cred>,
    lines: String,
    replies: String,
    share: WrittenShare,
}

/// The clients that a document names, none where it has no list of them.
#[tactic(auto, unfolding(crate::specs::ConfigClients::clients_of))]
pub(super) fn clients_of(
    alloc: Global,
    document: &Table,
) -> Result<Items<ConfigClient>, ConfigFault>
    ensures { GivesBy (λ clients. map named_client clients) result (clients_of (table_view document.now)) }
{
    match value_at(document, "client") {
        Some(_) => {
            let tables = tables_at(alloc, document, "client")?;
            clients_of_tables(alloc, &tables)
        }
        None => Ok(Items::new(Vec::new(alloc))),
    }
}

/// The clients that these tables write, whose keys are tested behind their fields, and at last their numbers and how
/// many there are.
#[tactic(auto, unfolding(crate::specs::ConfigClients::clients_of_tables))]
fn clients_of_tables(alloc: Global, tables: &[&Table]) -> Result<Items<ConfigClient>, ConfigFault>
    ensures { GivesBy (λ clients. map named_client clients) result
        (clients_of_tables (map (λ t. table_view t.now) tables.now)) }
{
    let written = each_client(alloc, tables)?;
    no_unknown(alloc, unknown_after(None, tables, &CLIENT_KEYS))?;
    let clients = clients_in_range(alloc, written)?;
    if !matches!(clients.len() as u64, 1..=MAX_WORKERS) {
        return Err(ConfigFault::Range);
    }
    Ok(Items::new(clients))
}

fn each_client(alloc: Global, tables: &[&Table]) -> Result<Vec<WrittenClient>, ConfigFault>
    ensures { GivesBy (λ clients. map client_fields clients.items) result
        (each_of client_of (map (λ t. table_view t.now) tables.now)) }
{
    let mut clients = Vec::new(alloc);
    for table in tables {
        clients.push(client_of(alloc, table)?)?;
    }
    Ok(clients)
}

#[tactic(auto, unfolding(crate::specs::ConfigClients::client_of))]
fn client_of(alloc: Global, table: &Table) -> Result<WrittenClient, ConfigFault>
    ensures { GivesBy client_fields result (client_of (table_view table.now)) }
{
    let lines = stream_at(alloc, table, "lines")?;
    let replies = stream_at(alloc, table, "replies")?;
    let caller = caller_at(alloc, table, "caller")?;
    let share = share_at(alloc, table)?;
    test_bound(alloc, &caller, share)?;
    Ok(WrittenClient {
        caller,
        lines,
        replies,
        share,
    })
}

/// Tests that a client of which a share is written is bound.
fn test_bound(alloc: Global, caller: &Option<Cred>, share: WrittenShare) -> Result<(), ConfigFault>
    ensures { GivesBy (λ unit. unit) result (bound_for caller.now share) }
{
    if caller.is_none() && share.is_written() {
        return Err(field(alloc, "caller"));
    }
    Ok(())
}

fn clients_in_range(
    alloc: Global,
    all: Vec<WrittenClient>,
) -> Result<Vec<ConfigClient>, ConfigFault>
    ensures { GivesBy (λ clients. map named_client clients.items) result
        (each_of client_in_range (map client_fields all.items)) }
{
    let mut clients = Vec::new(alloc);
    for written in all {
        clients.push(client_in_range(written)?)?;
    }
    Ok(clients)
}

#[tactic(auto, unfolding(crate::specs::ConfigClients::client_in_range))]
fn client_in_range(written: WrittenClient) -> Result<ConfigClient, ConfigFault>
    ensures { GivesBy named_client result (client_in_range (client_fields written)) }
{
    let share = share_of(written.share)?;
    Ok(ConfigClient {
        caller: written.caller,
        lines: written.lines,
        replies: written.replies,
        share,
    })
}

/// The name of a stream at a key.
#[tactic(auto, unfolding(crate::specs::ConfigClients::stream_at))]
fn stream_at(alloc: Global, table: &Table, key: &str) -> Result<String, ConfigFault>
    ensures { GivesBy (λ name. string_bytes name) result (stream_at key.now (table_view table.now)) }
{
    let text = text_at(alloc, table, key)?;
    if text.is_empty() {
        return Err(field(alloc, key));
    }
    Ok(String::from_str(alloc, text)?)
}

/// The caller at a key, and None where the key is absent.
#[tactic(auto, unfolding(crate::specs::ConfigClients::caller_at))]
fn caller_at(alloc: Global, table: &Table, key: &str) -> Result<Option<Cred>, ConfigFault>
    ensures { GivesBy (λ caller. caller) result (caller_at key.now (table_view table.now)) }
{
    match value_at(table, key) {
        Some(_) => {
            let text = text_at(alloc, table, key)?;
            Ok(Some(caller_in(alloc, text, key)?))
        }
        None => Ok(None),
    }
}

/// The caller that a text spells, or the fault of its key.
fn caller_in(alloc: Global, text: &str, key: &str) -> Result<Cred, ConfigFault>
    ensures { GivesBy (λ caller. caller) result (spelt key.now (caller_of text.now)) }
{
    match caller_of(alloc, text.as_bytes()) {
        Ok(caller) => Ok(caller),
        Err(ReadFault::Fault(_)) => Err(field(alloc, key)),
        Err(ReadFault::Memory) => Err(ConfigFault::Memory),
    }
}
