//! The keys that a configuration may have.

ghost use Rattle.std.specs.Prelude.{◌≡◌, ◌++◌, fold, map, option_map};
ghost use Rattle.std.specs.List.{filter, flat_map};
ghost use Rattle.toml.specs.View.{table_view};
ghost use Rattle.qtext_config.specs.ConfigFaults.{GivesBy};
ghost use Rattle.qtext_config.specs.ConfigKeys.{document_keys, is_unknown, keys_of, known_keys, least_unknown};
ghost use Rattle.qtext_config.specs.ConfigKeys.{lesser_of, no_unknown, principal_keys};

use super::field::field;
use super::tables::{optional_tables_at, tables_at};
use crate::ConfigFault;
use std::alloc::Global;
use toml::Table;

/// The keys of a document.
pub const DOCUMENT_KEYS: [&str; 8] = [
    "size",
    "nr_inodes",
    "block_grace",
    "inode_grace",
    "user",
    "group",
    "project",
    "client",
];

/// The keys of a user's, a group's or a project's table.
pub const PRINCIPAL_KEYS: [&str; 6] = [
    "id",
    "name",
    "block_soft",
    "block_hard",
    "inode_soft",
    "inode_hard",
];

/// Refuses the least unknown key of the document, or else the least of all tables of its lists.
#[tactic(auto, unfolding(crate::specs::ConfigKeys::known_keys))]
pub(super) fn known_keys(alloc: Global, document: &Table) -> Result<(), ConfigFault>
    ensures { GivesBy (λ unit. unit) result (known_keys (table_view document.now)) }
{
    no_unknown(alloc, unknown_of_document(document))?;
    let users = tables_at(alloc, document, "user")?;
    let groups = tables_at(alloc, document, "group")?;
    let projects = optional_tables_at(alloc, document, "project")?;
    no_unknown(alloc, unknown_of_tables(&users, &groups, &projects))
}

pub(super) fn no_unknown(alloc: Global, key: Option<&str>) -> Result<(), ConfigFault>
    ensures { GivesBy (λ unit. unit) result (no_unknown (option_map (λ key. key.now) key.entry)) }
{
    match key {
        None => Ok(()),
        Some(key) => Err(field(alloc, key)),
    }
}

fn unknown_of_document(document: &Table) -> Option<&str>
    ensures { option_map (λ key. key.now) result
        ≡ least_unknown document_keys (keys_of (table_view document.now)) }
{
    least_unknown(None, document, &DOCUMENT_KEYS)
}

fn unknown_of_tables<'a>(
    users: &[&'a Table],
    groups: &[&'a Table],
    projects: &[&'a Table],
) -> Option<&'a str>
    ensures { option_map (λ key. key.now) result ≡ least_unknown principal_keys
        (flat_map keys_of (map (λ t. table_view t.now) users.now ++ map (λ t. table_view t.now) groups.now
        ++ map (λ t. table_view t.now) projects.now)) }
{
    let least = unknown_after(None, users, &PRINCIPAL_KEYS);
    let least = unknown_after(least, groups, &PRINCIPAL_KEYS);
    unknown_after(least, projects, &PRINCIPAL_KEYS)
}

/// The least unknown key of these tables, or the least so far.
pub(super) fn unknown_after<'a>(
    so_far: Option<&'a str>,
    tables: &[&'a Table],
    known: &[&str],
) -> Option<&'a str>
    ensures { option_map (λ key. key.now) result ≡ fold lesser_of (option_map (λ key. key.now) so_far.entry)
        (filter (is_unknown (map (λ key. key.now) known.now))
        (flat_map keys_of (map (λ t. table_view t.now) tables.now))) }
{
    let mut least = so_far;
    for table in tables {
        least = least_unknown(least, table, known);
    }
    least
}

/// The least unknown key of this table, or the least so far.
fn least_unknown<'a>(so_far: Option<&'a str>, table: &'a Table, known: &[&str]) -> Option<&'a str>
    ensures { option_map (λ key. key.now) result ≡ fold lesser_of (option_map (λ key. key.now) so_far.entry)
        (filter (is_unknown (map (λ key. key.now) known.now)) (keys_of (table_view table.now))) }
{
    let mut least = so_far;
    for key in table.keys() {
        if is_unknown(known, key.as_str()) {
            least = Some(lesser_of(least, key.as_str()));
        }
    }
    least
}

fn is_unknown(known: &[&str], key: &str) -> bool
    ensures { result ≡ is_unknown (map (λ key. key.now) known.now) key.now }
{
    !known.iter().any(|known| key == *known)
}

/// The lesser by bytes of this key and the least so far.
fn lesser_of<'a>(least: Option<&'a str>, key: &'a str) -> &'a str
    ensures { Some result.now ≡ lesser_of (option_map (λ key. key.now) least.entry) key.now }
{
    match least {
        None => key,
        Some(least) if key < least => key,
        Some(least) => least,
    }
}
