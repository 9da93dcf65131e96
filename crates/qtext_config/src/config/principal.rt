//! Users, groups and projects as a configuration writes them.

ghost use Rattle.std.specs.Prelude.{◌≡◌, map};
ghost use Rattle.toml.specs.View.{table_view};
ghost use Rattle.qtext.specs.Reading.{each_of};
ghost use Rattle.qtext_config.specs.ConfigFaults.{GivesBy};
ghost use Rattle.qtext_config.specs.ConfigPrincipals.{name_at, optional_principals_at, principal_of, principals_at};

use super::field::{field, integer_at, limit_at, text_at, value_at};
use super::tables::tables_at;
use crate::ConfigFault;
use qplain::is_principal_name;
use qrules::{Items, PrincipalName};
use std::alloc::Global;
use toml::Table;

/// A user, a group or a project, whose numbers may still be out of range.
#[derive(Debug, Drop)]
pub(super) struct WrittenPrincipal {
    pub id: i64,
    pub name: PrincipalName,
    pub block_soft: i64,
    pub block_hard: i64,
    pub inode_soft: i64,
    pub inode_hard: i64,
}

/// The principals of the list at a key.
#[tactic(auto, unfolding(crate::specs::ConfigPrincipals::principals_at))]
pub(super) fn principals_at(
    alloc: Global,
    document: &Table,
    key: &str,
) -> Result<Items<WrittenPrincipal>, ConfigFault>
    ensures { GivesBy (λ principals. principals) result (principals_at key.now (table_view document.now)) }
{
    let tables = tables_at(alloc, document, key)?;
    principals_of(alloc, &tables)
}

/// The principals of the list at a key, and None where the key is absent.
#[tactic(auto, unfolding(crate::specs::ConfigPrincipals::optional_principals_at))]
pub(super) fn optional_principals_at(
    alloc: Global,
    document: &Table,
    key: &str,
) -> Result<Option<Items<WrittenPrincipal>>, ConfigFault>
    ensures { GivesBy (λ principals. principals) result
        (optional_principals_at key.now (table_view document.now)) }
{
    match value_at(document, key) {
        Some(_) => Ok(Some(principals_at(alloc, document, key)?)),
        None => Ok(None),
    }
}

fn principals_of(alloc: Global, tables: &[&Table]) -> Result<Items<WrittenPrincipal>, ConfigFault>
    ensures { GivesBy (λ principals. principals) result
        (each_of principal_of (map (λ t. table_view t.now) tables.now)) }
{
    let mut principals = Vec::new(alloc);
    for table in tables {
        principals.push(principal_of(alloc, table)?)?;
    }
    Ok(Items::new(principals))
}

#[tactic(auto, unfolding(crate::specs::ConfigPrincipals::principal_of))]
fn principal_of(alloc: Global, table: &Table) -> Result<WrittenPrincipal, ConfigFault>
    ensures { GivesBy (λ principal. principal) result (principal_of (table_view table.now)) }
{
    let id = integer_at(alloc, table, "id")?;
    let name = name_at(alloc, table, "name")?;
    let block_soft = limit_at(alloc, table, "block_soft")?;
    let block_hard = limit_at(alloc, table, "block_hard")?;
    let inode_soft = limit_at(alloc, table, "inode_soft")?;
    let inode_hard = limit_at(alloc, table, "inode_hard")?;
    Ok(WrittenPrincipal {
        id,
        name,
        block_soft,
        block_hard,
        inode_soft,
        inode_hard,
    })
}

#[tactic(auto, unfolding(crate::specs::ConfigPrincipals::name_at))]
fn name_at(alloc: Global, table: &Table, key: &str) -> Result<PrincipalName, ConfigFault>
    ensures { GivesBy (λ name. name) result (name_at key.now (table_view table.now)) }
{
    let text = text_at(alloc, table, key)?;
    if !is_principal_name(text.as_bytes()) {
        return Err(field(alloc, key));
    }
    Ok(PrincipalName::new(String::from_str(alloc, text)?))
}
