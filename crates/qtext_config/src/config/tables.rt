//! Lists of tables.

ghost use Rattle.std.specs.Prelude.{◌≡◌, map, option_map};
ghost use Rattle.toml.specs.View.{array_view, table_view, view};
ghost use Rattle.qtext.specs.Reading.{each_of};
ghost use Rattle.qtext_config.specs.ConfigFaults.{GivesBy};
ghost use Rattle.qtext_config.specs.ConfigFields.{list_at, list_of, optional_tables_at, table_of, tables_at, values_at};

use super::field::{field, value_at};
use crate::ConfigFault;
use std::alloc::Global;
use toml::value::Array;
use toml::{Table, Value};

fn list_of<'a>(alloc: Global, value: Option<&'a Value>, key: &str) -> Result<&'a Array, ConfigFault>
    ensures { GivesBy (λ list. values_at (array_view list.now)) result
        (list_of key.now (option_map (λ value. view value.now) value.entry)) }
{
    if let Some(value) = value {
        if let Some(list) = value.as_array() {
            return Ok(list);
        }
    }
    Err(field(alloc, key))
}

fn list_at<'a>(alloc: Global, table: &'a Table, key: &str) -> Result<&'a Array, ConfigFault>
    ensures { GivesBy (λ list. values_at (array_view list.now)) result (list_at key.now (table_view table.now)) }
{
    list_of(alloc, value_at(table, key), key)
}

fn table_of<'a>(alloc: Global, value: &'a Value, key: &str) -> Result<&'a Table, ConfigFault>
    ensures { GivesBy (λ table. table_view table.now) result (table_of key.now (view value.now)) }
{
    match value.as_table() {
        Some(table) => Ok(table),
        None => Err(field(alloc, key)),
    }
}

fn tables_of<'a>(alloc: Global, list: &'a Array, key: &str) -> Result<Vec<&'a Table>, ConfigFault>
    ensures { GivesBy (λ tables. map (λ t. table_view t.now) tables.items) result
        (each_of (table_of key.now) (values_at (array_view list.now))) }
{
    let mut tables = Vec::new(alloc);
    for value in list {
        tables.push(table_of(alloc, value, key)?)?;
    }
    Ok(tables)
}

/// The tables of the list at a key. One that is no table is the fault of the list.
#[tactic(auto, unfolding(crate::specs::ConfigFields::tables_at))]
pub(super) fn tables_at<'a>(
    alloc: Global,
    table: &'a Table,
    key: &str,
) -> Result<Vec<&'a Table>, ConfigFault>
    ensures { GivesBy (λ tables. map (λ t. table_view t.now) tables.items) result
        (tables_at key.now (table_view table.now)) }
{
    let list = list_at(alloc, table, key)?;
    tables_of(alloc, list, key)
}

/// The tables of the list at a key, and none where the key is absent.
#[tactic(auto, unfolding(crate::specs::ConfigFields::optional_tables_at))]
pub(super) fn optional_tables_at<'a>(
    alloc: Global,
    table: &'a Table,
    key: &str,
) -> Result<Vec<&'a Table>, ConfigFault>
    ensures { GivesBy (λ tables. map (λ t. table_view t.now) tables.items) result
        (optional_tables_at key.now (table_view table.now)) }
{
    match value_at(table, key) {
        Some(_) => tables_at(alloc, table, key),
        None => Ok(Vec::new(alloc)),
    }
}
