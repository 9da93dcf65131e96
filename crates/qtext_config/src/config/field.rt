//! The fields of a table.

ghost use Rattle.std.specs.Prelude.{◌≡◌, option_map, option_and_then};
ghost use Rattle.toml.specs.Data.{get_member, as_str, as_integer};
ghost use Rattle.toml.specs.View.{view, table_view};
ghost use Rattle.qtext_config.specs.ConfigFaults.{Field, GivesBy, NamesCause};
ghost use Rattle.qtext_config.specs.ConfigFields.{found, text_at, integer_at, limit_of, limit_at};
ghost use Rattle.qtext_config.specs.ConfigFields.{number_of, optional_integer_at};

use crate::ConfigFault;
use std::alloc::Global;
use toml::{Table, Value};

/// The fault of a key.
pub(super) fn field(alloc: Global, key: &str) -> ConfigFault
    ensures { NamesCause result (Field key.now) }
{
    match String::from_str(alloc, key) {
        Ok(key) => ConfigFault::Field(key),
        Err(_) => ConfigFault::Memory,
    }
}

pub(super) fn value_at<'a>(table: &'a Table, key: &str) -> Option<&'a Value>
    ensures { option_map (λ value. view value.now) result ≡ get_member key.now (table_view table.now) }
{
    table.get(key)
}

fn text_of<'a>(alloc: Global, value: Option<&'a Value>, key: &str) -> Result<&'a str, ConfigFault>
    ensures { GivesBy (λ text. text.now) result
        (found key.now (option_and_then as_str (option_map (λ value. view value.now) value.entry))) }
{
    if let Some(value) = value {
        if let Some(text) = value.as_str() {
            return Ok(text);
        }
    }
    Err(field(alloc, key))
}

pub(super) fn text_at<'a>(
    alloc: Global,
    table: &'a Table,
    key: &str,
) -> Result<&'a str, ConfigFault>
    ensures { GivesBy (λ text. text.now) result (text_at key.now (table_view table.now)) }
{
    text_of(alloc, value_at(table, key), key)
}

fn integer_of(alloc: Global, value: Option<&Value>, key: &str) -> Result<i64, ConfigFault>
    ensures { GivesBy (λ n. n) result
        (found key.now (option_and_then as_integer (option_map (λ value. view value.now) value.entry))) }
{
    if let Some(value) = value {
        if let Some(integer) = value.as_integer() {
            return Ok(integer);
        }
    }
    Err(field(alloc, key))
}

pub(super) fn integer_at(alloc: Global, table: &Table, key: &str) -> Result<i64, ConfigFault>
    ensures { GivesBy (λ n. n) result (integer_at key.now (table_view table.now)) }
{
    integer_of(alloc, value_at(table, key), key)
}

/// The integer at a key, and None where the key is absent.
#[tactic(auto, unfolding(crate::specs::ConfigFields::optional_integer_at))]
pub(super) fn optional_integer_at(
    alloc: Global,
    table: &Table,
    key: &str,
) -> Result<Option<i64>, ConfigFault>
    ensures { GivesBy (λ n. n) result (optional_integer_at key.now (table_view table.now)) }
{
    match value_at(table, key) {
        Some(_) => Ok(Some(integer_at(alloc, table, key)?)),
        None => Ok(None),
    }
}

/// The number that an integer is.
pub(super) fn number_of(integer: i64) -> Result<u64, ConfigFault>
    ensures { GivesBy (λ n. n) result (number_of integer) }
{
    match u64::try_from(integer) {
        Ok(number) => Ok(number),
        Err(_) => Err(ConfigFault::Range),
    }
}

fn limit_of(alloc: Global, value: Option<&Value>, key: &str) -> Result<i64, ConfigFault>
    ensures { GivesBy (λ n. n) result (limit_of key.now (option_map (λ value. view value.now) value.entry)) }
{
    match value {
        None => Ok(0),
        Some(value) => match value.as_integer() {
            Some(limit) => Ok(limit),
            None => Err(field(alloc, key)),
        },
    }
}

/// The limit at a key, 0 where the key is absent.
pub(super) fn limit_at(alloc: Global, table: &Table, key: &str) -> Result<i64, ConfigFault>
    ensures { GivesBy (λ n. n) result (limit_at key.now (table_view table.now)) }
{
    limit_of(alloc, value_at(table, key), key)
}
