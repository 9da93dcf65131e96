//! A configuration as its text writes it.

ghost use Rattle.std.specs.Prelude.{◌≡◌};
ghost use Rattle.toml.specs.View.{table_view};
ghost use Rattle.qtext_config.specs.ConfigFaults.{GivesBy};
ghost use Rattle.qtext_config.specs.Configs.{fields_of, size_at};

use super::field::{field, integer_at, text_at};
use super::principal::{WrittenPrincipal, optional_principals_at, principals_at};
use super::size::blocks_of_size;
use crate::ConfigFault;
use qrules::Items;
use std::alloc::Global;
use toml::Table;

/// The fields of a configuration, whose numbers may still be out of range.
#[derive(Debug, Drop)]
pub(super) struct WrittenConfig {
    pub blocks: u64,
    pub inodes: i64,
    pub block_grace: i64,
    pub inode_grace: i64,
    pub users: Items<WrittenPrincipal>,
    pub groups: Items<WrittenPrincipal>,
    /// None where the document has no list of them.
    pub projects: Option<Items<WrittenPrincipal>>,
}

/// The fields of a document. The first that is missing, of another kind or of another form is at fault.
#[tactic(auto, unfolding(crate::specs::Configs::fields_of))]
pub(super) fn fields_of(alloc: Global, document: &Table) -> Result<WrittenConfig, ConfigFault>
    ensures { GivesBy (λ written. written) result (fields_of (table_view document.now)) }
{
    let blocks = size_at(alloc, document, "size")?;
    let inodes = integer_at(alloc, document, "nr_inodes")?;
    let block_grace = integer_at(alloc, document, "block_grace")?;
    let inode_grace = integer_at(alloc, document, "inode_grace")?;
    let users = principals_at(alloc, document, "user")?;
    let groups = principals_at(alloc, document, "group")?;
    let projects = optional_principals_at(alloc, document, "project")?;
    Ok(WrittenConfig {
        blocks,
        inodes,
        block_grace,
        inode_grace,
        users,
        groups,
        projects,
    })
}

#[tactic(auto, unfolding(crate::specs::Configs::size_at))]
fn size_at(alloc: Global, document: &Table, key: &str) -> Result<u64, ConfigFault>
    ensures { GivesBy (λ blocks. blocks) result (size_at key.now (table_view document.now)) }
{
    let text = text_at(alloc, document, key)?;
    match blocks_of_size(text.as_bytes()) {
        Some(blocks) => Ok(blocks),
        None => Err(field(alloc, key)),
    }
}
