//! The numbers of a configuration, and the setup that they make.

ghost use Rattle.std.specs.Prelude.{◌≡◌, IfOk};
ghost use Rattle.qplain.specs.declared.edition.Edition.TheVariants.{Two};
ghost use Rattle.qtext.specs.Reading.{each_of};
ghost use Rattle.qtext_config.specs.ConfigFaults.{GivesBy};
ghost use Rattle.qtext_config.specs.Configs.{ReadsSetup, declared_of, id_of, limits_of, projects_of};
ghost use Rattle.qtext_config.specs.Configs.{setting_of};

use super::field::number_of;
use super::principal::WrittenPrincipal;
use super::written::WrittenConfig;
use crate::ConfigFault;
use qplain::{Principal, Setup};
use qrules::{Graces, Items, Limits};
use std::alloc::Global;

/// The setup of these fields, whose numbers are tested first: range, then duplicate, then no zero.
#[tactic(auto, unfolding(crate::specs::Configs::setting_of))]
pub(super) fn setup_of(alloc: Global, written: WrittenConfig) -> Result<Setup, ConfigFault>
    ensures setup { ReadsSetup (λ setup. setup) result (setting_of written) }
    ensures edition { IfOk result (λ setup. setup.edition ≡ Two) }
{
    let inodes = number_of(written.inodes)?;
    let block = number_of(written.block_grace)?;
    let inode = number_of(written.inode_grace)?;
    let users = each_declared(alloc, written.users)?;
    let groups = each_declared(alloc, written.groups)?;
    let projects = projects_of(alloc, written.projects)?;
    let graces = Graces { block, inode };
    Ok(Setup::new(written.blocks, inodes, graces, users, groups, projects)?)
}

/// The projects that are declared: none where no list of them stands. A list without any is out of range, as for the
/// other kinds, which a `Setup` could not tell from no list.
#[tactic(auto, unfolding(crate::specs::Configs::projects_of))]
fn projects_of(
    alloc: Global,
    projects: Option<Items<WrittenPrincipal>>,
) -> Result<Vec<Principal>, ConfigFault>
    ensures { GivesBy (λ declared. declared.items) result (projects_of projects) }
{
    match projects {
        Some(projects) => {
            if projects.as_slice().is_empty() {
                return Err(ConfigFault::Range);
            }
            each_declared(alloc, projects)
        }
        None => Ok(Vec::new(alloc)),
    }
}

fn each_declared(
    alloc: Global,
    principals: Items<WrittenPrincipal>,
) -> Result<Vec<Principal>, ConfigFault>
    ensures { GivesBy (λ declared. declared.items) result (each_of declared_of principals) }
{
    let mut declared = Vec::new(alloc);
    for written in principals.into_vec() {
        declared.push(declared_of(written)?)?;
    }
    Ok(declared)
}

#[tactic(auto, unfolding(crate::specs::Configs::declared_of))]
fn declared_of(written: WrittenPrincipal) -> Result<Principal, ConfigFault>
    ensures { GivesBy (λ principal. principal) result (declared_of written) }
{
    let id = id_of(written.id)?;
    let limits = limits_of(&written)?;
    Ok(Principal {
        id,
        name: written.name,
        limits,
    })
}

#[tactic(auto, unfolding(crate::specs::Configs::limits_of))]
fn limits_of(written: &WrittenPrincipal) -> Result<Limits, ConfigFault>
    ensures { GivesBy (λ limits. limits) result (limits_of written.now) }
{
    let block_soft = number_of(written.block_soft)?;
    let block_hard = number_of(written.block_hard)?;
    let inode_soft = number_of(written.inode_soft)?;
    let inode_hard = number_of(written.inode_hard)?;
    Ok(Limits {
        block_soft,
        block_hard,
        inode_soft,
        inode_hard,
    })
}

fn id_of(integer: i64) -> Result<u32, ConfigFault>
    ensures { GivesBy (λ n. n) result (id_of integer) }
{
    match u32::try_from(integer) {
        Ok(id) => Ok(id),
        Err(_) => Err(ConfigFault::Range),
    }
}
