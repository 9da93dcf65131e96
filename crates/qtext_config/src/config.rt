//! Configurations: what a store is made of, written as TOML.

ghost use Rattle.std.specs.Prelude.{◌≡◌, Ok, IfOk, map};
ghost use Rattle.qplain.specs.declared.edition.Edition.TheVariants.{Two};
ghost use Rattle.toml.specs.Parse.{parse_document};
ghost use Rattle.toml.specs.View.{table_view};
ghost use Rattle.qtext_config.specs.ConfigFaults.{GivesBy};
ghost use Rattle.qtext_config.specs.Configs.{document_of};

use crate::ConfigFault;
use client::clients_of;
pub use client::{CLIENT_KEYS, ConfigClient};
use keys::known_keys;
pub use keys::{DOCUMENT_KEYS, PRINCIPAL_KEYS};
use qplain::Setup;
use qrules::Items;
use setting::setup_of;
pub use share::{ClientShare, MAX_CALLS, MAX_DEPTH, MAX_KIB, MAX_RATE};
pub use size::blocks_of_size;
use std::alloc::Global;
use toml::Table;
use written::fields_of;

mod client;
mod field;
mod keys;
mod principal;
mod setting;
mod share;
mod size;
mod tables;
mod written;

/// A configuration, of edition 2.
#[derive(Debug, PartialEq, Eq, Drop)]
pub struct Config {
    pub setup: Setup,
    /// The clients that it names for a service, in its order.
    pub clients: Items<ConfigClient>,
    ghost newest: { setup.edition ≡ Two },
}

impl Config {
    ghost use Rattle.qtext_config.specs.ConfigClients.{named_client};
    ghost use Rattle.qtext_config.specs.Configs.{ReadsSetup, clients_in, setting_in};

    /// Reads a configuration, a TOML document: see setquota(8) and tmpfs(5) for the words.
    ///
    /// `size` is a text, in bytes: 1 to 10 digits, the first not 0, then nothing, `k`, `m` or `g` for
    /// 2^10, 2^20 or 2^30. It is rounded up to whole blocks of 4096 bytes. `nr_inodes` is an integer,
    /// and so are `block_grace` and `inode_grace`, in seconds. `user` and `group`, and `project` where projects are
    /// declared, are lists of tables, each with `id`, `name` and optionally `block_soft` and `block_hard`, in KiB, and
    /// `inode_soft` and `inode_hard`, 0 where absent, which is no limit. Without the key `project` there are none.
    /// `client` may be a list of tables, each with the names `lines` and `replies`, of a byte or more, and optionally
    /// `caller`, to whom it is bound, as `UID:GID,GROUP`, and what it may take then: the integers `share_calls`,
    /// `share_kib`, `share_depth` and `share_rate`.
    ///
    /// In range are a size of 1 to 2^20 blocks, 1 to 65,536 inodes, graces of 1 to 2^32 - 1, limits of 0 to 2^40, ids
    /// of 0 to 2^32 - 1, and 1 to 64 of each kind that has its list, id 0 among them. A name is 1 to 16 bytes of `a` to
    /// `z`, `0` to `9`, `_` and `-`, the first a letter. A list of clients has 1 to 16, with shares of 0 to 1,048,576
    /// calls and KiB, 1 to 2048 components and 1 to 1,048,576 turns.
    ///
    /// The first fault counts: that of the text; the first field that is missing, of another kind or of
    /// another form, in the order above; the least unknown key, of the document and then of all its
    /// tables but those of clients; range, duplicate and no zero, as for a `Setup`; of clients then the fields, the
    /// keys and the range. An integer past 64 bits or a key given twice is no TOML.
    #[tactic(auto, unfolding(crate::specs::Configs::setting_in, crate::specs::Configs::clients_in))]
    pub fn read(alloc: Global, text: &str) -> Result<Self, ConfigFault>
        ensures exact { ReadsSetup (λ config. config.setup) result (setting_in text.now) }
        ensures clients { IfOk result (λ config. clients_in text.now ≡ Ok (map named_client config.clients)) }
    {
        let document = document_of(alloc, text)?;
        let written = fields_of(alloc, &document)?;
        known_keys(alloc, &document)?;
        let setup = setup_of(alloc, written)?;
        let clients = clients_of(alloc, &document)?;
        Ok(Config { setup, clients })
    }
}

fn document_of(alloc: Global, text: &str) -> Result<Table, ConfigFault>
    ensures { GivesBy (λ document. table_view document) result (document_of (parse_document text.now)) }
{
    match toml::table_from_str(alloc, text) {
        Ok(document) => Ok(document),
        Err(error) if error.is_memory() => Err(ConfigFault::Memory),
        Err(_) => Err(ConfigFault::Text),
    }
}
