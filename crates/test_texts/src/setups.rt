//! Setups and clients, spelled as configurations.

use qplain::{Principal, Setup};
use qtext_config::{ClientShare, Config, ConfigClient};
use std::alloc::{AllocError, Global};

/// Writes the table of a principal.
fn put_principal(out: &mut String, kind: &str, principal: &Principal) -> Result<(), AllocError> {
    let id = principal.id;
    let name = principal.name.as_str();
    let limits = &principal.limits;
    writeln!(out, "[[{kind}]]\nid = {id}\nname = \"{name}\"")?;
    writeln!(out, "block_soft = {}", limits.block_soft)?;
    writeln!(out, "block_hard = {}", limits.block_hard)?;
    writeln!(out, "inode_soft = {}", limits.inode_soft)?;
    writeln!(out, "inode_hard = {}", limits.inode_hard)
}

/// Writes what is said once: the size in KiB, the number of inodes, and the graces.
fn put_head(out: &mut String, setup: &Setup) -> Result<(), AllocError> {
    let size = setup.blocks() * 4;
    let graces = setup.graces();
    writeln!(out, "size = \"{size}k\"\nnr_inodes = {}", setup.inodes())?;
    writeln!(out, "block_grace = {}", graces.block)?;
    writeln!(out, "inode_grace = {}", graces.inode)
}

/// Writes a key and its text, each character by its number.
fn put_text(out: &mut String, key: &str, text: &str) -> Result<(), AllocError> {
    write!(out, "{key} = \"")?;
    for letter in text.chars() {
        write!(out, "\\U{:08x}", u32::from(letter))?;
    }
    writeln!(out, "\"")
}

/// Writes what a client may take, as far as it is said.
fn put_share(out: &mut String, share: &ClientShare) -> Result<(), AllocError> {
    if let Some(calls) = share.calls {
        writeln!(out, "share_calls = {calls}")?;
    }
    if let Some(bytes) = share.bytes {
        writeln!(out, "share_kib = {}", bytes / 1024)?;
    }
    if let Some(depth) = share.depth {
        writeln!(out, "share_depth = {depth}")?;
    }
    match share.rate {
        Some(rate) => writeln!(out, "share_rate = {rate}"),
        None => Ok(()),
    }
}

/// Writes the table of a client.
fn put_client(out: &mut String, client: &ConfigClient) -> Result<(), AllocError> {
    writeln!(out, "[[client]]")?;
    put_text(out, "lines", client.lines.as_str())?;
    put_text(out, "replies", client.replies.as_str())?;
    let Some(caller) = &client.caller else {
        return Ok(());
    };
    write!(out, "caller = \"{}:{}", caller.uid(), caller.gid())?;
    for group in caller.more() {
        write!(out, ",{group}")?;
    }
    writeln!(out, "\"")?;
    put_share(out, &client.share)
}

/// A configuration of this setup, with each limit, and of these clients.
pub(crate) fn text_of(alloc: Global, config: &Config) -> Result<String, AllocError> {
    let mut out = String::new(alloc);
    let setup = &config.setup;
    put_head(&mut out, setup)?;
    for user in setup.users() {
        put_principal(&mut out, "user", user)?;
    }
    for group in setup.groups() {
        put_principal(&mut out, "group", group)?;
    }
    for project in setup.projects() {
        put_principal(&mut out, "project", project)?;
    }
    for client in config.clients.as_slice() {
        put_client(&mut out, client)?;
    }
    Ok(out)
}
