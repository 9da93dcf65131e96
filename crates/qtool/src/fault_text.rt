//! Fault lines, each as it goes to the error output.

use crate::clashes::{Clash, Role};
use crate::{ConfigFault, FileFault, TextFault};
use qtext::{Piece, Written, put, put_pieces};
use qtext_check::put_name;
use std::io::Write;

/// Writes what a name is of.
fn put_role<E: Write>(err: &mut E, role: Role) -> Written {
    match role {
        Role::Config => put(err, b"the configuration"),
        Role::Script(number) => put_numbered(err, b"script ", number),
        Role::Journal | Role::Played => put(err, b"the journal"),
        Role::Image => put(err, b"the image"),
        Role::Board => put(err, b"the board"),
        Role::Standard => put(err, b"the output"),
        Role::Input(client) => put_numbered(err, b"the lines of client ", client),
        Role::Output(client) => put_numbered(err, b"the replies of client ", client),
    }
}

fn put_numbered<E: Write>(err: &mut E, words: &[u8], number: u64) -> Written {
    put_pieces(err, &[Piece::Text(words), Piece::Number(number)])
}

/// Writes a fault of the command line: which two of its names clash.
pub(crate) fn put_clash<E: Write>(err: &mut E, clash: Clash) -> Written {
    put(err, b"error: ")?;
    match clash {
        Clash::Over(one, other) => {
            put_role(err, one)?;
            put(err, b" would be written over ")?;
            put_role(err, other)?;
            put(err, b"\n")
        }
        Clash::Stream(one, other) => {
            put_role(err, one)?;
            put(err, b" and ")?;
            put_role(err, other)?;
            put(err, b" are one stream\n")
        }
    }
}

pub(crate) fn put_fault<E: Write>(err: &mut E, words: &[u8]) -> Written {
    let pieces = [
        Piece::Text(b"quotafs: "),
        Piece::Text(words),
        Piece::Text(b"\n"),
    ];
    put_pieces(err, &pieces)
}

/// Writes a fault of what has this name.
fn put_named<'a, E: Write>(err: &mut E, words: &'a [u8], name: &'a [u8]) -> Written {
    put_pieces(err, &[Piece::Text(b"quotafs: "), Piece::Text(words)])?;
    put_name(err, name)?;
    put(err, b"\n")
}

/// What is said of a file that cannot be read.
fn why_words(why: FileFault) -> &'static [u8] {
    match why {
        FileFault::NotThere => b"it is not there",
        FileFault::Folder => b"it is a folder",
        FileFault::NotPermitted => b"it may not be read",
        FileFault::NotText => b"it is not UTF-8",
        FileFault::LongLine => b"64 MiB of it have no line end",
        FileFault::Fails | FileFault::Memory => b"the system fails to read it",
    }
}

/// Writes which file cannot be read, and why, where that is to be told.
pub(crate) fn put_file<E: Write>(err: &mut E, name: &[u8], why: Option<FileFault>) -> Written {
    put_named(err, b"cannot read ", name)?;
    match why {
        Some(why) => put_fault(err, why_words(why)),
        None => Ok(()),
    }
}

/// Writes which file cannot be written.
pub(crate) fn put_unwritten<E: Write>(err: &mut E, name: &[u8]) -> Written {
    put_named(err, b"cannot write ", name)
}

/// Writes what became of the stream of this name, which is a client's.
pub(crate) fn put_client_fault<E: Write>(
    err: &mut E,
    client: u64,
    words: &str,
    name: &str,
) -> Written {
    put_numbered(err, b"quotafs: client ", client)?;
    put(err, b": ")?;
    put(err, words.as_bytes())?;
    put_name(err, name.as_bytes())?;
    put(err, b"\n")
}

pub(crate) fn put_script<E: Write>(err: &mut E, number: u64, fault: &TextFault) -> Written {
    put_numbered(err, b"quotafs: script ", number)?;
    put_text_fault(err, fault)
}

pub(crate) fn put_friendly<E: Write>(err: &mut E, name: &[u8], fault: &TextFault) -> Written {
    put(err, b"quotafs: ")?;
    put_name(err, name)?;
    put_text_fault(err, fault)
}

pub(crate) fn put_journal_fault<E: Write>(err: &mut E, fault: &TextFault) -> Written {
    put(err, b"quotafs: journal")?;
    put_text_fault(err, fault)
}

/// Writes which line is at fault and why, after the text's name.
fn put_text_fault<E: Write>(err: &mut E, fault: &TextFault) -> Written {
    let pieces = [
        Piece::Text(b": line "),
        Piece::Number(fault.line),
        Piece::Text(b": "),
        Piece::Text(fault.kind.words().as_bytes()),
        Piece::Text(b"\n"),
    ];
    put_pieces(err, &pieces)
}

pub(crate) fn put_mismatch<E: Write>(err: &mut E, place: u64) -> Written {
    put_numbered(err, b"quotafs: mismatch at ", place)?;
    put(err, b"\n")
}

pub(crate) fn put_not_started<E: Write>(err: &mut E, worker: u64) -> Written {
    put_numbered(err, b"quotafs: worker ", worker)?;
    put(err, b" not started\n")
}

pub(crate) fn put_config<E: Write>(err: &mut E, fault: &ConfigFault) -> Written {
    match fault {
        ConfigFault::Text => put_fault(err, b"config: text"),
        ConfigFault::Field(key) => put_named(err, b"config: field ", key.as_bytes()),
        ConfigFault::Range => put_fault(err, b"config: range"),
        ConfigFault::Duplicate => put_fault(err, b"config: duplicate"),
        ConfigFault::NoZero => put_fault(err, b"config: no zero"),
        ConfigFault::Memory => put_fault(err, b"memory"),
    }
}
