//! What may stand at the keys of a configuration.

use qplain::{MAX_BLOCKS, MAX_INODES, MAX_PRINCIPALS, MAX_WORKERS, is_principal_name};
use qrules::{MAX_GRACE, MAX_LIMIT};
use qtext::ReadFault;
use qtext_config::{
    CLIENT_KEYS, MAX_CALLS, MAX_DEPTH, MAX_KIB, MAX_RATE, PRINCIPAL_KEYS, blocks_of_size,
};
use qtext_read::caller_of;
use std::alloc::{AllocError, Global};
use std::fmt;
use toml::Value;

/// What may stand at a key.
#[derive(Clone, Copy)]
pub(super) enum Form {
    Size,
    Name,
    /// A whole number of what the words say, at least the first and at most the second.
    Number(&'static str, u64, u64),
    Stream,
    Caller,
    /// A list of tables, at most so many.
    List(u64),
}

/// The list of the clients of a service, of which all is tested behind the rest.
pub(super) const CLIENTS: &str = "client";

/// The keys of the tables of a list.
pub(super) fn keys_in(list: &str) -> &'static [&'static str] {
    if list == CLIENTS {
        &CLIENT_KEYS
    } else {
        &PRINCIPAL_KEYS
    }
}

/// Whether a key that is known has to be there, and what may stand at it.
pub(super) fn rule_of(key: &str) -> (bool, Form) {
    match key {
        "size" => (true, Form::Size),
        "nr_inodes" => (true, Form::Number(" of inodes", 1, MAX_INODES)),
        "block_grace" | "inode_grace" => (true, Form::Number(" of seconds", 1, MAX_GRACE)),
        "id" => (true, Form::Number("", 0, u64::from(u32::MAX))),
        "name" => (true, Form::Name),
        "block_soft" | "block_hard" => (false, Form::Number(" of KiB", 0, MAX_LIMIT)),
        "inode_soft" | "inode_hard" => (false, Form::Number(" of inodes", 0, MAX_LIMIT)),
        "lines" | "replies" => (true, Form::Stream),
        "caller" => (false, Form::Caller),
        "share_calls" => (false, Form::Number(" of calls", 0, MAX_CALLS)),
        "share_kib" => (false, Form::Number(" of KiB", 0, MAX_KIB)),
        "share_depth" => (false, Form::Number(" of components", 1, MAX_DEPTH)),
        "share_rate" => (false, Form::Number(" of turns", 1, MAX_RATE)),
        CLIENTS => (false, Form::List(MAX_WORKERS)),
        _ => (key != "project", Form::List(MAX_PRINCIPALS as u64)),
    }
}

/// Whether a table has a client's share and no caller, to whom it would have to be bound.
pub(super) fn lacks_caller(client: &Value) -> bool {
    let mut shares = CLIENT_KEYS.into_iter();
    let is_shared = shares.any(|key| key.starts_with("share_") && client.get(key).is_some());
    is_shared && client.get("caller").is_none()
}

/// Whether a text is a caller.
fn is_caller(alloc: Global, text: &str) -> Result<bool, AllocError> {
    match caller_of(alloc, text.as_bytes()) {
        Ok(_) => Ok(true),
        Err(ReadFault::Fault(_)) => Ok(false),
        Err(ReadFault::Memory) => Err(AllocError),
    }
}

/// Whether a value is in the range of a form, and None where it is of another kind or form.
pub(super) fn is_in_range(
    alloc: Global,
    form: Form,
    value: &Value,
) -> Result<Option<bool>, AllocError> {
    Ok(match (form, value) {
        (Form::Size, Value::String(text)) => {
            blocks_of_size(text.as_bytes()).map(|blocks| matches!(blocks, 1..=MAX_BLOCKS))
        }
        (Form::Name, Value::String(text)) => is_principal_name(text.as_bytes()).then_some(true),
        (Form::Number(_, least, most), Value::Integer(integer)) => {
            Some(matches!(u64::try_from(*integer), Ok(number) if least <= number && number <= most))
        }
        (Form::Stream, Value::String(text)) => (!text.is_empty()).then_some(true),
        (Form::Caller, Value::String(text)) => is_caller(alloc, text.as_str())?.then_some(true),
        (Form::List(most), Value::Array(list)) => {
            let count = list.len() as u64;
            Some(1 <= count && count <= most)
        }
        _ => None,
    })
}

impl fmt::Display for Form {
    fn fmt<W: fmt::Write>(&self, f: &mut fmt::Formatter<W>) -> fmt::Result {
        f.write_str(match self {
            Form::Size =>
                "a text: bytes in 1 to 10 digits, the first not 0, then k, m, g or nothing; at most 4g",
            Form::Name => "a text of 1 to 16 bytes, a to z, 0 to 9, _ and -, the first a letter",
            Form::Stream => "a text of a byte or more, a file's name or -",
            Form::Caller => "a text UID:GID, then at most 16 times ,GROUP",
            Form::List(most) => return write!(f, "a list of 1 to {most} tables"),
            Form::Number(of, min, max) => return write!(f, "a whole number{of}, {min} to {max}"),
        })
    }
}
