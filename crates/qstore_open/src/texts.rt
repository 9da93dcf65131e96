//! Names as text.
ghost use Rattle.std.specs.Prelude.{◌≡◌, true};
ghost use Rattle.std.specs.List.{list_all, list_any};
ghost use Rattle.qplain.specs.Paths.{is_path_byte};
ghost use Rattle.qplain.specs.Walk.{is_name, is_slash};
ghost use Rattle.qtext_image.specs.Faults.{is_path_name};

use qplain::{MAX_NAME, are_path_bytes};

/// It is not empty, and neither `.` nor `..`.
fn is_name(name: &[u8]) -> bool
    ensures { result ≡ is_name name.now }
{
    !matches!(name, [] | [b'.'] | [b'.', b'.'])
}

/// A slash is among them.
fn has_slash(name: &[u8]) -> bool
    ensures { result ≡ list_any is_slash name.now }
{
    name.iter().any(|byte| *byte == b'/')
}

/// The text of bytes that are each 0x21 to 0x7E.
#[tactic(auto, using(crate::proofs::Ascii::path_bytes_are_utf8))]
pub(crate) fn text_of(name: &[u8]) -> &str
    requires { list_all is_path_byte name.now ≡ true }
    ensures { result.now ≡ name.now }
{
    match std::str::from_utf8(name) {
        Ok(text) => text,
        Err(_) => unreachable!(),
    }
}

/// A name that an inode may have: 1 to 255 bytes, each 0x21 to 0x7E, none of them a slash, and neither `.` nor `..`.
pub(crate) fn is_path_name(name: &[u8]) -> bool
    ensures { result ≡ is_path_name name.now }
{
    is_name(name) && name.len() <= MAX_NAME && are_path_bytes(name) && !has_slash(name)
}
