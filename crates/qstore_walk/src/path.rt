//! One path: what is wrong with it, and its components one after another.
ghost use Rattle.std.specs.Prelude.{◌≡◌, ◌∷◌, ◌<◌, length, option_map, Some, IfSome};
ghost use Rattle.std.specs.List.{list_all, position, slice_split};
ghost use Rattle.qplain.specs.Walk.{components, is_name, is_slash, is_well_formed};
ghost use Rattle.qstore_walk.specs.Paths.{name_in, parts_in, path_fault};

use qlanes::first_place;
use qplain::{MAX_NAME, MAX_PATH, Refusal};

/// Where the first slash stands. O(bytes before it).
fn slash_in(text: &str) -> Option<usize>
    ensures { result ≡ position is_slash text.now }
{
    let bytes = text.as_bytes();
    let place = first_place(bytes, b'/');
    if place < bytes.len() {
        Some(place)
    } else {
        None
    }
}

/// The text before the first slash, and that after it, if there is one. O(bytes before it).
pub(crate) fn cut(text: &str) -> (&str, Option<&str>)
    ensures parts { slice_split is_slash text.now ≡ result.0.now ∷ parts_in (option_map (λ rest. rest.now) result.1) }
    ensures less { IfSome result.1 (λ rest. length rest.now < length text.now) }
{
    match slash_in(text) {
        Some(slash) => (&text[..slash], Some(&text[slash + 1..])),
        None => (text, None),
    }
}

/// The components of a path that is written as it may be, with slashes between them, if there are any: `/` has none.
pub(crate) fn names_of(path: &str) -> Option<&str>
    ensures { components path.now ≡ parts_in (option_map (λ names. names.now) result) }
{
    match path.as_bytes() {
        [b'/'] => None,
        [first, ..] if *first == b'/' => Some(&path[1..]),
        _ => cut(path).1,
    }
}

/// The last component of a path, or nothing of `/`. O(bytes).
pub fn last_of(path: &str) -> &str
    ensures { result.now ≡ name_in path.now }
{
    let Some(names) = names_of(path) else {
        return "";
    };
    let (mut name, mut behind) = cut(names);
    while let Some(rest) = behind {
        (name, behind) = cut(rest);
    }
    name
}

/// Whether it may be a component: it is not empty, and neither `.` nor `..`.
fn is_name(name: &str) -> bool
    ensures { result ≡ is_name name.now }
{
    !matches!(name.as_bytes(), [] | [b'.'] | [b'.', b'.'])
}

/// Whether each of these components is a name. O(bytes).
#[inline(always)]
fn are_names(all: &str) -> bool
    ensures { result ≡ list_all is_name (parts_in (Some all.now)) }
{
    let mut behind = Some(all);
    while let Some(names) = behind {
        let (name, rest) = cut(names);
        if !is_name(name) {
            return false;
        }
        behind = rest;
    }
    true
}

/// Whether a path begins with a slash, and all of its components are names. O(bytes).
#[inline(always)]
fn is_well_formed(path: &str) -> bool
    ensures { result ≡ is_well_formed path.now }
{
    if path.as_bytes().first() != Some(&b'/') {
        return false;
    }
    match names_of(path) {
        Some(names) => are_names(names),
        None => true,
    }
}

/// What is wrong with a path of any length. O(bytes).
#[inline(never)]
fn fault_of_any(path: &str) -> Option<Refusal>
    ensures { result ≡ path_fault path.now }
{
    if path.as_bytes().first() != Some(&b'/') {
        return Some(Refusal::EINVAL);
    }
    let mut is_too_long = path.len() > MAX_PATH;
    let mut behind = names_of(path);
    while let Some(names) = behind {
        let (name, rest) = cut(names);
        if !is_name(name) {
            return Some(Refusal::EINVAL);
        }
        is_too_long = is_too_long || name.len() > MAX_NAME;
        behind = rest;
    }
    if is_too_long {
        Some(Refusal::ENAMETOOLONG)
    } else {
        None
    }
}

/// What is wrong with a path: EINVAL for its form, else ENAMETOOLONG of a component above 255 bytes, or of the whole
/// above 4095. O(bytes).
#[inline(always)]
pub(crate) fn fault_of(path: &str) -> Option<Refusal>
    ensures { result ≡ path_fault path.now }
{
    if path.len() > MAX_NAME {
        return fault_of_any(path);
    }
    // No component is longer than the whole, so only its form can be wrong.
    if is_well_formed(path) {
        None
    } else {
        Some(Refusal::EINVAL)
    }
}
