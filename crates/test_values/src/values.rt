//! Callers, paths and bytes that no line of a script can name, and what a caller keeps.

use qplain::{Cred, Data, NoMemory, Path, SharedItems};
use std::alloc::Global;

/// Seventeen groups, which are one more than a caller may have.
const GROUPS: [u32; 17] = [9, 7, 7, 0, 1, 2, 3, 4, 5, 6, 7, 8, 9, 10, 11, 12, 13];

/// Whether a caller keeps its groups as they are given, where there is such a caller.
fn is_kept(alloc: Global, more: &[u32]) -> Result<Option<bool>, NoMemory> {
    match Cred::new(alloc, 1001, 100, more)? {
        Some(caller) => {
            let is_own = caller.uid() == 1001 && caller.gid() == 100;
            Ok(Some(is_own && caller.more() == more))
        }
        None => Ok(None),
    }
}

#[test]
fn a_caller_keeps_its_further_groups_in_order(rt: HostRuntime) -> Result<(), NoMemory> {
    let sixteen = is_kept(rt.alloc(), &GROUPS[..16])?;
    let seventeen = is_kept(rt.alloc(), &GROUPS)?;
    assert_eq!(rt; (sixteen, seventeen), (Some(true), None));
    Ok(())
}

/// Whether callers of one user and group and these further groups are equal.
fn are_one(alloc: Global, first: &[u32], second: &[u32]) -> Result<bool, NoMemory> {
    let first = Cred::new(alloc, 1001, 100, first)?;
    Ok(Cred::new(alloc, 1001, 100, second)? == first)
}

#[test]
fn callers_are_equal_where_their_further_groups_are(rt: HostRuntime) -> Result<(), NoMemory> {
    let groups = &[7, 9, 7, 0];
    for (first, second, is_one) in [
        (0..2, 0..2, true),
        (0..2, 1..3, false),
        (0..1, 0..0, false),
        (3..4, 0..0, false),
    ] {
        assert_eq!(rt;
            are_one(rt.alloc(), &groups[first], &groups[second])?,
            is_one
        );
    }
    Ok(())
}

/// Whether a path has these bytes, where there is one of them.
fn is_path(alloc: Global, text: &str) -> Result<Option<bool>, NoMemory> {
    match Path::new(alloc, text.as_bytes())? {
        Some(path) => Ok(Some(path.bytes() == text.as_bytes())),
        None => Ok(None),
    }
}

#[test]
fn a_path_is_one_byte_or_more_that_print_and_are_no_space(rt: HostRuntime) -> Result<(), NoMemory> {
    for text in ["!a//~/", "", "/a b", "/\n", "/\u{7f}", "/\u{e9}"] {
        let wanted = if text == "!a//~/" { Some(true) } else { None };
        assert_eq!(rt; is_path(rt.alloc(), text)?, wanted, "at {text}");
    }
    Ok(())
}

/// Whether bytes that are written are equal to others, from either side.
fn is_written(alloc: Global, bytes: &[u8], other: &Data) -> Result<(bool, bool), NoMemory> {
    let written = Data::new(SharedItems::new(Vec::from_slice(alloc, bytes)?)?);
    Ok((written == *other, *other == written))
}

#[test]
fn bytes_are_equal_however_they_are_kept(rt: HostRuntime) -> Result<(), NoMemory> {
    for (bytes, count) in [("", 0), ("aaa", 3), ("aab", 3), ("aa", 3)] {
        let found = is_written(rt.alloc(), bytes.as_bytes(), &Data::fill(count, 97))?;
        let is_equal = bytes.len() as u64 == count && bytes != "aab";
        assert_eq!(rt; found, (is_equal, is_equal), "at {bytes}");
    }
    Ok(())
}

#[test]
fn filled_bytes_are_equal_where_their_numbers_are(rt: HostRuntime) {
    for (count, byte, other) in [(3, 97, true), (3, 98, false), (2, 97, false)] {
        assert_eq!(rt; Data::fill(3, 97) == Data::fill(count, byte), other);
    }
    assert!(rt; Data::fill(0, 97) == Data::fill(0, 98));
}
