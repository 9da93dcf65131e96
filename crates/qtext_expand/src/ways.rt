//! `mkdir -p` and `rm -r`: directories on a path's way, and what is taken away one after the other.
ghost use Rattle.std.specs.Prelude.{◌≡◌, ◌≤◌, ◌∷◌, ◌++◌, [], map, length, IfOk};
ghost use Rattle.qtext_expand.specs.FriendlyCalls.{ends_name, removal_call, way_call, way_calls};
ghost use Rattle.qtext_expand.specs.FriendlyWords.{spaced};

use crate::words::text_of;
use qtext::Piece;
use std::alloc::{AllocError, Global};

/// Whether a name of the path ends there: at its end, or before a slash.
fn ends_name(path: &[u8], end: usize) -> bool
    requires { end ≤ length path.now }
    ensures { result ≡ ends_name path.now end }
{
    if end == path.len() {
        return true;
    }
    path[end] == b'/'
}

fn path_call(alloc: Global, verb: &[u8], path: &[u8]) -> Result<Vec<u8>, AllocError>
    ensures { IfOk result (λ call. call.items ≡ spaced (verb.now ∷ path.now ∷ [])) }
{
    text_of(alloc, &[Piece::Text(verb), Piece::Text(path)])
}

/// Puts `mkdir` of the directory whose name ends there, if one does, after the calls that are there.
fn put_way(
    alloc: Global,
    calls: &mut Vec<Vec<u8>>,
    path: &[u8],
    end: usize,
) -> Result<(), AllocError>
    requires { end ≤ length path.now }
    ensures { IfOk result (λ _. map (λ call. call.items) calls.new.items
        ≡ map (λ call. call.items) calls.old.items ++ way_call path.now end) }
{
    if ends_name(path, end) {
        calls.push(path_call(alloc, b"mkdir", path.split_at(end).0)?)?;
    }
    Ok(())
}

/// `mkdir` of each directory on a path's way, the upper ones first.
pub(crate) fn way_calls(alloc: Global, path: &[u8]) -> Result<Vec<Vec<u8>>, AllocError>
    ensures { IfOk result (λ calls. map (λ call. call.items) calls.items ≡ way_calls path.now (length path.now)) }
{
    let mut calls = Vec::new(alloc);
    for before in 0..path.len() {
        put_way(alloc, &mut calls, path, before + 1)?;
    }
    Ok(calls)
}

/// What takes away what is named: with a slash behind it a directory.
fn removal_call(alloc: Global, path: &[u8]) -> Result<Vec<u8>, AllocError>
    ensures { IfOk result (λ call. call.items ≡ removal_call path.now) }
{
    if path.is_empty() {
        return path_call(alloc, b"unlink", path);
    }
    let last = path.len() - 1;
    if path[last] == b'/' {
        return path_call(alloc, b"rmdir", path.split_at(last).0);
    }
    path_call(alloc, b"unlink", path)
}

/// What takes each path away, in their order.
pub(crate) fn removal_calls(alloc: Global, paths: &[&[u8]]) -> Result<Vec<Vec<u8>>, AllocError>
    ensures { IfOk result (λ calls. map (λ call. call.items) calls.items
        ≡ map removal_call (map (λ path. path.now) paths.now)) }
{
    let mut calls = Vec::new(alloc);
    for path in paths {
        calls.push(removal_call(alloc, path)?)?;
    }
    Ok(calls)
}
