//! Files that are given further names and other names.
ghost use Rattle.std.specs.Prelude.{◌≤◌};

use crate::bench::Bench;
use crate::calls::{Chosen, unlinks};
use crate::say;
use qplain::Call;
use std::alloc::Global;
use std::io;

/// Links of the one to the other.
fn links(alloc: Global, from: Chosen, to: Chosen) -> io::Result<Vec<Call>>
    requires { (1 ≤ from.files) × (1 ≤ to.files) }
{
    let mut calls = Vec::new(alloc);
    for k in 0..from.count {
        calls.push(Call::Link {
            from: from.path(alloc, k)?,
            to: to.path(alloc, k)?,
        })?;
    }
    Ok(calls)
}

/// Renames of the one to the other.
fn renames(alloc: Global, from: Chosen, to: Chosen) -> io::Result<Vec<Call>>
    requires { (1 ≤ from.files) × (1 ≤ to.files) }
{
    let mut calls = Vec::new(alloc);
    for k in 0..from.count {
        calls.push(Call::Rename {
            from: from.path(alloc, k)?,
            to: to.path(alloc, k)?,
        })?;
    }
    Ok(calls)
}

/// Empty files, each of which is given a further name, which is taken away; then each is renamed, and renamed once
/// more, over another.
pub(crate) fn change_names(
    rt: &impl Print,
    alloc: Global,
    bench: &mut Bench,
    files: Chosen,
) -> io::Result<()>
    requires { 1 ≤ files.files }
{
    let further = Chosen {
        prefix: "/l",
        ..files
    };
    let others = Chosen {
        first: files.first.wrapping_add(files.count),
        ..files
    };
    say(rt, bench.link(&links(alloc, files, further)?)?)?;
    say(rt, bench.unlink_further(&unlinks(alloc, further)?)?)?;
    say(rt, bench.rename_free(&renames(alloc, files, further)?)?)?;
    say(rt, bench.rename_over(&renames(alloc, further, others)?)?)
}
