//! Directories that are made, taken away and moved, and paths that lead through many.
ghost use Rattle.std.specs.Prelude.{◌≤◌};

use crate::bench::Bench;
use crate::calls::{Chosen, creates, path};
use crate::say;
use qplain::{Call, Path};
use std::alloc::Global;
use std::io;

/// How many files stand in the directory that is moved.
const FILES_BELOW: u64 = 1000;

/// How often it is moved, and how many stats of a path are made.
const TIMES: u64 = 100;

/// How many components the longest path has.
const DEPTH: u64 = 30;

/// Mkdirs of the chosen directories.
fn mkdirs(alloc: Global, chosen: Chosen) -> io::Result<Vec<Call>>
    requires { 1 ≤ chosen.files }
{
    let mut calls = Vec::new(alloc);
    for k in 0..chosen.count {
        let path = chosen.path(alloc, k)?;
        calls.push(Call::Mkdir { path })?;
    }
    Ok(calls)
}

/// Rmdirs of the chosen directories.
fn rmdirs(alloc: Global, chosen: Chosen) -> io::Result<Vec<Call>>
    requires { 1 ≤ chosen.files }
{
    let mut calls = Vec::new(alloc);
    for k in 0..chosen.count {
        let path = chosen.path(alloc, k)?;
        calls.push(Call::Rmdir { path })?;
    }
    Ok(calls)
}

/// Empty directories that are made and taken away, as many as there are chosen files.
pub(crate) fn change_directories(
    rt: &impl Print,
    alloc: Global,
    bench: &mut Bench,
    files: Chosen,
) -> io::Result<()>
    requires { 1 ≤ files.files }
{
    let directories = Chosen {
        prefix: "/d",
        ..files
    };
    say(rt, bench.mkdir(&mkdirs(alloc, directories)?)?)?;
    say(rt, bench.rmdir(&rmdirs(alloc, directories)?)?)
}

fn mkdir(alloc: Global, text: &str) -> io::Result<Call> {
    Ok(Call::Mkdir {
        path: path(alloc, text)?,
    })
}

/// Renames of a directory from one into another, and back, over and over.
fn moves(alloc: Global) -> io::Result<Vec<Call>> {
    let mut calls = Vec::new(alloc);
    for _ in 0..TIMES / 2 {
        for (from, to) in [("/here/tree", "/there/tree"), ("/there/tree", "/here/tree")] {
            calls.push(Call::Rename {
                from: path(alloc, from)?,
                to: path(alloc, to)?,
            })?;
        }
    }
    Ok(calls)
}

/// A directory that is moved while it is empty, and when it holds files.
pub(crate) fn move_directory(rt: &impl Print, alloc: Global, bench: &mut Bench) -> io::Result<()> {
    for text in ["/here", "/there", "/here/tree"] {
        bench.apply_all("mkdirs", &[mkdir(alloc, text)?])?;
    }
    let moves = moves(alloc)?;
    say(rt, bench.move_empty(&moves)?)?;
    let files = creates(alloc, "/here/tree/f", 0, FILES_BELOW)?;
    bench.apply_all("creates", &files)?;
    say(rt, bench.move_full(&moves)?)
}

/// A path of N components.
fn nested(alloc: Global, components: u64) -> io::Result<Path> {
    let mut text = String::new(alloc);
    for _ in 0..components {
        text.push_str("/c10000")?;
    }
    path(alloc, &text)
}

/// Stats of a path of N components.
fn stats_at(alloc: Global, components: u64) -> io::Result<Vec<Call>> {
    let mut calls = Vec::new(alloc);
    for _ in 0..TIMES {
        let path = nested(alloc, components)?;
        calls.push(Call::Stat { path })?;
    }
    Ok(calls)
}

/// Directories in each other, of which the first and the last are looked at.
pub(crate) fn look_deep(rt: &impl Print, alloc: Global, bench: &mut Bench) -> io::Result<()> {
    for components in 1..=DEPTH {
        let path = nested(alloc, components)?;
        bench.apply_all("mkdirs", &[Call::Mkdir { path }])?;
    }
    say(rt, bench.stat_near(&stats_at(alloc, 1)?)?)?;
    say(rt, bench.stat_deep(&stats_at(alloc, DEPTH)?)?)
}
