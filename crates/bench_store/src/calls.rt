//! Calls made beforehand, so that to make them is not counted.
ghost use Rattle.std.specs.Prelude.{◌≤◌};

use qplain::{Call, Data, NoMemory, Path, SharedItems};
use std::alloc::Global;
use std::io;

/// How the paths of the files begin.
pub(crate) const FILES: &str = "/f";

/// The path of this text.
pub(crate) fn path(alloc: Global, text: &str) -> io::Result<Path> {
    match Path::new(alloc, text.as_bytes())? {
        Some(path) => Ok(path),
        None => Err(io::Error::from(io::ErrorKind::InvalidInput)),
    }
}

/// The path of what has this number among those whose paths begin so. The first has the number 10,000, so that all
/// names are of one length.
fn path_of(alloc: Global, prefix: &str, number: u64) -> io::Result<Path> {
    let text = format!(in alloc; "{prefix}{}", number.wrapping_add(10_000))?;
    path(alloc, &text)
}

/// One file after another, far from each other, and none twice before all were there once: the step is a prime, which
/// divides no number of files that is asked for.
fn scattered(k: u64, files: u64) -> u64
    requires { 1 ≤ files }
{
    k.wrapping_mul(7919) % files
}

/// Creates of the files from `first` up to `end` whose paths begin so.
pub(crate) fn creates(alloc: Global, prefix: &str, first: u64, end: u64) -> io::Result<Vec<Call>> {
    let mut calls = Vec::new(alloc);
    for file in first..end {
        let path = path_of(alloc, prefix, file)?;
        calls.push(Call::Create { path })?;
    }
    Ok(calls)
}

/// N stats.
pub(crate) fn stats(alloc: Global, count: u64, files: u64) -> io::Result<Vec<Call>>
    requires { 1 ≤ files }
{
    let mut calls = Vec::new(alloc);
    for k in 0..count {
        let path = path_of(alloc, FILES, scattered(k, files))?;
        calls.push(Call::Stat { path })?;
    }
    Ok(calls)
}

fn write(alloc: Global, file: u64, off: u64, bytes: &[u8]) -> io::Result<Call> {
    Ok(Call::Write {
        path: path_of(alloc, FILES, file)?,
        off,
        bytes: Data::new(SharedItems::new(Vec::from_slice(alloc, bytes)?)?),
    })
}

/// N writes.
pub(crate) fn writes(
    alloc: Global,
    count: u64,
    files: u64,
    off: u64,
    bytes: &[u8],
) -> io::Result<Vec<Call>>
    requires { 1 ≤ files }
{
    let mut calls = Vec::new(alloc);
    for k in 0..count {
        calls.push(write(alloc, scattered(k, files), off, bytes)?)?;
    }
    Ok(calls)
}

/// So many of the scattered files, from one of them on, or as many other inodes.
#[derive(Clone, Copy)]
pub(crate) struct Chosen {
    /// How their paths begin.
    pub(crate) prefix: &'static str,
    pub(crate) first: u64,
    pub(crate) count: u64,
    /// How many files there are in all.
    pub(crate) files: u64,
}

impl Chosen {
    pub(crate) fn path(&self, alloc: Global, k: u64) -> io::Result<Path>
        requires { 1 ≤ self.now.files }
    {
        let number = scattered(self.first.wrapping_add(k), self.files);
        path_of(alloc, self.prefix, number)
    }
}

/// Fills of the chosen files at an offset, 16 blocks or fewer.
pub(crate) fn fills(alloc: Global, chosen: Chosen, off: u64, len: u64) -> io::Result<Vec<Call>>
    requires { 1 ≤ chosen.files }
{
    let mut calls = Vec::new(alloc);
    for k in 0..chosen.count {
        calls.push(Call::Write {
            path: chosen.path(alloc, k)?,
            off,
            bytes: Data::fill(len, 7),
        })?;
    }
    Ok(calls)
}

/// How many blocks `long_fills` gives a file.
pub(crate) const LONG: u64 = 1000;

/// Fills that give each of the chosen files 1,000 blocks, 8 at a time.
pub(crate) fn long_fills(alloc: Global, chosen: Chosen) -> io::Result<Vec<Call>>
    requires { 1 ≤ chosen.files }
{
    let mut calls = Vec::new(alloc);
    for part in 0..125u64 {
        for call in fills(alloc, chosen, part.wrapping_mul(32_768), 32_768)? {
            calls.push(call)?;
        }
    }
    Ok(calls)
}

/// Truncates of the chosen files to each size, one size after the other.
pub(crate) fn truncates(alloc: Global, chosen: Chosen, sizes: &[u64]) -> io::Result<Vec<Call>>
    requires { 1 ≤ chosen.files }
{
    let mut calls = Vec::new(alloc);
    for size in sizes {
        for k in 0..chosen.count {
            let path = chosen.path(alloc, k)?;
            calls.push(Call::Truncate { path, size: *size })?;
        }
    }
    Ok(calls)
}

/// Who is to own a file: what is None stays.
pub(crate) type Owners = (Option<u32>, Option<u32>);

/// Chowns of the chosen files to each pair of owners, one pair after the other.
pub(crate) fn chowns(alloc: Global, chosen: Chosen, owners: &[Owners]) -> io::Result<Vec<Call>>
    requires { 1 ≤ chosen.files }
{
    let mut calls = Vec::new(alloc);
    for (uid, gid) in owners {
        for k in 0..chosen.count {
            calls.push(Call::Chown {
                path: chosen.path(alloc, k)?,
                uid: *uid,
                gid: *gid,
                project: None,
            })?;
        }
    }
    Ok(calls)
}

/// Unlinks of the chosen files.
pub(crate) fn unlinks(alloc: Global, chosen: Chosen) -> io::Result<Vec<Call>>
    requires { 1 ≤ chosen.files }
{
    let mut calls = Vec::new(alloc);
    for k in 0..chosen.count {
        let path = chosen.path(alloc, k)?;
        calls.push(Call::Unlink { path })?;
    }
    Ok(calls)
}
