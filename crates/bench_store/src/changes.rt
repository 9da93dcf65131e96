//! Files that are cut, given away and taken away again: short ones, and ones of 1,000 blocks.
ghost use Rattle.std.specs.Prelude.{◌≤◌};

use crate::bench::Bench;
use crate::calls::{Chosen, LONG, Owners, chowns, fills, long_fills, truncates, unlinks};
use crate::say;
use std::alloc::Global;
use std::io;

/// The most bytes that a file may have.
const MOST_BYTES: u64 = 1 << 30;

const BLOCK: u64 = 4096;

/// To another user and group, and back.
const GIFTS: [Owners; 2] = [(Some(1001), Some(0)), (Some(1000), Some(100))];

/// To another of the owner's groups, and back.
const REGROUPINGS: [Owners; 2] = [(None, Some(0)), (None, Some(100))];

/// The files of a block each: after them all are empty.
pub(crate) fn cut_blocks(
    rt: &impl Print,
    alloc: Global,
    bench: &mut Bench,
    files: Chosen,
) -> io::Result<()>
    requires { 1 ≤ files.files }
{
    let cuts = truncates(alloc, files, &[0])?;
    say(rt, bench.truncate_block(&cuts)?)
}

/// Empty files, that are filled and cut, or made long and cut, and given away and taken away when they are empty.
pub(crate) fn change_short(
    rt: &impl Print,
    alloc: Global,
    bench: &mut Bench,
    files: Chosen,
) -> io::Result<()>
    requires { 1 ≤ files.files }
{
    let cuts = truncates(alloc, files, &[0])?;
    bench.apply_all("fills", &fills(alloc, files, 0, 65_536)?)?;
    say(rt, bench.truncate_16(&cuts)?)?;
    say(
        rt,
        bench.truncate_up(&truncates(alloc, files, &[MOST_BYTES])?)?,
    )?;
    bench.apply_all("fills", &fills(alloc, files, MOST_BYTES - 1, 1)?)?;
    say(rt, bench.truncate_far(&cuts)?)?;
    say(rt, bench.chown_empty(&chowns(alloc, files, &GIFTS)?)?)?;
    say(
        rt,
        bench.regroup_empty(&chowns(alloc, files, &REGROUPINGS)?)?,
    )?;
    say(rt, bench.unlink_empty(&unlinks(alloc, files)?)?)
}

/// The sizes that cut a long file block by block, ten times.
fn shorter(alloc: Global) -> io::Result<Vec<u64>> {
    let mut sizes = Vec::new(alloc);
    for blocks in 1..11u64 {
        sizes.push((LONG - blocks) * BLOCK)?;
    }
    Ok(sizes)
}

/// Empty files, each of which is given 1,000 blocks.
pub(crate) fn change_long(
    rt: &impl Print,
    alloc: Global,
    bench: &mut Bench,
    files: Chosen,
) -> io::Result<()>
    requires { 1 ≤ files.files }
{
    let parts = long_fills(alloc, files)?;
    bench.apply_all("fills", &parts)?;
    say(rt, bench.chown_1000(&chowns(alloc, files, &GIFTS)?)?)?;
    say(
        rt,
        bench.regroup_1000(&chowns(alloc, files, &REGROUPINGS)?)?,
    )?;
    say(
        rt,
        bench.truncate_last(&truncates(alloc, files, &shorter(alloc)?)?)?,
    )?;
    bench.apply_all("fills", &parts)?;
    say(rt, bench.truncate_1000(&truncates(alloc, files, &[0])?)?)?;
    bench.apply_all("fills", &parts)?;
    say(rt, bench.unlink_1000(&unlinks(alloc, files)?)?)
}
