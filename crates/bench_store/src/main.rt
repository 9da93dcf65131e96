//! What the calls of a `Store` cost where many files stand in one directory: each kind of call stands in a function of
//! its own, whose instructions `bench/store` counts.
#![tactic(auto)]

ghost use Rattle.std.specs.Prelude.{◌≤◌, IfOk};

use crate::bench::{Bench, Tally};
use crate::calls::{Chosen, FILES, creates, stats, writes};
use crate::changes::{change_long, change_short, cut_blocks};
use crate::directories::{change_directories, look_deep, move_directory};
use crate::names::change_names;
use std::alloc::Global;
use std::io;

mod bench;
mod calls;
mod changes;
mod directories;
mod names;
mod setting;

/// How many files the store has, where no argument says it.
const USUAL_FILES: u64 = 60_000;

/// One inode is the root directory's.
const MOST_FILES: u64 = 65_535;

/// How many of the files are made last, when the others are there.
const LAST: u64 = 100;

/// How many calls of each other kind are made, if there are so many files.
const CALLS: u64 = 1000;

/// How many files are filled, given away and taken away, or renamed, and how many are made long.
const SHORT_FILES: u64 = 100;

const LONG_FILES: u64 = 10;

/// The first of the files that are renamed: those before it are taken away.
const NAMED_FIRST: u64 = 200;

/// The number of files that the first argument says.
fn files_asked(words: &[String]) -> io::Result<u64>
    ensures { IfOk result (λ files. (1 ≤ files) × (files ≤ MOST_FILES)) }
{
    let files = match words {
        [_, word, ..] => word.parse::<u64>().unwrap_or(0),
        _ => USUAL_FILES,
    };
    if files < 1 || files > MOST_FILES {
        return Err(io::Error::from(io::ErrorKind::InvalidInput));
    }
    Ok(files)
}

fn say(rt: &impl Print, tally: Tally) -> io::Result<()> {
    let Tally {
        kind,
        granted,
        blocks,
    } = tally;
    println!(rt; "{kind}: {granted} granted, {blocks} blocks")
}

fn make_files(rt: &impl Print, alloc: Global, bench: &mut Bench, files: u64) -> io::Result<()>
    requires { (1 ≤ files) × (files ≤ MOST_FILES) }
{
    let most = files - files.min(LAST);
    let first = creates(alloc, FILES, 0, most)?;
    let last = creates(alloc, FILES, most, files)?;
    say(rt, bench.create_first(&first)?)?;
    say(rt, bench.create_last(&last)?)
}

fn use_files(rt: &impl Print, alloc: Global, bench: &mut Bench, files: u64) -> io::Result<()>
    requires { (1 ≤ files) × (files ≤ MOST_FILES) }
{
    let calls = files.min(CALLS);
    let block = vec![in alloc; 7u8; 4096]?;
    let stats = stats(alloc, calls, files)?;
    let writes_of_block = writes(alloc, calls, files, 0, &block)?;
    let writes_of_byte = writes(alloc, calls, files, 2000, b"y")?;
    say(rt, bench.stat(&stats)?)?;
    say(rt, bench.write_first(&writes_of_block)?)?;
    say(rt, bench.write_block(&writes_of_block)?)?;
    say(rt, bench.write_byte(&writes_of_byte)?)?;
    let mut buffer = vec![in alloc; 0u8; 4096]?;
    say(rt, bench.read_block(&writes_of_block, &mut buffer))
}

fn change_files(rt: &impl Print, alloc: Global, bench: &mut Bench, files: u64) -> io::Result<()>
    requires { (1 ≤ files) × (files ≤ MOST_FILES) }
{
    let chosen = |first: u64, count: u64| Chosen {
        prefix: FILES,
        first,
        count: files.min(count),
        files,
    };
    cut_blocks(rt, alloc, bench, chosen(0, CALLS))?;
    change_long(rt, alloc, bench, chosen(SHORT_FILES, LONG_FILES))?;
    change_short(rt, alloc, bench, chosen(0, SHORT_FILES))?;
    change_names(rt, alloc, bench, chosen(NAMED_FIRST, SHORT_FILES))?;
    change_directories(rt, alloc, bench, chosen(0, SHORT_FILES))?;
    move_directory(rt, alloc, bench)?;
    look_deep(rt, alloc, bench)
}

fn main(rt: HostRuntime) -> io::Result<()> {
    let alloc = rt.alloc();
    let words: Vec<String> = std::env::args(&rt)?.collect(alloc)?;
    let files = files_asked(&words)?;
    let mut bench = Bench::new(alloc)?;
    make_files(&rt, alloc, &mut bench, files)?;
    use_files(&rt, alloc, &mut bench, files)?;
    change_files(&rt, alloc, &mut bench, files)?;
    println!(&rt; "{} inodes, {} blocks", bench.inodes(), bench.blocks())
}
