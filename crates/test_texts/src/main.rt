//! Reads texts that nobody vouches for: scripts, journals and configurations, good ones and hostile ones, from standard
//! input, and tells what each comes to.
#![tactic(auto)]

use answer::Answer;
use configs::answer_of_config;
use item::{Item, Kind, next_item};
use journals::answer_of_journal;
use scripts::answer_of_script;
use std::alloc::Global;
use std::io::{self, BufRead, BufWriter, ErrorKind, Read, Write};

mod answer;
mod configs;
mod faults;
mod item;
mod journals;
mod scripts;
mod setups;
mod spellings;

/// As much of the output is gathered before it is written, in bytes.
const OUTPUT_BUFFER: usize = 65_536;

/// What a text comes to.
fn answer_of(alloc: Global, item: &Item<'_>) -> io::Result<Answer> {
    match item.kind {
        Kind::Script => answer_of_script(alloc, item.text),
        Kind::Journal => answer_of_journal(alloc, item.text),
        Kind::Config => answer_of_config(alloc, item.text),
    }
}

/// Tells what each text of the input comes to, one line each. An input that has no items ends it.
fn answer_all<W: Write>(alloc: Global, input: &[u8], out: &mut W) -> io::Result<()> {
    let mut rest = input;
    while !rest.is_empty() {
        let Some((item, after)) = next_item(rest) else {
            return Err(io::Error::from(ErrorKind::InvalidInput));
        };
        let answer = answer_of(alloc, &item)?;
        writeln!(out, "{answer}")?;
        rest = after;
    }
    Ok(())
}

fn main(rt: HostRuntime) -> io::Result<()> {
    let alloc = rt.alloc();
    let mut input = Vec::new(alloc);
    rt.reader().read_to_end(&mut input)?;
    let mut out = BufWriter::with_capacity(alloc, OUTPUT_BUFFER, io::writer(&rt))?;
    answer_all(alloc, &input, &mut out)?;
    out.flush()
}
