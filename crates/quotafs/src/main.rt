//! Runs scripts of calls on a shared store of files in memory, with disk quotas for users, groups and projects.
#![tactic(auto)]

use qtool::{Machine, tool};
use qtool_machine::MachineFiles;
use std::io::{self, BufWriter, ErrorKind};
use std::process::ExitCode;
use std::random::RandomSource;

/// As much of the output is gathered before it is written, in bytes.
const OUTPUT_BUFFER: usize = 262_144;

/// As long a fault line goes out by one write, in bytes, so that lines of runs beside each other do not mix.
const LINE_BUFFER: usize = 32_768;

/// The words of the command line.
fn words(rt: &HostRuntime) -> io::Result<Vec<String>> {
    let words = std::env::args(rt)?.collect(rt.alloc())?;
    Ok(words)
}

/// A number that nobody knows beforehand, or 0 where the machine has no source of chance.
fn seed(rt: &HostRuntime) -> u64 {
    let mut bytes = [0; 8];
    match rt.fill_bytes(&mut bytes) {
        Ok(()) => u64::from_le_bytes(bytes),
        Err(_) => 0,
    }
}

/// Ends out of memory.
fn out_of_memory(rt: &HostRuntime) -> ExitCode {
    let _ = eprintln!(rt; "quotafs: memory");
    ExitCode::from(3)
}

/// Ends without the words of the command line: memory was wanted, or one of them is not UTF-8.
fn without_words(rt: &HostRuntime, error: &io::Error) -> ExitCode {
    if error.kind() == ErrorKind::OutOfMemory {
        return out_of_memory(rt);
    }
    let _ = eprintln!(rt; "error: invalid UTF-8 was detected in one or more arguments");
    ExitCode::from(2)
}

fn main(rt: HostRuntime) -> ExitCode {
    let alloc = rt.alloc();
    let words = match words(&rt) {
        Ok(words) => words,
        Err(error) => return without_words(&rt, &error),
    };
    let Ok(mut out) = BufWriter::with_capacity(alloc, OUTPUT_BUFFER, io::writer(&rt)) else {
        return out_of_memory(&rt);
    };
    let Ok(mut err) = BufWriter::with_capacity(alloc, LINE_BUFFER, rt.stderr()) else {
        return out_of_memory(&rt);
    };
    let mut files = MachineFiles { rt: &rt };
    let machine = Machine {
        rt: &rt,
        alloc,
        seed: seed(&rt),
    };
    ExitCode::from(tool(&machine, &words, &mut files, &mut out, &mut err))
}
