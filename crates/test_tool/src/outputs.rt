//! Outputs and files for journals that refuse, and files for which there is no memory.

use crate::memory_files::{JOURNAL, MemoryFiles, OUTCOME, told};
use crate::short::Short;
use std::alloc::{AllocError, Global};
use std::sync::Wait;
use std::thread::Threads;
use std::time::Clock;

const RUN: &str = "quotafs run --config a.toml s.txt";

const RUN_WITH_JOURNAL: &str = "quotafs run --config a.toml --journal new.journal s.txt";

const REPLAY: &str = "quotafs replay --config a.toml s.journal";

/// The line of an output that refuses.
const REFUSED: &[u8] = b"quotafs: output\n";

/// The line of a file for a journal that refuses.
const UNWRITTEN: &[u8] = b"quotafs: cannot write new.journal\n";

/// Room for every output.
const AMPLE: usize = 65_536;

/// Whether the program that wants memory for a file ends with this status, this line and this output, where its output
/// takes so many bytes.
fn ends_so<R: Threads + Wait + Clock + Sync>(
    rt: &R,
    alloc: Global,
    (line, short): (&str, &str),
    left: usize,
    (status, err, taken): (u8, &[u8], &[u8]),
) -> Result<bool, AllocError> {
    let mut files = MemoryFiles::new(alloc, short);
    let mut out = Short::new(alloc, left, true);
    let told = told(rt, line, &mut files, &mut out, err)?;
    Ok(told == (status, true) && out.taken.as_slice() == taken)
}

#[test]
fn a_refusing_output_holds_a_beginning(rt: HostRuntime) -> Result<(), AllocError> {
    for left in 0..OUTCOME.len() {
        let end = (4, REFUSED, &OUTCOME[..left]);
        assert!(rt;
            ends_so(&rt, rt.alloc(), (RUN, ""), left, end)?,
            "at {left}"
        );
    }
    Ok(())
}

#[test]
fn an_output_with_just_enough_room_takes_all(rt: HostRuntime) -> Result<(), AllocError> {
    let end: (u8, &[u8], &[u8]) = (0, b"", OUTCOME);
    assert!(rt; ends_so(&rt, rt.alloc(), (RUN, ""), OUTCOME.len(), end)?);
    Ok(())
}

/// Whether an output that takes so many bytes, and may refuse to be flushed, is told as refused, and has some.
fn is_refused<R: Threads + Wait + Clock + Sync>(
    rt: &R,
    alloc: Global,
    line: &str,
    left: usize,
    flushes: bool,
) -> Result<bool, AllocError> {
    let mut files = MemoryFiles::new(alloc, "");
    let mut out = Short::new(alloc, left, flushes);
    Ok(told(rt, line, &mut files, &mut out, REFUSED)? == (4, true) && out.taken.len() >= 5)
}

// The second help is taken whole, but not flushed.
#[test]
fn help_and_flushes_may_be_refused(rt: HostRuntime) -> Result<(), AllocError> {
    for (line, left, flushes) in [
        (RUN, OUTCOME.len(), false),
        ("quotafs --help", 5, true),
        ("quotafs --help", AMPLE, false),
    ] {
        assert!(rt;
            is_refused(&rt, rt.alloc(), line, left, flushes)?,
            "at {line}"
        );
    }
    Ok(())
}

/// Whether a run whose journal takes so many bytes, and may refuse to be flushed or kept, ends as it must: the outcome
/// is out, and the journal is kept whole or not at all. No draft is left.
fn ends_well<R: Threads + Wait + Clock + Sync>(
    rt: &R,
    alloc: Global,
    left: usize,
    flushes: bool,
    keeps: bool,
) -> Result<bool, AllocError> {
    let mut files = MemoryFiles::new(alloc, "");
    files.left = left;
    files.flushes = flushes;
    files.keeps = keeps;
    let is_kept = left == JOURNAL.len() && flushes && keeps;
    let mut out = Short::new(alloc, AMPLE, true);
    let (wanted, err): (u8, &[u8]) = if is_kept { (0, b"") } else { (4, UNWRITTEN) };
    let told = told(rt, RUN_WITH_JOURNAL, &mut files, &mut out, err)?;
    let kept = match &files.kept {
        Some(text) => is_kept && text.as_slice() == JOURNAL,
        None => !is_kept,
    };
    Ok(told == (wanted, true) && kept && files.drafts == 0 && out.taken.as_slice() == OUTCOME)
}

#[test]
fn a_journal_is_kept_whole_or_not_at_all(rt: HostRuntime) -> Result<(), AllocError> {
    for left in 0..JOURNAL.len() + 1 {
        for (flushes, keeps) in [(true, true), (false, true), (true, false)] {
            assert!(rt;
                ends_well(&rt, rt.alloc(), left, flushes, keeps)?,
                "at {left}"
            );
        }
    }
    Ok(())
}

#[test]
fn a_journal_is_written_over_nothing_of_the_run(rt: HostRuntime) -> Result<(), AllocError> {
    for (name, what) in [
        ("a.toml", "the configuration"),
        ("s.txt", "script 1"),
        ("other.txt", "script 2"),
        ("out", "the output"),
    ] {
        let alloc = rt.alloc();
        let line = format!(in alloc;
            "quotafs run --config a.toml --journal {name} s.txt other.txt"
        )?;
        let told = format!(in alloc; "error: the journal would be written over {what}\n")?;
        let end: (u8, &[u8], &[u8]) = (2, told.as_bytes(), b"");
        assert!(rt;
            ends_so(&rt, alloc, (line.as_str(), ""), AMPLE, end)?,
            "at {name}"
        );
    }
    Ok(())
}

#[test]
fn a_file_that_cannot_be_made_is_told_by_its_name(rt: HostRuntime) -> Result<(), AllocError> {
    let end = (4, UNWRITTEN, OUTCOME);
    assert!(rt;
        ends_so(
            &rt,
            rt.alloc(),
            (RUN_WITH_JOURNAL, "new.journal"),
            AMPLE,
            end
        )?
    );
    Ok(())
}

#[test]
fn want_of_memory_for_a_file_is_memory(rt: HostRuntime) -> Result<(), AllocError> {
    for given in [
        (RUN, "a.toml"),
        (RUN, "s.txt"),
        (REPLAY, "a.toml"),
        (REPLAY, "s.journal"),
    ] {
        let end: (u8, &[u8], &[u8]) = (3, b"quotafs: memory\n", b"");
        assert!(rt; ends_so(&rt, rt.alloc(), given, AMPLE, end)?);
    }
    Ok(())
}
