//! Services of one client in memory.

use crate::memory_files::{MemoryFiles, OUTCOME, told};
use crate::short::Short;
use std::alloc::{AllocError, Global};
use std::sync::Wait;
use std::thread::Threads;
use std::time::Clock;

/// The replies to the script, which are lines 2 to 4 of its outcome.
const REPLIES: usize = 94;

/// Where what is left of the script begins in its outcome.
const LEFT: usize = 103;

/// The status of a service whose client takes so many bytes, where nothing was told on the error output and all that is
/// left of it was written.
fn status_at<R: Threads + Wait + Clock + Sync>(
    rt: &R,
    alloc: Global,
    input: &str,
    left: usize,
) -> Result<(u8, bool), AllocError> {
    let mut files = MemoryFiles::new(alloc, "");
    files.left = left;
    let line = format!(in alloc; "quotafs serve --config a.toml {input}:replies")?;
    let mut out = Short::new(alloc, 65_536, true);
    let (status, is_silent) = told(rt, line.as_str(), &mut files, &mut out, b"")?;
    let taken = out.taken.as_slice();
    let is_left = taken.starts_with(b"quota at 0\n") && taken.ends_with(b"audit ok\n");
    Ok((status, is_silent && is_left))
}

#[test]
fn a_client_is_served_to_its_end(rt: HostRuntime) -> Result<(), AllocError> {
    let mut files = MemoryFiles::new(rt.alloc(), "");
    files.left = REPLIES;
    let mut out = Short::new(rt.alloc(), 65_536, true);
    let line = "quotafs serve --config a.toml s.txt:replies";
    assert_eq!(rt; told(&rt, line, &mut files, &mut out, b"")?, (0, true));
    assert!(rt; out.taken.as_slice() == &OUTCOME[LEFT..]);
    Ok(())
}

#[test]
fn a_client_whose_replies_are_refused_is_not(rt: HostRuntime) -> Result<(), AllocError> {
    for left in 0..REPLIES {
        let status = status_at(&rt, rt.alloc(), "s.txt", left)?;
        assert!(rt; status == (4, true), "at {left}");
    }
    assert_eq!(rt; status_at(&rt, rt.alloc(), "none", REPLIES)?, (2, true));
    Ok(())
}
