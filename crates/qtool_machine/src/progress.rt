//! How far a run is, told while it goes on where standard error is a terminal.

use qplain::Script;
use qrun::Gate;
use std::io::{IsTerminal, Write};
use std::sync::atomic::{AtomicU64, Ordering};

/// A worker's lines are told whenever it has made so many more: a short run tells none.
const STEP: u64 = 4096;

/// The lines of a run that are made, of all its lines: one line of the terminal, which is written over.
#[derive(Drop)]
pub struct Progress<'a> {
    rt: &'a HostRuntime,
    lines: u64,
    told: AtomicU64,
    told_of: [AtomicU64; 17],
}

impl<'a> Progress<'a> {
    /// Of a run of these scripts, none of whose lines is made yet, or None where standard error is no terminal.
    pub(crate) fn new(rt: &'a HostRuntime, scripts: &[Script]) -> Option<Progress<'a>> {
        if !rt.stderr().is_terminal() {
            return None;
        }
        let mut lines = 0u64;
        for script in scripts {
            lines = lines.saturating_add(script.lines().len() as u64);
        }
        Some(Progress {
            rt,
            lines,
            told: AtomicU64::new(0),
            told_of: std::array::from_fn(|_| AtomicU64::new(0)),
        })
    }

    /// Writes the line over with so many lines more. Where memory is wanting it stays as it is.
    fn tell(&self, more: u64) {
        let told = self.told.fetch_add(more, Ordering::SeqCst);
        let made = told.saturating_add(more);
        if let Ok(text) = format!(in self.rt.alloc(); "\r{made} of {} lines", self.lines) {
            let _ = self.rt.stderr().write_all(text.as_bytes());
        }
    }

    /// Takes the line away, once all workers have ended.
    pub(crate) fn clear(&self) {
        if self.told.load(Ordering::SeqCst) > 0 {
            let _ = self.rt.stderr().write_all(b"\r\x1b[K");
        }
    }
}

impl Gate for Progress<'_> {
    fn before(&self, _worker: u64, _line: usize) {}

    fn after(&self, worker: u64, line: usize) {
        let Some(told) = self.told_of.get(worker as usize) else {
            return;
        };
        let more = (line as u64).saturating_sub(told.load(Ordering::SeqCst));
        if more >= STEP {
            told.store(line as u64, Ordering::SeqCst);
            self.tell(more);
        }
    }
}
