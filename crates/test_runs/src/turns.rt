//! Workers who are let through in turns: they are under way side by side, and take the lock line by line or in batches.
ghost use Rattle.std.specs.Prelude.{◌<◌, ◌≤◌};

use crate::given::{FIRST_FILES, OTHER_FILES, script, setup};
use qplain::{CallFault, Edition, Refusal, Reply};
use qrun::{Beginning, Gate, Machine, Options, run_scripts};
use qrun_replay::{Outcome, PlacedReply};
use std::alloc::Global;
use std::hint::spin_loop;
use std::sync::Wait;
use std::sync::atomic::AtomicU64;
use std::sync::atomic::Ordering::SeqCst;
use std::test::Fail;
use std::thread::Threads;

/// A gate for two workers that lets one line, or one batch, go at a time, in turn. Whoever has looked too often in vain
/// is let through, and that is noted.
#[derive(Drop)]
struct Turns {
    /// The worker who goes first.
    first: u64,
    /// How many lines, or batches, have gone.
    gone: AtomicU64,
    /// How many were let through in vain.
    in_vain: AtomicU64,
}

/// How often a line looks at most.
const LOOKS: u64 = 10_000_000;

impl Turns {
    /// How many lines have to go before this one.
    fn before_it(&self, worker: u64, line: usize) -> u64 {
        let earlier = (line as u64).wrapping_sub(1).wrapping_mul(2);
        if worker == self.first {
            earlier
        } else {
            earlier.wrapping_add(1)
        }
    }
}

impl Gate for Turns {
    fn before(&self, worker: u64, line: usize) {
        let turn = self.before_it(worker, line);
        for _ in 0..LOOKS {
            if self.gone.load(SeqCst) == turn {
                return;
            }
            spin_loop();
        }
        self.in_vain.fetch_add(1, SeqCst);
    }

    fn after(&self, _worker: u64, _line: usize) {
        self.gone.fetch_add(1, SeqCst);
    }
}

/// The place and the inode of an answer, or no inode where space was wanting.
fn told(answer: Result<PlacedReply<'_>, CallFault>) -> Option<(u64, Option<u64>)> {
    match answer {
        Ok(receipt) => match receipt.reply() {
            Reply::Done(inode, _) => Some((receipt.place(), Some(*inode))),
            Reply::Refused(Refusal::ENOSPC) => Some((receipt.place(), None)),
            _ => None,
        },
        Err(_) => None,
    }
}

/// Whether a worker's transcript tells these places and inodes.
fn tells(outcome: &Outcome, worker: usize, expected: &[(u64, Option<u64>)]) -> bool {
    let Some(transcript) = outcome.transcripts.as_slice().get(worker) else {
        return false;
    };
    if transcript.len() != expected.len() {
        return false;
    }
    for line in 0..expected.len() {
        if told(transcript.answer(line)) != Some(expected[line]) {
            return false;
        }
    }
    true
}

/// A run of two workers who make three files each, with this gate: one line goes at a time, or all lines of a worker
/// under one lock.
fn run<R: Threads + Wait + Sync>(
    rt: &R,
    alloc: Global,
    gate: &Turns,
    batch: u64,
) -> Result<Outcome, Fail>
    requires batch { (0 < batch) × (batch ≤ 64) }
{
    let setup = setup(alloc)?.edition(Edition::Two);
    let scripts = vec![in alloc; script(alloc, FIRST_FILES)?, script(alloc, OTHER_FILES)?]?;
    let options = Options { boards: 0, batch };
    let machine = Machine { rt, alloc, seed: 0 };
    let beginning = Beginning::new(alloc, setup, 0, false)?;
    match run_scripts(&machine, beginning, scripts, options, gate) {
        Ok(outcome) => Ok(outcome),
        Err(_) => Err(Fail::from("an outcome")),
    }
}

/// Whether a run in turns, where this worker goes first, tells this of the first worker's lines and of the second's,
/// and no line waited in vain.
fn comes_out<R: Threads + Wait + Sync>(
    rt: &R,
    alloc: Global,
    first: u64,
    batch: u64,
    told: (&[(u64, Option<u64>)], &[(u64, Option<u64>)]),
) -> Result<bool, Fail>
    requires batch { (0 < batch) × (batch ≤ 64) }
{
    let gate = Turns {
        first,
        gone: AtomicU64::new(0),
        in_vain: AtomicU64::new(0),
    };
    let outcome = run(rt, alloc, &gate, batch)?;
    Ok(tells(&outcome, 0, told.0) && tells(&outcome, 1, told.1) && gate.in_vain.load(SeqCst) == 0)
}

/// The places and inodes of lines that take turns.
const ODD: &[(u64, Option<u64>)] = &[(1, Some(2)), (3, Some(4)), (5, Some(6))];

const EVEN: &[(u64, Option<u64>)] = &[(2, Some(3)), (4, Some(5)), (6, None)];

#[test]
fn gates_take_turns(rt: HostRuntime) -> Result<(), Fail> {
    let one = comes_out(&rt, rt.alloc(), 1, 1, (ODD, EVEN))?;
    let two = comes_out(&rt, rt.alloc(), 2, 1, (EVEN, ODD))?;
    assert_eq!(rt; (one, two), (true, true));
    Ok(())
}

/// The places and inodes of lines in batches.
const BEFORE: &[(u64, Option<u64>)] = &[(1, Some(2)), (2, Some(3)), (3, Some(4))];

const BEHIND: &[(u64, Option<u64>)] = &[(4, Some(5)), (5, Some(6)), (6, None)];

#[test]
fn gates_take_turns_in_batches(rt: HostRuntime) -> Result<(), Fail> {
    let one = comes_out(&rt, rt.alloc(), 1, 64, (BEFORE, BEHIND))?;
    let two = comes_out(&rt, rt.alloc(), 2, 64, (BEHIND, BEFORE))?;
    assert_eq!(rt; (one, two), (true, true));
    Ok(())
}
