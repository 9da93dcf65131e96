//! The program over files in memory.

use crate::memory_streams::MemoryStreams;
use crate::short::Short;
use qplain::NoMemory;
use qtool::{FileFault, Files, Machine, NamedStreams, NoGate, Script, tool};
use std::alloc::{AllocError, Global};
use std::sync::Wait;
use std::thread::Threads;
use std::time::Clock;

/// 10 blocks and 6 inodes for user 0 alone.
pub(crate) const CONFIG: &str = r#"
size = "40k"
nr_inodes = 6
block_grace = 100
inode_grace = 100
user = [{ id = 0, name = "root" }]
group = [{ id = 0, name = "root" }]
"#;

/// The script of one worker.
pub(crate) const SCRIPT: &[u8] = b"0 0:0 create /a\n0 0:0 write /a 0 78\n0 0:0 stat /a\n";

/// What becomes of the script.
pub(crate) const OUTCOME: &[u8] = b"\
worker 1
1 done 2 blocks +0 -0 inodes +1 -0
2 done 2 blocks +1 -0 inodes +0 -0
3 stat 2 file 0 0 1 1 1
quota at 0
user    root             --          4          0          0          -          2          0          0          -
group   root             --          4          0          0          -          2          0          0          -
totals blocks 1 of 10 inodes 2 of 6
tally blocks +1 -0 inodes +1 -0 calls 3
audit ok
";

/// The journal of the script.
pub(crate) const JOURNAL: &[u8] = b"\
quotafs journal 2 workers 1
1 0 0:0 create /a => done 2 blocks +0 -0 inodes +1 -0
1 0 0:0 write /a 0 78 => done 2 blocks +1 -0 inodes +0 -0
1 0 0:0 stat /a => stat 2 file 0 0 1 1 1
";

/// The files `a.toml`, `s.txt` and `s.journal`, for one of which memory may be wanted and not there. Each draft takes N
/// bytes, and may refuse to be flushed, or to be kept. The output goes to `out`.
#[derive(Drop)]
pub(crate) struct MemoryFiles<'a> {
    pub(crate) alloc: Global,
    pub(crate) short: &'a str,
    pub(crate) left: usize,
    pub(crate) flushes: bool,
    pub(crate) keeps: bool,
    /// What was kept last, and how many drafts there are that were neither kept nor given up.
    pub(crate) kept: Option<Vec<u8>>,
    pub(crate) drafts: u64,
}

impl<'a> MemoryFiles<'a> {
    /// Files that take each journal.
    pub(crate) fn new(alloc: Global, short: &'a str) -> MemoryFiles<'a> {
        MemoryFiles {
            alloc,
            short,
            left: JOURNAL.len(),
            flushes: true,
            keeps: true,
            kept: None,
            drafts: 0,
        }
    }
}

impl Files for MemoryFiles<'_> {
    type Draft = Short;

    type Progress = NoGate;

    fn read(&mut self, name: &str) -> Result<Vec<u8>, FileFault> {
        if name == self.short {
            return Err(FileFault::Memory);
        }
        let bytes = match name {
            "a.toml" => CONFIG.as_bytes(),
            "s.txt" => SCRIPT,
            "s.journal" => JOURNAL,
            _ => return Err(FileFault::Fails),
        };
        match Vec::from_slice(self.alloc, bytes) {
            Ok(bytes) => Ok(bytes),
            Err(_) => Err(FileFault::Memory),
        }
    }

    fn is_same(&mut self, name: &str, other: &str) -> bool {
        name == other
    }

    fn is_output(&mut self, name: &str) -> bool {
        name == "out"
    }

    fn draft(&mut self, name: &str) -> Result<Short, FileFault> {
        if name == self.short {
            return Err(FileFault::Memory);
        }
        self.drafts = self.drafts.wrapping_add(1);
        Ok(Short::new(self.alloc, self.left, self.flushes))
    }

    fn keep(&mut self, draft: Short, _name: &str) -> Result<(), FileFault> {
        self.drafts = self.drafts.wrapping_sub(1);
        if !self.keeps {
            return Err(FileFault::Fails);
        }
        self.kept = Some(draft.taken);
        Ok(())
    }

    fn show(&mut self, draft: Short, name: &str) -> Result<(), FileFault> {
        self.keep(draft, name)
    }

    fn give_up(&mut self, _draft: Short) {
        self.drafts = self.drafts.wrapping_sub(1);
    }

    fn progress(&self, _scripts: &[Script]) -> Option<NoGate> {
        Some(NoGate)
    }

    fn ended(&self, _progress: NoGate) {}
}

impl NamedStreams for MemoryFiles<'_> {
    type Streams = MemoryStreams;

    type Faults = Short;

    fn faults(&self) -> Result<Short, NoMemory> {
        Ok(Short::new(self.alloc, 0, true))
    }

    fn streams(&self, input: &str, _output: &str) -> Result<MemoryStreams, NoMemory> {
        Ok(MemoryStreams {
            alloc: self.alloc,
            lines: if input == "s.txt" { Some(SCRIPT) } else { None },
            left: self.left,
        })
    }
}

/// The words of a command line.
fn words_of(alloc: Global, line: &str) -> Result<Vec<String>, AllocError> {
    let mut words = Vec::new(alloc);
    for word in line.split(' ') {
        words.push(String::from_str(alloc, word)?)?;
    }
    Ok(words)
}

/// The program's status, and whether its error output is this one.
pub(crate) fn told<R: Threads + Wait + Clock + Sync>(
    rt: &R,
    line: &str,
    files: &mut MemoryFiles<'_>,
    out: &mut Short,
    wanted: &[u8],
) -> Result<(u8, bool), AllocError> {
    let words = words_of(files.alloc, line)?;
    let mut err = Vec::new(files.alloc);
    let machine = Machine {
        rt,
        alloc: files.alloc,
        seed: 7,
    };
    let status = tool(&machine, &words, files, out, &mut err);
    Ok((status, err.as_slice() == wanted))
}
