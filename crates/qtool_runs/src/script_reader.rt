//! Texts that are read as scripts, side by side.
ghost use Rattle.std.specs.Prelude.{◌≡◌, ◌⊎◌, Ok, Some, map, IfErr, IfOk};
ghost use Rattle.qtext.specs.TextFaults.{want_of_memory};
ghost use Rattle.qtext_files.specs.Scripts.{script_of};
ghost use Rattle.qtool_runs.specs.Readers.{IsReadFrom, first_fault};

use core::thread::Stack;
use qplain::Script;
use qtext::{TextFault, TextKind};
use qtext_files::FromText;
use std::alloc::Global;
use std::marker::Model;
use std::snapshot::Snapshot;
use std::thread::{Promise, PromisedHandle, Threads};

/// The stack of a thread that reads a script, in bytes.
const READER_STACK: usize = 256 * 1024;

/// That this text is read as a script.
#[derive(Drop)]
pub struct Reads {
    pub(crate) text: Snapshot<Vec<u8>>,
}

impl Promise<Result<Script, TextFault>> for Reads {
    ghost use Rattle.qtool_runs.specs.Readers.{IsReadFrom};

    ghost kept_by = { λ p r. IsReadFrom p.text.value.items r };
}

/// How far a text is read: a thread is at it, or it is done.
#[derive(Drop)]
pub enum Reading {
    Begun(PromisedHandle<Result<Script, TextFault>, Reads>),
    Done(Result<Script, TextFault>),
}

/// A text that is read as a script. Contracts see the text. A drop of it leaves its thread to itself.
#[derive(Drop)]
pub struct ScriptReader {
    pub(crate) reads: Reads,
    pub(crate) reading: Reading,
}

impl Model for ScriptReader {
    ghost use Rattle.std.specs.Prelude.{ℕ, List};

    ghost Value = { List ℕ };

    ghost view = { λ r. r.reads.text.value.items };

    ghost use Rattle.qtool_runs.specs.Readers.{IsReading};

    ghost invariant = { λ r. IsReading r.reads.text.value.items r.reading };
}

/// Reads a text, which then goes.
fn read_text(alloc: Global, text: Vec<u8>) -> Result<Script, TextFault>
    ensures { IsReadFrom text.items result }
{
    Script::read(alloc, text.as_slice())
}

impl ScriptReader {
    /// Reads a text in a thread of its own, or here where none can be started.
    pub fn beside<R: Threads>(rt: &R, alloc: Global, text: Vec<u8>) -> ScriptReader
        ensures { result ≡ text.items }
    {
        let reads = Reads {
            text: Snapshot::of(&text),
        };
        let promise = Reads {
            text: Snapshot::of(&text),
        };
        let stack = Stack::new().stack_size(READER_STACK);
        let reading = match stack.spawn_with(rt, promise, move || read_text(alloc, text)) {
            Ok(handle) => Reading::Begun(handle),
            Err(refused) => Reading::Done((refused.value)()),
        };
        ScriptReader { reads, reading }
    }

    /// Reads a text here.
    pub fn here(alloc: Global, text: Vec<u8>) -> ScriptReader
        ensures { result ≡ text.items }
    {
        let reads = Reads {
            text: Snapshot::of(&text),
        };
        ScriptReader {
            reads,
            reading: Reading::Done(read_text(alloc, text)),
        }
    }

    /// What the text says, or the first line at fault, or line 0 where memory was wanting, whatever it says. It waits
    /// for the thread that reads the text.
    pub fn finish<R: Threads>(self, rt: &R) -> Result<Script, TextFault>
        ensures { IsReadFrom self result }
    {
        let ScriptReader {
            reads: _reads,
            reading,
        } = self;
        match reading {
            Reading::Begun(handle) => handle.join(rt),
            Reading::Done(script) => script,
        }
    }
}

/// The first of some scripts that is at fault, by its number from 1, with what is wrong in it. Where memory is wanting
/// for the list of all, it is the number that was reached.
#[derive(Clone, Copy)]
pub struct ScriptFault {
    pub number: u64,
    pub fault: TextFault,
}

/// The scripts of all texts that are read, in their order, or the first that is at fault; line 0 is at fault where
/// memory was wanting. After an Err the threads behind that text are left to themselves.
pub fn finish_all<R: Threads>(
    rt: &R,
    alloc: Global,
    readers: Vec<ScriptReader>,
) -> Result<Vec<Script>, ScriptFault>
    ensures ok { IfOk result (λ scripts. map Ok scripts.items ≡ map script_of readers.items) }
    ensures err { IfErr result
        (λ f. (f.fault ≡ want_of_memory) ⊎ (first_fault 1 readers.items ≡ Some f)) }
{
    let mut scripts = Vec::new(alloc);
    let mut number = 0u64;
    for reader in readers {
        number += 1;
        let script = match reader.finish(rt) {
            Ok(script) => script,
            Err(fault) => return Err(ScriptFault { number, fault }),
        };
        let Ok(()) = scripts.push(script) else {
            let fault = TextFault {
                line: 0,
                kind: TextKind::Memory,
            };
            return Err(ScriptFault { number, fault });
        };
    }
    Ok(scripts)
}
