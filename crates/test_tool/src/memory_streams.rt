//! Streams of a client in memory.

ghost use Rattle.std.specs.Prelude.{refl, ⊤};

use crate::short::Short;
use qtext_client::{OpenStreams, Streams};
use qtool::ClientEnd;
use std::alloc::Global;
use std::io::{BufReader, BufWriter};

/// So many bytes are read or gathered at once.
const BUFFER: usize = 16;

/// Lines that are there, or cannot be opened, and replies of which N bytes are taken.
#[derive(Drop)]
pub(crate) struct MemoryStreams {
    pub(crate) alloc: Global,
    pub(crate) lines: Option<&'static [u8]>,
    pub(crate) left: usize,
}

impl Streams for MemoryStreams {
    ghost use Rattle.std.specs.Prelude.{None};

    type In = &'static [u8];

    type Out = Short;

    ghost says = { λ _. None };

    ghost took = { λ _. None };

    fn open(&mut self) -> Result<OpenStreams<&'static [u8], Short>, ClientEnd> {
        let Some(lines) = self.lines else {
            return Err(ClientEnd::NoInput);
        };
        let Ok(input) = BufReader::with_capacity(self.alloc, BUFFER, lines) else {
            return Err(ClientEnd::Memory);
        };
        let replies = Short::new(self.alloc, self.left, true);
        match BufWriter::with_capacity(self.alloc, BUFFER, replies) {
            Ok(output) => Ok(OpenStreams { input, output }),
            Err(_) => Err(ClientEnd::Memory),
        }
    }

    // Nothing is known of what it took.
    fn ended(&mut self, output: Option<BufWriter<Short>>, end: ClientEnd)
        ensures { ⊤ }
    {
        drop(output);
        let _ = end;
    }

    ghost always_or_never = { λ one other none. refl };
}
