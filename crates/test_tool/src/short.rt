//! Writers that refuse.

use std::alloc::Global;
use std::io::{self, ErrorKind, Write};

/// A writer that takes N bytes, one at a time, and then refuses. It may refuse to be flushed, too.
#[derive(Drop)]
pub(crate) struct Short {
    pub(crate) taken: Vec<u8>,
    left: usize,
    flushes: bool,
}

impl Short {
    pub(crate) fn new(alloc: Global, left: usize, flushes: bool) -> Short {
        Short {
            taken: Vec::new(alloc),
            left,
            flushes,
        }
    }
}

impl Write for Short {
    fn write(&mut self, buf: &[u8]) -> io::Result<usize> {
        if self.left == 0 || buf.is_empty() || self.taken.push(buf[0]).is_err() {
            return Ok(0);
        }
        self.left -= 1;
        Ok(1)
    }

    fn flush(&mut self) -> io::Result<()> {
        if self.flushes {
            return Ok(());
        }
        Err(io::Error::from(ErrorKind::BrokenPipe))
    }
}
