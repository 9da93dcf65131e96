//! Texts that are read whole, as long as they have line ends.

use qlanes::first_place;
use std::alloc::Global;
use std::io::{self, Read};

/// So many bytes are read before a line end is looked for in them: 64 MiB, some 500 times the longest line of a call.
const PIECE: u64 = 67_108_864;

/// All that is read, or None where a whole piece of it has no line end, which is told before any more is read.
pub(crate) fn whole_text<R: Read + Drop>(
    alloc: Global,
    mut source: R,
) -> io::Result<Option<Vec<u8>>> {
    let mut text = Vec::new(alloc);
    for _ in 0..u64::MAX {
        let begun = text.len();
        // A small text takes no more than it has; of a large one the room is doubled, as by one read.
        if begun > 0 {
            text.reserve(PIECE as usize + 1)?;
        }
        let read = source.by_ref().take(PIECE).read_to_end(&mut text)? as u64;
        if read < PIECE {
            break;
        }
        let piece = text.get(begun..).unwrap_or(&[]);
        if first_place(piece, b'\n') == piece.len() {
            return Ok(None);
        }
    }
    Ok(Some(text))
}
