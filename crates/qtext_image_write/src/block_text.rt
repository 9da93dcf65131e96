//! The blocks of a file as lines.
ghost use Rattle.std.specs.Prelude.{◌<◌, ◌^◌, IfOk};
ghost use Rattle.qplain.specs.Ranges.{AreBytes};
ghost use Rattle.qplain_image.specs.Blocks.{block_in};
ghost use Rattle.qplain_image.specs.Rows.{Block};
ghost use Rattle.qtext.specs.Written.{Writes};
ghost use Rattle.qtext_image.specs.Spelling.{row_text};
ghost use Rattle.qtext_image_write.specs.Lines.{block_text, blocks_text};
ghost use Rattle.qtext_image_write.specs.Typed.{HasTypedBlocks};

use qblocks::{BLOCK_SIZE, BlockFile};
use qtext::{TextLine, Written};
use std::io::Write;

/// How many bytes a block has.
const BLOCK: usize = BLOCK_SIZE as usize;

/// `block INDEX DATA`.
fn put_line<W: Write>(out: &mut W, line: &mut TextLine, index: u64, bytes: &[u8]) -> Written
    ensures writes { Writes (W.contents out.old) (W.contents out.new) result (row_text (Block (index, bytes.now))) }
    ensures held { AreBytes bytes.now }
{
    line.clear();
    line.text(b"block");
    line.field(index);
    line.byte(b' ');
    line.put_data(out, bytes)?;
    line.put_end(out)
}

/// The line of a block, whose bytes below the size are read.
fn put_block<W: Write>(out: &mut W, line: &mut TextLine, file: &BlockFile, index: u64) -> Written
    requires { index < 2 ^ 28 }
    ensures writes { Writes (W.contents out.old) (W.contents out.new) result (block_text file.now.file index) }
    ensures held { AreBytes (block_in file.now.file index) }
{
    let mut buffer = [0; BLOCK];
    let count = file.read_into(index * BLOCK_SIZE, &mut buffer);
    put_line(out, line, index, &buffer[..count])
}

/// A line for each allocated block, by index.
pub(crate) fn put_blocks<W: Write>(out: &mut W, line: &mut TextLine, file: &BlockFile) -> Written
    ensures writes { Writes (W.contents out.old) (W.contents out.new) result (blocks_text file.now.file) }
    ensures held { IfOk result (λ _. HasTypedBlocks file.now.file) }
{
    let mut from = 0;
    while let Some(index) = file.next_allocated(from) {
        put_block(out, line, file, index)?;
        from = index + 1;
    }
    Ok(())
}
