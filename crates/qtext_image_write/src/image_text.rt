//! Images of living stores as text.
ghost use Rattle.std.specs.Prelude.{◌<◌, ◌^◌, IfOk};
ghost use Rattle.std.specs.List.{AllByRecursion};
ghost use Rattle.qtext.specs.Written.{Writes};
ghost use Rattle.qtext_image.specs.Held.{IsStateTyped};
ghost use Rattle.qtext_image.specs.Spelling.{image_text};
ghost use Rattle.qtext_image_write.specs.Lines.{settings_text, tree_text};
ghost use Rattle.qtext_image_write.specs.Typed.{HasTypedBlocks};

use crate::head_text::{put_bounds, put_graces, put_head};
use crate::inode_text::put_inodes;
use crate::name_text::put_names;
use crate::record_text::put_records;
use qplain::Edition;
use qstore::Store;
use qtext::{TextLine, Written, put};
use std::io::Write;

/// The bounds, the graces and the records, a line each.
fn put_settings<W: Write>(out: &mut W, line: &mut TextLine, store: &Store) -> Written
    ensures writes { Writes (W.contents out.old) (W.contents out.new) result (settings_text store.now.state) }
    ensures held { IfOk result (λ _. AllByRecursion (λ h. h.id < 2 ^ 32) store.now.state.holders) }
{
    put_bounds(out, line, store)?;
    put_graces(out, line, store)?;
    put_records(out, line, store)
}

/// The inodes with their blocks, the names, and the last line.
fn put_tree<W: Write>(out: &mut W, line: &mut TextLine, store: &Store) -> Written
    ensures writes { Writes (W.contents out.old) (W.contents out.new) result (tree_text store.now.state) }
    ensures held { IfOk result (λ _. AllByRecursion (λ e. HasTypedBlocks e.1.file) store.now.state.inodes) }
{
    put_inodes(out, line, store)?;
    put_names(out, line, store)?;
    put(out, b"end\n")
}

/// Writes the image of a store in its one spelling: the head, a line for each row, and the last line. `place` is how
/// many calls were journaled before it; above 2^63 it is not read again. A line goes out by one write where the writer
/// takes all of it and it has no data.
///
/// Memory is taken for lists of the records with their names, of the inodes and of the names, one after the other, and
/// none for bytes of files or for names in directories. An Err is a writer that refused, or memory that was wanted;
/// some beginning of the text went out. O(n log n) for n inodes and names, and O(bytes) for those in blocks.
pub fn put_image<W: Write>(out: &mut W, edition: Edition, place: u64, store: &Store) -> Written
    ensures writes { Writes (W.contents out.old) (W.contents out.new) result
        (image_text edition place store.now.state) }

    // What was written whole is read again where a store may begin with the state: its parts are what types can hold.
    ensures again { IfOk result (λ _. IsStateTyped store.now.state) }
{
    store.always_lawful();
    let mut line = TextLine::new();
    put_head(out, &mut line, edition, place)?;
    put_settings(out, &mut line, store)?;
    put_tree(out, &mut line, store)
}
