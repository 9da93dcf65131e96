//! The first lines of an image: its head, and what the store is set to.
ghost use Rattle.std.specs.Prelude.{◌≡◌, ◌≤◌, ℕ, ◌++◌, codes, decimal, length};
ghost use Rattle.qplain_image.specs.Rows.{Bounds, Grace};
ghost use Rattle.qtext.specs.Written.{Writes};
ghost use Rattle.qtext_image.specs.Spelling.{head_text, row_text};

use qplain::Edition;
use qstore::Store;
use qtext::{TextLine, Written};
use std::io::Write;

/// What the head says before the place.
fn head_start(edition: Edition) -> &'static [u8]
    ensures begins { (place : ℕ) → (result.now ++ decimal place) ++ codes "\n" ≡ head_text edition place }
    ensures short { length result.now ≤ 19 }
{
    match edition {
        Edition::One => b"quotafs image 1 at ",
        Edition::Two => b"quotafs image 2 at ",
    }
}

/// `quotafs image E at PLACE`.
pub(crate) fn put_head<W: Write>(
    out: &mut W,
    line: &mut TextLine,
    edition: Edition,
    place: u64,
) -> Written
    ensures { Writes (W.contents out.old) (W.contents out.new) result (head_text edition place) }
{
    line.clear();
    line.text(head_start(edition));
    line.number(place);
    line.put_end(out)
}

/// `store SIZE MOST NEXT`.
pub(crate) fn put_bounds<W: Write>(out: &mut W, line: &mut TextLine, store: &Store) -> Written
    ensures { Writes (W.contents out.old) (W.contents out.new) result
        (row_text (Bounds store.now.state.size store.now.state.most_inodes store.now.state.next)) }
{
    line.clear();
    line.text(b"store");
    line.field(store.size());
    line.field(store.most_inodes());
    line.field(store.next_number());
    line.put_end(out)
}

/// `graces BLOCK INODE`.
pub(crate) fn put_graces<W: Write>(out: &mut W, line: &mut TextLine, store: &Store) -> Written
    ensures { Writes (W.contents out.old) (W.contents out.new) result (row_text (Grace store.now.state.graces)) }
{
    let graces = store.graces();
    line.clear();
    line.text(b"graces");
    line.field(graces.block);
    line.field(graces.inode);
    line.put_end(out)
}
