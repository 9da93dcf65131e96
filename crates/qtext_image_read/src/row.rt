//! A row of an image.
ghost use Rattle.std.specs.Prelude.{map};
ghost use Rattle.qtext_image.specs.RowsRead.{row_by, row_in};
ghost use Rattle.qtext_image_read.specs.ImageRows.{TellsRow};

use crate::block::BlockRow;
use crate::bounds::{bounds_in, graces_in};
use crate::inode::{block_in, directory_in, file_in};
use crate::name::name_in;
use crate::record::{ImageRecord, record_in};
use qplain::Owners;
use qrules::{Graces, Kind};
use qtext::{ReadFault, TextKind};

/// A row of an image. Names and data are parts of its line.
#[derive(Clone, Copy, Debug)]
pub enum ImageRow<'a> {
    /// The bounds in blocks of 4096 bytes and in inodes, and the next number of an inode.
    Bounds {
        size: u64,
        most_inodes: u64,
        next: u64,
    },
    Graces(Graces),
    Record(ImageRecord<'a>),
    Directory {
        ino: u64,
        owners: Owners,
    },
    /// The size is in bytes.
    File {
        ino: u64,
        owners: Owners,
        size: u64,
    },
    /// A block of the file before it.
    Block(BlockRow<'a>),
    Name {
        dir: u64,
        name: &'a [u8],
        ino: u64,
    },
}

/// There are more or fewer words than the row has.
pub(crate) const WORD_COUNT: ReadFault = ReadFault::Fault(TextKind::WordCount);

/// The row that the word at the front tells of.
#[tactic(auto, unfolding(qtext_image::specs::RowsRead::row_by))]
fn row_by<'a>(verb: &[u8], words: &[&'a [u8]]) -> Result<ImageRow<'a>, ReadFault>
    ensures { TellsRow result (row_by verb.now (map (λ word. word.now) words.now)) }
{
    if verb == b"store".as_slice() {
        return bounds_in(words);
    }
    if verb == b"graces".as_slice() {
        return graces_in(words);
    }
    if verb == b"user".as_slice() {
        return record_in(Kind::User, words);
    }
    if verb == b"group".as_slice() {
        return record_in(Kind::Group, words);
    }
    if verb == b"project".as_slice() {
        return record_in(Kind::Project, words);
    }
    if verb == b"dir".as_slice() {
        return directory_in(words);
    }
    if verb == b"file".as_slice() {
        return file_in(words);
    }
    if verb == b"block".as_slice() {
        return block_in(words);
    }
    if verb == b"name".as_slice() {
        return name_in(words);
    }
    Err(ReadFault::Fault(TextKind::BadVerb))
}

/// The row that words spell, the first of them its verb.
#[tactic(auto, unfolding(qtext_image::specs::RowsRead::row_in))]
pub(crate) fn row_in<'a>(words: &[&'a [u8]]) -> Result<ImageRow<'a>, ReadFault>
    ensures { TellsRow result (row_in (map (λ word. word.now) words.now)) }
{
    let [verb, behind @ ..] = words else {
        return Err(ReadFault::Fault(TextKind::BadVerb));
    };
    row_by(verb, behind)
}
