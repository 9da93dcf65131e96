//! The bounds of a store and its graces.
ghost use Rattle.std.specs.Prelude.{map};
ghost use Rattle.qtext_image.specs.RowsRead.{bounds_in, graces_in};
ghost use Rattle.qtext_image_read.specs.ImageRows.{TellsRow};

use crate::row::{ImageRow, WORD_COUNT};
use qrules::Graces;
use qtext::{ReadFault, number};

/// `SIZE MOST NEXT`.
#[tactic(auto, unfolding(qtext_image::specs::RowsRead::bounds_in))]
pub(crate) fn bounds_in<'a>(words: &[&'a [u8]]) -> Result<ImageRow<'a>, ReadFault>
    ensures { TellsRow result (bounds_in (map (λ word. word.now) words.now)) }
{
    let [size, most_inodes, next] = words else {
        return Err(WORD_COUNT);
    };
    Ok(ImageRow::Bounds {
        size: number(size)?,
        most_inodes: number(most_inodes)?,
        next: number(next)?,
    })
}

/// `BLOCK INODE`.
#[tactic(auto, unfolding(qtext_image::specs::RowsRead::graces_in))]
pub(crate) fn graces_in<'a>(words: &[&'a [u8]]) -> Result<ImageRow<'a>, ReadFault>
    ensures { TellsRow result (graces_in (map (λ word. word.now) words.now)) }
{
    let [block, inode] = words else {
        return Err(WORD_COUNT);
    };
    Ok(ImageRow::Graces(Graces {
        block: number(block)?,
        inode: number(inode)?,
    }))
}
