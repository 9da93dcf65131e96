//! Names.
ghost use Rattle.std.specs.Prelude.{◌∷◌, [], map};
ghost use Rattle.qtext_read.specs.Arguments.{path_of};
ghost use Rattle.qtext_image.specs.RowsRead.{name_in};
ghost use Rattle.qtext_image_read.specs.ImageRows.{TellsRow};
ghost use Rattle.qtext_image_read.specs.Words.{GivesBytes};

use crate::row::{ImageRow, WORD_COUNT};
use qplain::are_path_bytes;
use qtext::{ReadFault, TextKind, number};

/// One byte or more, each 0x21 to 0x7E: whether it is a name that may stand there is not looked at.
#[tactic(auto, unfolding(qtext_read::specs::Arguments::path_of))]
pub(crate) fn name_of(word: &[u8]) -> Result<&[u8], ReadFault>
    ensures { GivesBytes result (path_of word.now) }
{
    if word.is_empty() || !are_path_bytes(word) {
        return Err(ReadFault::Fault(TextKind::BadWord));
    }
    Ok(word)
}

/// `DIR NAME NUMBER`, each by itself.
#[tactic(auto, unfolding(qtext_image::specs::RowsRead::name_in))]
fn name_row_of<'a>(dir: &[u8], name: &'a [u8], ino: &[u8]) -> Result<ImageRow<'a>, ReadFault>
    ensures { TellsRow result (name_in (dir.now ∷ name.now ∷ ino.now ∷ [])) }
{
    let dir = number(dir)?;
    let name = name_of(name)?;
    let ino = number(ino)?;
    Ok(ImageRow::Name { dir, name, ino })
}

/// `DIR NAME NUMBER`.
#[tactic(auto, unfolding(qtext_image::specs::RowsRead::name_in))]
pub(crate) fn name_in<'a>(words: &[&'a [u8]]) -> Result<ImageRow<'a>, ReadFault>
    ensures { TellsRow result (name_in (map (λ word. word.now) words.now)) }
{
    match words {
        [dir, name, ino] => name_row_of(dir, name, ino),
        _ => Err(WORD_COUNT),
    }
}
