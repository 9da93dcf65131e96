//! Directories, files and their blocks.
ghost use Rattle.std.specs.Prelude.{◌∷◌, [], map};
ghost use Rattle.qtext.specs.Gives.{Gives};
ghost use Rattle.qtext_image.specs.RowsRead.{block_row_in, directory_in, file_in, owners_of};
ghost use Rattle.qtext_image_read.specs.ImageRows.{TellsRow};

use crate::block::BlockRow;
use crate::digits::digits_of;
use crate::row::{ImageRow, WORD_COUNT};
use qplain::Owners;
use qtext::{ReadFault, TextKind, id_of, number};
use qtext_read::owner_of;

/// `UID GID PROJECT`, a dash for no project.
#[tactic(auto, unfolding(qtext_image::specs::RowsRead::owners_of))]
fn owners_of(uid: &[u8], gid: &[u8], project: &[u8]) -> Result<Owners, ReadFault>
    ensures { Gives result (owners_of uid.now gid.now project.now) }
{
    Ok(Owners {
        uid: id_of(TextKind::BadNumber, uid)?,
        gid: id_of(TextKind::BadNumber, gid)?,
        project: owner_of(project)?,
    })
}

/// `NUMBER UID GID PROJECT`, each by itself.
#[tactic(auto, unfolding(qtext_image::specs::RowsRead::directory_in))]
fn directory_of<'a>(
    ino: &[u8],
    uid: &[u8],
    gid: &[u8],
    project: &[u8],
) -> Result<ImageRow<'a>, ReadFault>
    ensures { TellsRow result (directory_in (ino.now ∷ uid.now ∷ gid.now ∷ project.now ∷ [])) }
{
    let ino = number(ino)?;
    let owners = owners_of(uid, gid, project)?;
    Ok(ImageRow::Directory { ino, owners })
}

/// `NUMBER UID GID PROJECT`.
#[tactic(auto, unfolding(qtext_image::specs::RowsRead::directory_in))]
pub(crate) fn directory_in<'a>(words: &[&'a [u8]]) -> Result<ImageRow<'a>, ReadFault>
    ensures { TellsRow result (directory_in (map (λ word. word.now) words.now)) }
{
    match words {
        [ino, uid, gid, project] => directory_of(ino, uid, gid, project),
        _ => Err(WORD_COUNT),
    }
}

/// `NUMBER UID GID PROJECT SIZE`, each by itself.
#[tactic(auto, unfolding(qtext_image::specs::RowsRead::file_in))]
fn file_of<'a>(
    ino: &[u8],
    uid: &[u8],
    gid: &[u8],
    project: &[u8],
    size: &[u8],
) -> Result<ImageRow<'a>, ReadFault>
    ensures { TellsRow result (file_in (ino.now ∷ uid.now ∷ gid.now ∷ project.now ∷ size.now ∷ [])) }
{
    let ino = number(ino)?;
    let owners = owners_of(uid, gid, project)?;
    let size = number(size)?;
    Ok(ImageRow::File { ino, owners, size })
}

/// `NUMBER UID GID PROJECT SIZE`.
#[tactic(auto, unfolding(qtext_image::specs::RowsRead::file_in))]
pub(crate) fn file_in<'a>(words: &[&'a [u8]]) -> Result<ImageRow<'a>, ReadFault>
    ensures { TellsRow result (file_in (map (λ word. word.now) words.now)) }
{
    match words {
        [ino, uid, gid, project, size] => file_of(ino, uid, gid, project, size),
        _ => Err(WORD_COUNT),
    }
}

/// `INDEX DATA`, each by itself.
#[tactic(auto, unfolding(qtext_image::specs::RowsRead::block_row_in))]
fn block_of<'a>(index: &[u8], data: &'a [u8]) -> Result<ImageRow<'a>, ReadFault>
    ensures { TellsRow result (block_row_in (index.now ∷ data.now ∷ [])) }
{
    let index = number(index)?;
    let digits = digits_of(data)?;
    Ok(ImageRow::Block(BlockRow { index, digits }))
}

/// `INDEX DATA`.
#[tactic(auto, unfolding(qtext_image::specs::RowsRead::block_row_in))]
pub(crate) fn block_in<'a>(words: &[&'a [u8]]) -> Result<ImageRow<'a>, ReadFault>
    ensures { TellsRow result (block_row_in (map (λ word. word.now) words.now)) }
{
    match words {
        [index, data] => block_of(index, data),
        _ => Err(WORD_COUNT),
    }
}
