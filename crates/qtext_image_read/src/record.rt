//! The record of a principal.
ghost use Rattle.std.specs.Prelude.{◌∷◌, [], map};
ghost use Rattle.qtext_image.specs.RowsRead.{record_in};
ghost use Rattle.qtext_image_read.specs.ImageRows.{TellsRow};

use crate::name::name_of;
use crate::row::{ImageRow, WORD_COUNT};
use qrules::{Kind, Limits};
use qtext::{ReadFault, TextKind, id_of, number};
use qtext_read::{LimitsWords, end_of, limits_of};

/// The record of a principal, and the blocks of 4096 bytes and the inodes that it uses. Ends of graces are in seconds.
#[derive(Clone, Copy, Debug)]
pub struct ImageRecord<'a> {
    pub kind: Kind,
    pub id: u32,
    pub name: &'a [u8],
    pub blocks: u64,
    pub inodes: u64,
    pub limits: Limits,
    pub block_end: Option<u64>,
    pub inode_end: Option<u64>,
}

/// `ID NAME BLOCKS INODES BSOFT BHARD ISOFT IHARD BEND IEND`, each by itself, behind its kind.
#[tactic(auto, unfolding(qtext_image::specs::RowsRead::record_in))]
fn record_of<'a>(
    kind: Kind,
    id: &[u8],
    name: &'a [u8],
    blocks: &[u8],
    inodes: &[u8],
    limits: LimitsWords<'_>,
    block_end: &[u8],
    inode_end: &[u8],
) -> Result<ImageRow<'a>, ReadFault>
    ensures { TellsRow result (record_in kind (id.now ∷ name.now ∷ blocks.now ∷ inodes.now
        ∷ limits.entry.block_soft.now ∷ limits.entry.block_hard.now ∷ limits.entry.inode_soft.now
        ∷ limits.entry.inode_hard.now ∷ block_end.now ∷ inode_end.now ∷ [])) }
{
    Ok(ImageRow::Record(ImageRecord {
        kind,
        id: id_of(TextKind::BadNumber, id)?,
        name: name_of(name)?,
        blocks: number(blocks)?,
        inodes: number(inodes)?,
        limits: limits_of(limits)?,
        block_end: end_of(block_end)?,
        inode_end: end_of(inode_end)?,
    }))
}

/// `BSOFT BHARD ISOFT IHARD BEND IEND` behind the other words.
#[tactic(auto, unfolding(qtext_image::specs::RowsRead::record_in))]
fn record_behind<'a>(
    kind: Kind,
    id: &[u8],
    name: &'a [u8],
    blocks: &[u8],
    inodes: &[u8],
    behind: &[&[u8]],
) -> Result<ImageRow<'a>, ReadFault>
    ensures { TellsRow result
        (record_in kind (id.now ∷ name.now ∷ blocks.now ∷ inodes.now ∷ map (λ word. word.now) behind.now)) }
{
    let [
        block_soft,
        block_hard,
        inode_soft,
        inode_hard,
        block_end,
        inode_end,
    ] = behind
    else {
        return Err(WORD_COUNT);
    };
    let limits = LimitsWords {
        block_soft,
        block_hard,
        inode_soft,
        inode_hard,
    };
    record_of(kind, id, name, blocks, inodes, limits, block_end, inode_end)
}

/// `ID NAME BLOCKS INODES BSOFT BHARD ISOFT IHARD BEND IEND` behind its kind.
#[tactic(auto, unfolding(qtext_image::specs::RowsRead::record_in))]
pub(crate) fn record_in<'a>(kind: Kind, words: &[&'a [u8]]) -> Result<ImageRow<'a>, ReadFault>
    ensures { TellsRow result (record_in kind (map (λ word. word.now) words.now)) }
{
    match words {
        [id, name, blocks, inodes, behind @ ..] => {
            record_behind(kind, id, name, blocks, inodes, behind)
        }
        _ => Err(WORD_COUNT),
    }
}
