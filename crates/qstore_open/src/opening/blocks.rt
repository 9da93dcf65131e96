//! Blocks of files.
ghost use Rattle.std.specs.Prelude.{◌≡◌, ◌*◌, ◌/◌, ◌+◌, ◌≤◌, ◌≢◌, None, Some, Ok, length, take, true, false};
ghost use Rattle.std.specs.Prelude.{IfNone, IfSome, OnOk};
ghost use Rattle.std.specs.Map.{keys_of};
ghost use Rattle.hex.specs.Hex.{decode_of};
ghost use Rattle.qblocks.specs.declared.block.TheConstants.{BLOCK_SIZE as BLOCK_BYTES};
ghost use Rattle.qblocks.specs.declared.file.TheConstants.{MAX_SIZE};
ghost use Rattle.qblocks.specs.File.{begins_below, empty_file, size_of};
ghost use Rattle.qplain.specs.State.{Inode, inode_at};
ghost use Rattle.qplain_image.specs.Rows.{Block, with_row};
ghost use Rattle.qtext_image.specs.NextFaults.{block_fault, open_file};
ghost use Rattle.qtext_image_read.specs.Digits.{bytes_of};
ghost use Rattle.qstore_open.specs.Faults.{Takes, Tells};
ghost use Rattle.qstore_open.specs.Kept.{last_of};

use crate::image_kind::ImageKind;
use crate::opening::Opening;
use crate::row_fault::RowFault;
use qblocks::{BLOCK_SIZE, BlockFile, Input};
use qstore_tree::Content;
use qtext::TextKind;
use qtext_image_read::BlockRow;

/// How many bytes a block has.
const BLOCK: usize = BLOCK_SIZE as usize;

/// Where a block begins, where it begins below the size.
fn offset_below(size: u64, index: u64) -> Option<u64>
    ensures none { IfNone result (begins_below size index ≢ true) }
    ensures some { IfSome result (λ off. (off ≡ index * BLOCK_BYTES) × (begins_below size index ≡ true)) }
{
    let off = index.checked_mul(BLOCK_SIZE)?;
    if off < size { Some(off) } else { None }
}

/// Puts the bytes of digits to the front of a buffer, two digits a byte.
fn fill(digits: &[u8], buffer: &mut [u8])
    requires pairs { decode_of digits.now ≡ Ok (bytes_of digits.now) }
    requires room { length digits.now / 2 ≤ length buffer.old }
    ensures { take (length digits.now / 2) buffer.new ≡ bytes_of digits.now }
{
    let (room, _) = buffer.split_at_mut(digits.len() / 2);
    let _filled = hex::decode_to_slice(digits, room);
}

/// What is wrong with a block of this file. Where nothing is, it is no longer than a block, and ends within the bound.
fn test_block(file: &BlockFile, block: &BlockRow) -> Result<(), ImageKind>
    ensures fault { Tells result (block_fault file.now.file (block.now.index, bytes_of block.now.digits.now)) }
    ensures long { OnOk result (length block.now.digits.now ≡ 2 * length (bytes_of block.now.digits.now)) }
    ensures short { OnOk result (length (bytes_of block.now.digits.now) ≤ BLOCK_BYTES) }
    ensures fits { OnOk result
        (block.now.index * BLOCK_BYTES + length (bytes_of block.now.digits.now) ≤ MAX_SIZE) }
{
    let Some(off) = offset_below(file.size(), block.index) else {
        return Err(ImageKind::BadOrder);
    };
    if block.digits.len() as u64 != 2 * BLOCK_SIZE.min(file.size() - off) {
        return Err(ImageKind::Text(TextKind::BadHex));
    }
    match file.next_allocated(block.index) {
        Some(_) => Err(ImageKind::BadOrder),
        None => Ok(()),
    }
}

impl Opening {
    /// The file that a block belongs to which is told next, with its number.
    fn open_file(&self) -> Option<(u64, &BlockFile)>
        ensures some { IfSome result (λ f. f.1.now.file ≡ open_file self.now.state) }
        ensures last { IfSome result (λ f. last_of (keys_of self.now.state.inodes) ≡ Some f.0) }
        ensures there { IfSome result (λ f. (inode : Inode) × (inode_at self.now.state f.0 ≡ Some inode)
            × (inode.dir ≡ false) × (inode.file ≡ f.1.now.file)) }
        ensures none { IfNone result (open_file self.now.state ≡ empty_file) }
    {
        if self.last_name.is_some() {
            return None;
        }
        let number = self.last?;
        match &self.tree.node(number)?.content {
            Content::File(file) => Some((number, file)),
            Content::Directory(_) => None,
        }
    }

    /// Takes in a block of the file that was told last.
    pub(crate) fn take_block(&mut self, block: &BlockRow) -> Result<(), RowFault>
        ensures fault { Takes result
            (block_fault (open_file self.old.state) (block.now.index, bytes_of block.now.digits.now)) }
        ensures ok { OnOk result (self.new ≡ record self.old {
          state = with_row self.old.state (Block (block.now.index, bytes_of block.now.digits.now));
        }) }
    {
        let Some((number, file)) = self.open_file() else {
            return Err(RowFault::Row(ImageKind::BadOrder));
        };
        if let Err(kind) = test_block(file, block) {
            return Err(RowFault::Row(kind));
        }
        let (off, count) = (block.index * BLOCK_SIZE, block.digits.len() / 2);
        let missing = file.missing(off, count as u64);
        let spare = self.tree.ready_write(number, off, count as u64, missing)?;
        let mut buffer = [0; BLOCK];
        fill(block.digits, &mut buffer);
        let _new = self
            .tree
            .put(number, off, Input::Bytes(&buffer[..count]), spare);
        Ok(())
    }
}
