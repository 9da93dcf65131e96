//! Blocks made beforehand for a write.
ghost use Rattle.std.specs.Prelude.{◌≡◌, ℕ, ◌+◌, ◌<◌, ◌≤◌, ◌^◌, IfOk, OnOk, All, [], vec_len};

use crate::block::Block;
use std::alloc::{AllocError as NoMemory, Global};
use std::marker::Model;

/// Blocks made beforehand by `BlockFile::ready`. Contracts see their number. It may be dropped.
///
/// The first of them stands in the value itself, so that a write that allocates one block takes no
/// memory besides it.
#[derive(Drop)]
pub struct Spare {
    first: Option<Block>,
    more: Vec<Block>,
}

impl Model for Spare {
    ghost use Rattle.std.specs.Prelude.{◌≡◌, ℕ, ◌+◌, [], is_some, IfSome, if◌then◌else◌, vec_len, All};

    ghost Value = { ℕ };

    ghost view = { λ spare. vec_len spare.more + (if is_some spare.first then 1 else 0) };

    ghost invariant = { λ spare. IfSome spare.first (λ block. block ≡ [])
        × All (λ block. block ≡ []) spare.more.items };
}

impl Spare {
    /// No block. It takes no memory.
    pub fn none(alloc: Global) -> Spare
        ensures { result ≡ 0 }
    {
        Spare {
            first: None,
            more: Vec::new(alloc),
        }
    }

    pub(crate) fn new(alloc: Global, count: u64) -> Result<Spare, NoMemory>
        requires { count ≤ 2 ^ 28 }
        ensures { IfOk result (λ spare. spare ≡ count) }
    {
        if count == 0 {
            return Ok(Spare::none(alloc));
        }
        let more = empty_blocks(alloc, count - 1)?;
        Ok(Spare {
            first: Some(Block::new(alloc)?),
            more,
        })
    }

    pub(crate) fn len(&self) -> u64
        ensures { result ≡ self.now }
    {
        self.more.len() as u64 + u64::from(self.first.is_some())
    }

    /// Takes one of the blocks, in which no byte is written yet.
    pub(crate) fn take(&mut self) -> Block
        requires { 0 < self.old }
        ensures empty { result ≡ [] }
        ensures left { self.new + 1 ≡ self.old }
    {
        if self.more.is_empty() {
            let Some(block) = self.first.take() else {
                unreachable!()
            };
            return block;
        }
        self.more.take_last()
    }
}

/// N blocks in which no byte is written yet.
fn empty_blocks(alloc: Global, count: u64) -> Result<Vec<Block>, NoMemory>
    requires { count ≤ 2 ^ 28 }
    ensures empty { IfOk result (λ blocks. All (λ block. block ≡ []) blocks.items) }
    ensures len { IfOk result (λ blocks. vec_len blocks ≡ count) }
{
    let mut blocks = Vec::with_capacity(alloc, count as usize)?;
    for _made in 0..count {
        push_block(&mut blocks, alloc)?;
    }
    Ok(blocks)
}

fn push_block(blocks: &mut Vec<Block>, alloc: Global) -> Result<(), NoMemory>
    requires empty { All (λ block. block ≡ []) blocks.old.items }
    ensures empty { All (λ block. block ≡ []) blocks.new.items }
    ensures len { OnOk result (vec_len blocks.new ≡ vec_len blocks.old + 1) }
{
    blocks.push(Block::new(alloc)?)?;
    Ok(())
}
