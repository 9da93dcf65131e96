//! The pieces of a file that some of its bytes touch.
ghost use Rattle.std.specs.Prelude.{◌≡◌, ◌+◌, ◌-◌, ◌/◌, ◌<◌, ◌≤◌, ◌^◌, max};
ghost use Rattle.qblocks.specs.Row.{span_end};

use crate::block::BLOCK_SIZE;

/// One past the last of the pieces of `size` bytes that `len` bytes at `off` touch.
pub(crate) fn span_end(size: u64, off: u64, len: u64) -> u64
    requires size { 0 < size }
    requires bound { off + len ≤ 2 ^ 40 }
    ensures end { result ≡ span_end size off len }
    ensures order { off / size ≤ result }
{
    if len == 0 {
        off / size
    } else {
        (off + len - 1) / size + 1
    }
}

/// How many of the blocks that `len` bytes at `off` touch are the block `first` or come after it.
#[inline(always)]
pub(crate) fn touched_from(first: u64, off: u64, len: u64) -> u64
    requires { off + len ≤ 2 ^ 40 }
    ensures count { result ≡ span_end BLOCK_SIZE off len - max (off / BLOCK_SIZE) first }
    ensures bound { result ≤ 2 ^ 28 }
{
    let start = (off / BLOCK_SIZE).max(first);
    span_end(BLOCK_SIZE, off, len).saturating_sub(start)
}
