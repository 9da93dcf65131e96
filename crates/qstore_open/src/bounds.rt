//! The bounds of a store.
ghost use Rattle.std.specs.Prelude.{◌≡◌, ◌&&◌, ◌+◌, nat_le};
ghost use Rattle.qplain.specs.declared.bounds.TheConstants.{MAX_NUMBER};
ghost use Rattle.qplain_image.specs.Rows.{Bounds as BoundsRow, blank, with_row};
ghost use Rattle.qtext_image.specs.Faults.{are_bounds_fit};

use qplain::{MAX_BLOCKS, MAX_INODES, MAX_NUMBER};

/// The bounds in blocks of 4096 bytes and in inodes, and the next number of an inode.
#[derive(Clone, Copy, Debug)]
pub(crate) struct Bounds {
    pub size: u64,
    pub most_inodes: u64,
    pub next: u64,
}

/// They are such as a setup may have, and the next number such as an inode may have, or the one behind all.
pub(crate) fn are_bounds_fit(bounds: &Bounds) -> bool
    ensures { result
        ≡ (are_bounds_fit (with_row (blank 0) (BoundsRow bounds.now.size bounds.now.most_inodes bounds.now.next))
        && nat_le bounds.now.next (MAX_NUMBER + 1)) }
{
    let Bounds {
        size,
        most_inodes,
        next,
    } = *bounds;
    1 <= size
        && size <= MAX_BLOCKS
        && 1 <= most_inodes
        && most_inodes <= MAX_INODES
        && next <= MAX_NUMBER + 1
}
