//! What an inode takes, and from whose records.
ghost use Rattle.std.specs.Prelude.{◌≡◌, ◌+◌, ◌-◌, ◌==◌};
ghost use Rattle.std.specs.Option.{option_and_then};
ghost use Rattle.qstore_accounts.specs.Claims.{share_in, slot_in, weight_in, weight_at};
ghost use Rattle.qstore_accounts.specs.Ledgers.{apart};

use qplain::Change;
use qrules::Kind;

/// What is counted of an inode: its allocated blocks of 4096 bytes, and itself.
#[derive(Clone, Copy)]
pub struct Weight {
    pub blocks: u64,
    pub inodes: u64,
}

/// What is counted where no inode stands.
const NOTHING: Weight = Weight {
    blocks: 0,
    inodes: 0,
};

/// Where the records of an inode's owners stand among the users, the groups and the projects. It has no project where
/// none is declared.
#[derive(Clone, Copy)]
pub struct Slots {
    pub user: usize,
    pub group: usize,
    pub project: Option<usize>,
}

/// What an inode takes, and whose records it is taken from.
#[derive(Clone, Copy)]
pub struct Claim {
    pub slots: Slots,
    pub weight: Weight,
}

/// What an inode takes of one record, which stands at this slot of its ledger.
#[derive(Clone, Copy)]
pub(crate) struct OwnerClaim {
    pub(crate) slot: usize,
    pub(crate) weight: Weight,
}

impl Claim {
    /// An inode with N blocks, of these owners.
    pub fn new(slots: Slots, blocks: u64) -> Claim
        ensures { result ≡ record { slots = slots; weight = record { blocks = blocks; inodes = 1 } } }
    {
        Claim {
            slots,
            weight: Weight { blocks, inodes: 1 },
        }
    }
}

/// What is counted, where an inode stands or none.
#[inline(always)]
pub(crate) fn weight_of(claim: Option<Claim>) -> Weight
    ensures { result ≡ weight_in claim }
{
    match claim {
        Some(claim) => claim.weight,
        None => NOTHING,
    }
}

/// Where the record of the owner of a kind stands, if there is one.
#[inline(always)]
fn slot_of(kind: Kind, slots: Slots) -> Option<usize>
    ensures { result ≡ slot_in kind slots }
{
    match kind {
        Kind::User => Some(slots.user),
        Kind::Group => Some(slots.group),
        Kind::Project => slots.project,
    }
}

/// What a claim takes of the record of a kind, if its inode has an owner of that kind.
#[inline(always)]
fn share_in(kind: Kind, claim: Claim) -> Option<OwnerClaim>
    ensures { result ≡ share_in kind claim }
{
    match slot_of(kind, claim.slots) {
        Some(slot) => Some(OwnerClaim {
            slot,
            weight: claim.weight,
        }),
        None => None,
    }
}

/// What a claim takes of the record of a kind, where an inode stands or none.
#[inline(always)]
pub(crate) fn share_of(kind: Kind, claim: Option<Claim>) -> Option<OwnerClaim>
    ensures { result ≡ option_and_then (share_in kind) claim }
{
    match claim {
        Some(claim) => share_in(kind, claim),
        None => None,
    }
}

/// What is taken of the record at this slot.
#[inline(always)]
pub(crate) fn weight_at(share: Option<OwnerClaim>, slot: usize) -> Weight
    ensures { result ≡ weight_at share slot }
{
    match share {
        Some(share) if share.slot == slot => share.weight,
        _ => NOTHING,
    }
}

/// The share that is given up, unless the other is taken of the same record.
#[inline(always)]
pub(crate) fn apart(from: Option<OwnerClaim>, to: Option<OwnerClaim>) -> Option<OwnerClaim>
    ensures { result ≡ apart from to }
{
    match (from, to) {
        (Some(lost), Some(gained)) if lost.slot == gained.slot => None,
        (from, _) => from,
    }
}

/// How the totals change where the inode of one claim comes to stand in the place of the other's.
#[inline(always)]
pub fn change_of(from: Option<Claim>, to: Option<Claim>) -> Change
    ensures { result ≡ record {
      blocks_charged = (weight_in to).blocks - (weight_in from).blocks;
      blocks_released = (weight_in from).blocks - (weight_in to).blocks;
      inodes_charged = (weight_in to).inodes - (weight_in from).inodes;
      inodes_released = (weight_in from).inodes - (weight_in to).inodes;
    } }
{
    let (from, to) = (weight_of(from), weight_of(to));
    Change {
        blocks_charged: to.blocks.saturating_sub(from.blocks),
        blocks_released: from.blocks.saturating_sub(to.blocks),
        inodes_charged: to.inodes.saturating_sub(from.inodes),
        inodes_released: from.inodes.saturating_sub(to.inodes),
    }
}
