//! One quota record: its use, its limits and its grace ends.
ghost use Rattle.std.specs.Prelude.{◌≡◌, ◌+◌, ◌-◌, ◌*◌, ◌<◌, ◌≤◌, ℕ, IsTrue, IsOk, true, false, None};
ghost use Rattle.qrules.specs.declared.graces.Graces.{Graces};
ghost use Rattle.qrules.specs.Sort.{Blocks, Inodes, amount_of};
ghost use Rattle.qrules.specs.Account.{HasEnds};
ghost use Rattle.qrules.specs.Charge.{answer_to, charge_fault, charge_fault_in, fault_of, first_fault};
ghost use Rattle.qrules.specs.Grace.{charged, less_used, released, unused, with_ends, with_limits};

use crate::graces::{Graces, MAX_GRACE, MAX_MOMENT, has_ended, kept_end, next_end, renew_end};
use crate::limits::{KIB_PER_BLOCK, Limits, is_over};
use crate::over::Over;
use std::marker::Model;

/// The most blocks, and the most inodes, that one record may count.
pub const MAX_USE: u64 = 1 << 40;

/// The quota record of one principal: what it uses, its limits and its grace ends (quotactl(2)).
///
/// Blocks are of 4096 bytes and block limits in KiB; moments are seconds. A grace end stands exactly where use is
/// over that soft limit. No call takes memory, and only `test` and `test_uses` refuse.
#[derive(Clone, Copy, Debug, PartialEq, Eq)]
pub struct Record {
    blocks: u64,
    inodes: u64,
    limits: Limits,
    block_end: Option<u64>,
    inode_end: Option<u64>,
}

impl Model for Record {
    ghost use Rattle.qrules.specs.Account.{Account};

    ghost Value = { Account };

    ghost use Rattle.qrules.specs.Kept.{account_of, fields_of, IsKept};

    ghost view = { account_of };

    ghost invariant = { IsKept };

    ghost inverse = { fields_of };
}

/// What N blocks count against a limit in KiB.
fn kib_of(blocks: u64) -> u64
    requires { blocks ≤ MAX_USE }
    ensures { result ≡ amount_of Blocks blocks }
{
    KIB_PER_BLOCK * blocks
}

impl Record {
    /// A record with these limits, of somebody who uses nothing.
    pub fn new(limits: Limits) -> Self
        ensures { result ≡ unused limits }
    {
        Record {
            blocks: 0,
            inodes: 0,
            limits,
            block_end: None,
            inode_end: None,
        }
    }

    /// The blocks of 4096 bytes in use.
    pub fn blocks(&self) -> u64
        ensures blocks { result ≡ self.now.blocks }
        ensures bound { result ≤ MAX_USE }
    {
        self.blocks
    }

    /// The inodes in use.
    pub fn inodes(&self) -> u64
        ensures inodes { result ≡ self.now.inodes }
        ensures bound { result ≤ MAX_USE }
    {
        self.inodes
    }

    /// The limits: blocks in KiB, inodes by number, 0 for none.
    pub fn limits(&self) -> Limits
        ensures { result ≡ self.now.limits }
    {
        self.limits
    }

    /// The moment at which the grace for blocks ends. One stands exactly where use is over the soft limit.
    pub fn block_end(&self) -> Option<u64>
        ensures end { result ≡ self.now.block_end }
        ensures stands { HasEnds self.now }
    {
        self.block_end
    }

    /// The moment at which the grace for inodes ends. One stands exactly where use is over the soft limit.
    pub fn inode_end(&self) -> Option<u64>
        ensures end { result ≡ self.now.inode_end }
        ensures stands { HasEnds self.now }
    {
        self.inode_end
    }

    /// Whether N blocks and inodes more are granted at this moment, and else the first limit in the way.
    ///
    /// Inodes come before blocks, and a hard limit before a soft one. A soft limit refuses once its grace has
    /// ended. What does not rise is not tested. The superuser, who is `privileged`, passes every limit.
    pub fn test(&self, moment: u64, privileged: bool, blocks: u64, inodes: u64) -> Result<(), Over>
        requires blocks { self.now.blocks + blocks ≤ MAX_USE }
        requires inodes { self.now.inodes + inodes ≤ MAX_USE }
        ensures answer { result ≡ answer_to privileged (charge_fault self.now moment blocks inodes) }

        // In the words of the rules: who passes, and that a charge of no inodes, or no blocks, tests none.
        ensures superuser { IsTrue privileged → IsOk result }
        ensures no_inodes { inodes ≡ 0
            → result ≡ answer_to privileged (charge_fault_in Blocks self.now moment blocks) }
        ensures no_blocks { blocks ≡ 0
            → result ≡ answer_to privileged (charge_fault_in Inodes self.now moment inodes) }
    {
        if privileged {
            return Ok(());
        }
        if inodes > 0 {
            self.test_inodes(moment, self.inodes + inodes)?;
        }
        if blocks > 0 {
            self.test_blocks(moment, self.blocks + blocks)?;
        }
        Ok(())
    }

    /// Whether uses may become these at this moment, and else the first limit in the way, as `test` looks for it. What
    /// does not rise is not tested.
    pub fn test_uses(&self, moment: u64, blocks: u64, inodes: u64) -> Result<(), Over>
        requires blocks { blocks ≤ MAX_USE }
        requires inodes { inodes ≤ MAX_USE }
        ensures { result ≡ answer_to false (first_fault self.now moment blocks inodes) }
    {
        if inodes > self.inodes {
            self.test_inodes(moment, inodes)?;
        }
        if blocks > self.blocks {
            self.test_blocks(moment, blocks)?;
        }
        Ok(())
    }

    /// Sets the uses, and the grace ends that then stand: none where use is not over the soft limit, else the one that
    /// stood, else this moment plus the grace. The limits stay.
    ///
    /// It tests nothing. Where no end stands and none begins, it writes the two numbers alone.
    #[inline(always)]
    pub fn set_uses(&mut self, blocks: u64, inodes: u64, graces: Graces, moment: u64)
        requires blocks { blocks ≤ MAX_USE }
        requires inodes { inodes ≤ MAX_USE }
        requires moment { moment ≤ MAX_MOMENT }
        requires block_grace { graces.block ≤ MAX_GRACE }
        requires inode_grace { graces.inode ≤ MAX_GRACE }
        ensures { self.new ≡ with_ends (record self.old { blocks = blocks; inodes = inodes }) graces moment }
    {
        let blocks_over = is_over(kib_of(blocks), self.limits.block_soft);
        let inodes_over = is_over(inodes, self.limits.inode_soft);
        self.blocks = blocks;
        self.inodes = inodes;
        renew_end(&mut self.block_end, blocks_over, moment + graces.block);
        renew_end(&mut self.inode_end, inodes_over, moment + graces.inode);
    }

    fn test_inodes(&self, moment: u64, inodes: u64) -> Result<(), Over>
        requires rises { self.now.inodes < inodes }
        ensures { result ≡ answer_to false (fault_of Inodes self.now moment inodes) }
    {
        if is_over(inodes, self.limits.inode_hard) {
            return Err(Over::InodeHard);
        }
        if is_over(inodes, self.limits.inode_soft) && has_ended(self.inode_end, moment) {
            return Err(Over::InodeSoft);
        }
        Ok(())
    }

    fn test_blocks(&self, moment: u64, blocks: u64) -> Result<(), Over>
        requires rises { self.now.blocks < blocks }
        requires bound { blocks ≤ MAX_USE }
        ensures { result ≡ answer_to false (fault_of Blocks self.now moment blocks) }
    {
        let kib = kib_of(blocks);
        if is_over(kib, self.limits.block_hard) {
            return Err(Over::BlockHard);
        }
        if is_over(kib, self.limits.block_soft) && has_ended(self.block_end, moment) {
            return Err(Over::BlockSoft);
        }
        Ok(())
    }

    /// Adds to the use. Where use is then over a soft limit, the end that stands stays, and where none stood it
    /// becomes this moment plus the grace.
    ///
    /// It tests nothing, so the superuser, who passes every limit, begins a grace as any other caller does.
    pub fn charge(&mut self, graces: Graces, moment: u64, blocks: u64, inodes: u64)
        requires blocks { self.old.blocks + blocks ≤ MAX_USE }
        requires inodes { self.old.inodes + inodes ≤ MAX_USE }
        requires moment { moment ≤ MAX_MOMENT }
        requires block_grace { graces.block ≤ MAX_GRACE }
        requires inode_grace { graces.inode ≤ MAX_GRACE }
        ensures charged { self.new ≡ charged self.old graces moment blocks inodes }
        ensures nothing { blocks ≡ 0 → inodes ≡ 0 → self.new ≡ self.old }
    {
        self.set_uses(self.blocks + blocks, self.inodes + inodes, graces, moment);
    }

    /// Takes from the use. A grace end goes where use is no longer over its soft limit, and else stays.
    pub fn release(&mut self, blocks: u64, inodes: u64)
        requires blocks { blocks ≤ self.old.blocks }
        requires inodes { inodes ≤ self.old.inodes }
        ensures released { self.new ≡ released self.old blocks inodes }

        // No grace begins, so the moment and the graces of the call are all one.
        ensures at_any_moment { (graces : Graces) (moment : ℕ)
            → self.new ≡ with_ends (less_used self.old blocks inodes) graces moment }
    {
        self.blocks -= blocks;
        self.inodes -= inodes;
        let blocks_over = is_over(kib_of(self.blocks), self.limits.block_soft);
        let inodes_over = is_over(self.inodes, self.limits.inode_soft);
        self.block_end = kept_end(blocks_over, self.block_end);
        self.inode_end = kept_end(inodes_over, self.inode_end);
    }

    /// Sets the limits and forgets both grace ends. Each becomes none where use is not over the new soft limit, and
    /// else this moment plus the grace.
    pub fn set_limits(&mut self, limits: Limits, graces: Graces, moment: u64)
        requires moment { moment ≤ MAX_MOMENT }
        requires block_grace { graces.block ≤ MAX_GRACE }
        requires inode_grace { graces.inode ≤ MAX_GRACE }
        ensures { self.new ≡ with_limits self.old limits graces moment }
    {
        self.limits = limits;
        let blocks_over = is_over(kib_of(self.blocks), limits.block_soft);
        let inodes_over = is_over(self.inodes, limits.inode_soft);
        self.block_end = next_end(blocks_over, None, moment + graces.block);
        self.inode_end = next_end(inodes_over, None, moment + graces.inode);
    }
}
