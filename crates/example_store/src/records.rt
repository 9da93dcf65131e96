//! A charge of one quota record.
ghost use Rattle.std.specs.Prelude.{◌≡◌, ◌+◌, ◌≤◌, false, OnErr, OnOk};
ghost use Rattle.qrules.specs.Charge.{answer_to, charge_fault};
ghost use Rattle.qrules.specs.Grace.{charged};

use qrules::{Graces, MAX_GRACE, MAX_MOMENT, MAX_USE, Over, Record};

/// Charges a record for blocks and inodes, or says which limit of it is in the way; then it is as before.
pub(crate) fn charge(
    quota: &mut Record,
    graces: Graces,
    moment: u64,
    blocks: u64,
    inodes: u64,
) -> Result<(), Over>
    requires uses { (quota.old.blocks + blocks ≤ MAX_USE) × (quota.old.inodes + inodes ≤ MAX_USE) }
    requires moment { moment ≤ MAX_MOMENT }
    requires graces { (graces.block ≤ MAX_GRACE) × (graces.inode ≤ MAX_GRACE) }
    ensures answer { result ≡ answer_to false (charge_fault quota.old moment blocks inodes) }
    ensures ok { OnOk result (quota.new ≡ charged quota.old graces moment blocks inodes) }
    ensures err { OnErr result (quota.new ≡ quota.old) }
{
    quota.test(moment, false, blocks, inodes)?;
    quota.charge(graces, moment, blocks, inodes);
    Ok(())
}
