ghost use Rattle.std.specs.Prelude.{◌≡◌};
ghost use Rattle.qrules.specs.Charge.{has_ended};
ghost use Rattle.qrules.specs.Grace.{kept_end, next_end};

/// The latest moment, in seconds, that a call may have.
pub const MAX_MOMENT: u64 = 1 << 40;

/// The longest grace period, in seconds.
pub const MAX_GRACE: u64 = (1 << 32) - 1;

/// How long charges are still granted over a soft limit, in seconds. One pair of periods holds for all records.
#[derive(Clone, Copy, Debug, PartialEq, Eq, Hash)]
pub struct Graces {
    pub block: u64,
    pub inode: u64,
}

impl Graces {
    ghost use Rattle.qrules.specs.Range.{are_graces_in_range};

    /// Whether each grace is 1 to `MAX_GRACE`.
    pub fn are_in_range(&self) -> bool
        ensures { result ≡ are_graces_in_range self.now }
    {
        1 <= self.block && self.block <= MAX_GRACE && 1 <= self.inode && self.inode <= MAX_GRACE
    }
}

/// Whether a grace has ended. At its end it has.
pub(crate) fn has_ended(end: Option<u64>, moment: u64) -> bool
    ensures { result ≡ has_ended end moment }
{
    end.is_some_and(|end| moment >= end)
}

/// The grace end after a change that may begin a grace: the new one only where none stands.
pub(crate) fn next_end(is_over_soft: bool, end: Option<u64>, new: u64) -> Option<u64>
    ensures { result ≡ next_end is_over_soft end new }
{
    if is_over_soft {
        Some(end.unwrap_or(new))
    } else {
        None
    }
}

/// Makes a grace end the one after a change that may begin a grace. Nothing is written where none stands or begins.
#[inline(always)]
pub(crate) fn renew_end(end: &mut Option<u64>, is_over_soft: bool, new: u64)
    ensures { end.new ≡ next_end is_over_soft end.old new }
{
    if is_over_soft || end.is_some() {
        *end = next_end(is_over_soft, *end, new);
    }
}

/// The grace end after a change that begins none.
pub(crate) fn kept_end(is_over_soft: bool, end: Option<u64>) -> Option<u64>
    ensures { result ≡ kept_end is_over_soft end }
{
    if is_over_soft { end } else { None }
}
