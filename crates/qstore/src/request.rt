//! Who asks a store and when, and what the change that is asked for comes to.
ghost use Rattle.std.specs.Prelude.{◌≤◌};
ghost use Rattle.qrules.specs.declared.graces.TheConstants.{MAX_MOMENT};

use crate::Cred;
use qstore_accounts::{Claim, Slots};

/// A caller, where its records stand, and the moment of its call.
#[derive(Clone, Copy)]
pub(crate) struct Request<'a> {
    pub(crate) cred: &'a Cred,
    pub(crate) callers: Slots,
    pub(crate) moment: u64,
    ghost in_range: { moment ≤ MAX_MOMENT },
}

/// What an inode takes of its owners' records, before a change and after it, where it stands.
#[derive(Clone, Copy)]
pub(crate) struct Exchange {
    pub(crate) from: Option<Claim>,
    pub(crate) to: Option<Claim>,
}
