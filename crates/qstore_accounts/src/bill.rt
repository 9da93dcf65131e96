//! What a granted call makes of the accounts.
ghost use Rattle.std.specs.Prelude.{◌≡◌, None};
ghost use Rattle.qstore_accounts.specs.Bills.{no_bill};

use crate::record_change::RecordChange;

/// How a record changes, and where it stands.
#[derive(Clone, Copy)]
pub struct Posting {
    pub(crate) slot: usize,
    pub(crate) id: u32,
    pub(crate) change: RecordChange,
}

/// Leaves no posting. It writes nothing where there is none.
#[inline(always)]
pub(crate) fn clear(posting: &mut Option<Posting>)
    ensures { posting.new ≡ None }
{
    if posting.is_some() {
        *posting = None;
    }
}

/// What becomes of the records of one kind: that of the owner who gives an inode up, if it is another's, and that of
/// the one who has it then.
#[derive(Clone, Copy)]
pub struct Postings {
    pub(crate) from: Option<Posting>,
    pub(crate) to: Option<Posting>,
}

/// How a granted call changes the records, at its moment, and the totals as it will leave them. It is for `settle` of
/// the accounts that granted it, before any other change of them.
#[derive(Clone, Copy)]
pub struct Bill {
    pub(crate) users: Postings,
    pub(crate) groups: Postings,
    pub(crate) projects: Postings,
    pub(crate) blocks: u64,
    pub(crate) inodes: u64,
    pub(crate) moment: u64,
}

impl Bill {
    /// A bill of nothing, where one is to be put that is granted.
    pub fn empty() -> Bill
        ensures { result ≡ no_bill }
    {
        Bill {
            users: Postings::none(),
            groups: Postings::none(),
            projects: Postings::none(),
            blocks: 0,
            inodes: 0,
            moment: 0,
        }
    }
}

impl Postings {
    /// No record changes.
    pub(crate) fn none() -> Postings
        ensures { result ≡ record { from = None; to = None } }
    {
        Postings {
            from: None,
            to: None,
        }
    }

    /// Leaves no record to change.
    #[inline(always)]
    pub(crate) fn clear(&mut self)
        ensures { self.new ≡ record { from = None; to = None } }
    {
        clear(&mut self.from);
        clear(&mut self.to);
    }
}
