//! What is decided, done, and told as it changes a board. It takes no memory and always succeeds.
ghost use Rattle.std.specs.Prelude.{◌≡◌, ◌≤◌, ◌+◌, false, vec_len, vec_capacity};
ghost use Rattle.qplain.specs.Journal.{board_of};
ghost use Rattle.qplain.specs.declared.placed_row.TheConstants.{MAX_CHANGED_ROWS};
ghost use Rattle.qstore.specs.Ready.{IsReady, committed};
ghost use Rattle.qstore_accounts.specs.Pushed.{IsPushed};

use crate::{Plan, Store};
use qplain::PlacedRow;
use qstore_change::make;

impl Store {
    /// Does what is ready. It is out of line, so that a call that only answers moves no plan.
    #[inline(never)]
    pub(super) fn carry_out(&mut self)
        requires { IsReady self.old }
        ensures { self.new.state ≡ committed self.old }
    {
        match &mut self.plan {
            Plan::Nothing => {}
            Plan::Change { change } => {
                self.next = make(&mut self.tree, self.next, self.alloc, change);
                self.accounts.settle(&self.bill);
            }
            Plan::Limits => self.accounts.settle(&self.bill),
            Plan::SetGraces { graces } => self.accounts.set_graces(*graces),
        }
    }

    /// Whether `commit` may change a row of a board. O(1).
    pub fn may_change_rows(&self) -> bool
        ensures { result ≡ false → (board_of (committed self.now) 0).rows ≡ (board_of self.now.state 0).rows }
    {
        match &self.plan {
            Plan::Change { .. } | Plan::Limits => true,
            Plan::Nothing | Plan::SetGraces { .. } => false,
        }
    }

    /// Puts the rows that `commit` will change on a board after others, of which there is room for `MAX_CHANGED_ROWS`.
    /// O(1). The caller owes that this store had no other call since `ready`, but a stat.
    #[inline(never)]
    pub fn push_changed_rows(&self, rows: &mut Vec<PlacedRow>)
        requires ready { IsReady self.now }
        requires room { vec_len rows.old + MAX_CHANGED_ROWS ≤ vec_capacity rows.old }
        ensures { IsPushed self.now.state rows.old.items rows.new.items (committed self.now) }
    {
        match &self.plan {
            Plan::Change { .. } | Plan::Limits => self.accounts.push_changed_rows(&self.bill, rows),
            Plan::Nothing | Plan::SetGraces { .. } => {}
        }
    }
}
