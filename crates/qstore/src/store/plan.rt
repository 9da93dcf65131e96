//! What a decision leaves to do.
ghost use Rattle.std.specs.Prelude.{◌≡◌};
ghost use Rattle.qstore.specs.Told.{total_change};

use crate::{Exchange, Plan, Refusal, Reply, Store};
use qstore_accounts::change_of;
use qstore_change::TreeChange;

impl Store {
    /// Nothing is left to do.
    #[inline(always)]
    pub(super) fn clear_plan(&mut self)
        ensures { self.new ≡ record self.old { plan = Plan.Nothing } }
    {
        self.plan = Plan::Nothing;
    }

    /// The call is refused, and nothing is left to do.
    #[inline(always)]
    pub(super) fn refused(&mut self, refusal: Refusal) -> Reply
        ensures plan { self.new ≡ record self.old { plan = Plan.Nothing } }
        ensures reply { result ≡ Reply.Refused refusal }
    {
        self.clear_plan();
        Reply::Refused(refusal)
    }

    /// The call is granted, and this change is left to do.
    #[inline(always)]
    pub(super) fn granted(&mut self, number: u64, exchange: &Exchange, change: TreeChange) -> Reply
        ensures plan { self.new ≡ record self.old { plan = Plan.Change change } }
        ensures reply { result ≡ Reply.Done number (total_change exchange.now) }
    {
        self.plan = Plan::Change { change };
        Reply::Done(number, change_of(exchange.from, exchange.to))
    }
}
