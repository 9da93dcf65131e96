//! Who may call, and where a caller's records stand.
ghost use Rattle.std.specs.Prelude.{◌≡◌, is_some, IfSome};
ghost use Rattle.std.specs.List.{list_all};
ghost use Rattle.qplain.specs.Known.{is_known};
ghost use Rattle.qplain.specs.State.{State};
ghost use Rattle.qstore_accounts.specs.Books.{AreBooksOf, HasSlots};
ghost use Rattle.qstore_accounts.specs.Callers.{IsKnownAt, callers_own, has_id, is_known_in};

use crate::accounts::Accounts;
use crate::claim::Slots;
use qplain::Cred;

impl Accounts {
    /// Where the records of a caller's user and group stand, if these and all its further groups are declared.
    /// O(its groups) where it called before, and nobody since whose user id leaves the same remainder by 64; else each
    /// is looked for by O(log n), as many as are declared. Nothing that is seen of the accounts changes.
    #[inline(always)]
    pub fn callers(&mut self, cred: &Cred) -> Option<Slots>
        ensures same { self.new ≡ self.old }
        ensures known { (S : State) → AreBooksOf S self.old → is_some result ≡ is_known S cred.now }
        ensures slots { IfSome result (λ slots. HasSlots self.old slots (callers_own cred.now)) }
    {
        match self.known.find(cred) {
            Some(slots) => Some(slots),
            None => self.learn(cred),
        }
    }

    /// Looks a caller up, and keeps it where it is known.
    #[inline(never)]
    fn learn(&mut self, cred: &Cred) -> Option<Slots>
        ensures same { self.new ≡ self.old }
        ensures known { is_some result ≡ is_known_in self.old cred.now }
        ensures slots { IfSome result (λ slots. HasSlots self.old slots (callers_own cred.now)) }
    {
        let slots = self.look_up(cred)?;
        self.known.keep(cred, slots);
        Some(slots)
    }

    /// Where the caller's records stand, if the caller is known.
    fn look_up(&self, cred: &Cred) -> Option<Slots>
        ensures known { is_some result ≡ is_known_in self.now cred.now }
        ensures slots { IfSome result (λ slots. HasSlots self.now slots (callers_own cred.now)) }
    {
        let user = self.users.slot(cred.uid())?;
        let group = self.groups.slot(cred.gid())?;
        if !self.are_groups(cred.more()) {
            return None;
        }
        Some(Slots {
            user,
            group,
            project: None,
        })
    }

    /// Whether all these groups are declared.
    fn are_groups(&self, ids: &[u32]) -> bool
        ensures { result ≡ list_all (has_id self.now.groups) ids.now }
    {
        ids.iter().all(|id| self.groups.slot(*id).is_some())
    }
}
