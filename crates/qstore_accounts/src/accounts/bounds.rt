//! The bounds and the graces of the accounts.
ghost use Rattle.std.specs.Prelude.{◌≡◌};

use crate::accounts::Accounts;
use qrules::Graces;

impl Accounts {
    /// How many blocks may be allocated. O(1).
    pub fn size(&self) -> u64
        ensures { result ≡ self.now.size }
    {
        self.size
    }

    /// How many inodes there may be, the root among them. O(1).
    pub fn most_inodes(&self) -> u64
        ensures { result ≡ self.now.most_inodes }
    {
        self.most_inodes
    }

    /// The graces, in seconds. O(1).
    pub fn graces(&self) -> Graces
        ensures { result ≡ self.now.graces }
    {
        self.graces
    }
}
