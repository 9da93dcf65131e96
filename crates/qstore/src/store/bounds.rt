//! The bounds of a store, its graces and the number that it gives next, as an image tells them.
ghost use Rattle.std.specs.Prelude.{◌≡◌};

use crate::Store;
use qrules::Graces;

impl Store {
    /// How many blocks of 4096 bytes may be allocated. O(1).
    pub fn size(&self) -> u64
        ensures { result ≡ self.now.state.size }
    {
        self.accounts.size()
    }

    /// How many inodes there may be, the root among them. O(1).
    pub fn most_inodes(&self) -> u64
        ensures { result ≡ self.now.state.most_inodes }
    {
        self.accounts.most_inodes()
    }

    /// The graces, in seconds. O(1).
    pub fn graces(&self) -> Graces
        ensures { result ≡ self.now.state.graces }
    {
        self.accounts.graces()
    }

    /// The number that the next new inode gets. It is above all that were given. O(1).
    pub fn next_number(&self) -> u64
        ensures { result ≡ self.now.state.next }
    {
        self.next
    }
}
