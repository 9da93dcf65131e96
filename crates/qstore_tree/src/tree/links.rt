//! The link counts that a tree keeps.
ghost use Rattle.std.specs.Prelude.{◌≡◌, ℕ, ◌+◌, ◌-◌, ◌<◌, ◌^◌, Some};
ghost use Rattle.std.specs.Ordering.{nat_cmp};
ghost use Rattle.std.specs.BTreeMap.{is_at};
ghost use Rattle.std.specs.Map.{lookup, set_value};

use crate::tree::Tree;

impl Tree {
    /// Keeps this link count for the inode, if it is there.
    pub fn set_links(&mut self, number: u64, links: u64)
        ensures inodes { self.new.inodes ≡ self.old.inodes }
        ensures names { self.new.names ≡ self.old.names }
        ensures links { self.new.links ≡ set_value (is_at (nat_cmp number)) self.old.links links }
        ensures room { self.new.room ≡ self.old.room }
    {
        match self.nodes.get_mut(&number) {
            Some(node) => node.links = links,
            None => {}
        }
    }

    /// Counts one link more of an inode, in one look-up.
    pub fn add_link(&mut self, number: u64)
        requires { (links : ℕ) × (lookup (is_at (nat_cmp number)) self.old.links ≡ Some links)
            × links + 1 < 2 ^ 64 }
        ensures inodes { self.new.inodes ≡ self.old.inodes }
        ensures names { self.new.names ≡ self.old.names }
        ensures links { (links : ℕ) → lookup (is_at (nat_cmp number)) self.old.links ≡ Some links
            → self.new.links ≡ set_value (is_at (nat_cmp number)) self.old.links (links + 1) }
        ensures room { self.new.room ≡ self.old.room }
    {
        match self.nodes.get_mut(&number) {
            Some(node) => node.links += 1,
            None => unreachable!(),
        }
    }

    /// Counts one link less of an inode, in one look-up, and gives how many are left. With none left the
    /// inode stays until `take_node`.
    pub fn take_link(&mut self, number: u64) -> u64
        requires { (links : ℕ) × (lookup (is_at (nat_cmp number)) self.old.links ≡ Some links) × 0 < links }
        ensures inodes { self.new.inodes ≡ self.old.inodes }
        ensures names { self.new.names ≡ self.old.names }
        ensures links { (links : ℕ) → lookup (is_at (nat_cmp number)) self.old.links ≡ Some links
            → self.new.links ≡ set_value (is_at (nat_cmp number)) self.old.links (links - 1) }
        ensures left { (links : ℕ) → lookup (is_at (nat_cmp number)) self.old.links ≡ Some links
            → result ≡ links - 1 }
        ensures room { self.new.room ≡ self.old.room }
    {
        match self.nodes.get_mut(&number) {
            Some(node) => {
                node.links -= 1;
                node.links
            }
            None => unreachable!(),
        }
    }
}
