//! The name that was told last.
ghost use Rattle.std.specs.Prelude.{◌≡◌};
ghost use Rattle.std.specs.Ordering.{is_lt};
ghost use Rattle.qplain.specs.State.{name_key_cmp};

/// The name that was told last, and the directory in which it stands.
#[derive(Debug, Drop)]
pub(crate) struct LastName {
    pub dir: u64,
    pub text: Vec<u8>,
}

impl LastName {
    /// It stands before this name in this directory.
    pub(crate) fn stands_before(&self, dir: u64, name: &[u8]) -> bool
        ensures { result ≡ is_lt (name_key_cmp (self.now.dir, self.now.text.items) (dir, name.now)) }
    {
        self.dir < dir || (self.dir == dir && self.text.as_slice().cmp(name).is_lt())
    }
}
