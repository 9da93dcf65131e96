//! The kinds of principals.
ghost use Rattle.std.specs.Prelude.{◌≡◌};
ghost use Rattle.qrules.specs.Kinds.{is_same_kind, rank_of};

/// Whose use a quota record counts. Records are listed and tested in this order.
#[derive(Clone, Copy, Debug, PartialEq, Eq, PartialOrd, Ord, Hash)]
pub enum Kind {
    User,
    Group,
    Project,
}

impl Kind {
    fn rank(self) -> u32
        ensures { result ≡ rank_of self }
    {
        match self {
            Kind::User => 0,
            Kind::Group => 1,
            Kind::Project => 2,
        }
    }

    /// Whether the other kind is this one.
    pub fn is_same(self, other: Kind) -> bool
        ensures { result ≡ is_same_kind self other }
    {
        self.rank() == other.rank()
    }
}
