/// The limit for which a charge is refused, named in the order in which they are tested.
///
/// A hard limit refuses every charge that would stand over it, a soft limit only once its grace has ended
/// (quotactl(2)).
#[derive(Clone, Copy, Debug, PartialEq, Eq, Hash)]
pub enum Over {
    InodeHard,
    InodeSoft,
    BlockHard,
    BlockSoft,
}
