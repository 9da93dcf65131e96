//! What lines came to that did nothing, as a service counts them.
ghost use Rattle.std.specs.Prelude.{◌≡◌, ◌<◌, Some, slice_get};
ghost use Rattle.qrules.specs.Kinds.{rank_of};
ghost use Rattle.qtext_metrics.specs.Mishaps.{failures, faults, limit_rank, mishaps, place_of, refusal_place, refusals};

use qplain::{CallFault, Refusal};
use qrules::{Kind, Over};

/// What is wrong with a line that is none of a script, or none of its client's.
#[derive(Clone, Copy, Debug, PartialEq, Eq)]
pub enum LineFault {
    /// It does not say what a script's line says.
    Text,
    /// It is longer than the bound.
    Length,
    /// It is of another caller than the client is bound to.
    OtherCaller,
    /// A path of it has more components than the client may ask for.
    Depth,
    /// The client has used up what it may take of the service.
    Share,
}

/// What a line came to that did nothing.
#[derive(Clone, Copy, Debug, PartialEq, Eq)]
pub enum Mishap {
    /// A call that was refused.
    Refused(Refusal),
    /// A line that has failed: it is in no journal.
    Failed(CallFault),
    /// What is no line, or none that its client may write.
    Faulty(LineFault),
}

/// How many mishaps there are, each with a count of its own.
pub const MISHAPS: usize = 33;

/// All refusals, those for a quota last.
pub(crate) fn refusals() -> [Mishap; 26]
    ensures { result ≡ refusals }
{
    [
        Mishap::Refused(Refusal::EINVAL),
        Mishap::Refused(Refusal::ENAMETOOLONG),
        Mishap::Refused(Refusal::ENOENT),
        Mishap::Refused(Refusal::ENOTDIR),
        Mishap::Refused(Refusal::EEXIST),
        Mishap::Refused(Refusal::ENOSPC),
        Mishap::Refused(Refusal::EISDIR),
        Mishap::Refused(Refusal::EACCES),
        Mishap::Refused(Refusal::EFBIG),
        Mishap::Refused(Refusal::EPERM),
        Mishap::Refused(Refusal::EMLINK),
        Mishap::Refused(Refusal::ENOTEMPTY),
        Mishap::Refused(Refusal::EBUSY),
        Mishap::Refused(Refusal::ESRCH),
        Mishap::Refused(Refusal::EDQUOT(Kind::User, Over::InodeHard)),
        Mishap::Refused(Refusal::EDQUOT(Kind::User, Over::InodeSoft)),
        Mishap::Refused(Refusal::EDQUOT(Kind::User, Over::BlockHard)),
        Mishap::Refused(Refusal::EDQUOT(Kind::User, Over::BlockSoft)),
        Mishap::Refused(Refusal::EDQUOT(Kind::Group, Over::InodeHard)),
        Mishap::Refused(Refusal::EDQUOT(Kind::Group, Over::InodeSoft)),
        Mishap::Refused(Refusal::EDQUOT(Kind::Group, Over::BlockHard)),
        Mishap::Refused(Refusal::EDQUOT(Kind::Group, Over::BlockSoft)),
        Mishap::Refused(Refusal::EDQUOT(Kind::Project, Over::InodeHard)),
        Mishap::Refused(Refusal::EDQUOT(Kind::Project, Over::InodeSoft)),
        Mishap::Refused(Refusal::EDQUOT(Kind::Project, Over::BlockHard)),
        Mishap::Refused(Refusal::EDQUOT(Kind::Project, Over::BlockSoft)),
    ]
}

/// All that a line may fail for.
pub(crate) fn failures() -> [Mishap; 2]
    ensures { result ≡ failures }
{
    [
        Mishap::Failed(CallFault::JournalFull),
        Mishap::Failed(CallFault::OutOfMemory),
    ]
}

/// All that may be wrong with a line.
pub(crate) fn faults() -> [Mishap; 5]
    ensures { result ≡ faults }
{
    [
        Mishap::Faulty(LineFault::Text),
        Mishap::Faulty(LineFault::Length),
        Mishap::Faulty(LineFault::OtherCaller),
        Mishap::Faulty(LineFault::Depth),
        Mishap::Faulty(LineFault::Share),
    ]
}

fn kind_rank(kind: Kind) -> usize
    ensures { result ≡ rank_of kind }
{
    match kind {
        Kind::User => 0,
        Kind::Group => 1,
        Kind::Project => 2,
    }
}

fn limit_rank(over: Over) -> usize
    ensures { result ≡ limit_rank over }
{
    match over {
        Over::InodeHard => 0,
        Over::InodeSoft => 1,
        Over::BlockHard => 2,
        Over::BlockSoft => 3,
    }
}

/// Where a refusal stands among all mishaps.
fn refusal_place(refusal: Refusal) -> usize
    ensures { result ≡ refusal_place refusal }
{
    match refusal {
        Refusal::EINVAL => 0,
        Refusal::ENAMETOOLONG => 1,
        Refusal::ENOENT => 2,
        Refusal::ENOTDIR => 3,
        Refusal::EEXIST => 4,
        Refusal::ENOSPC => 5,
        Refusal::EISDIR => 6,
        Refusal::EACCES => 7,
        Refusal::EFBIG => 8,
        Refusal::EPERM => 9,
        Refusal::EMLINK => 10,
        Refusal::ENOTEMPTY => 11,
        Refusal::EBUSY => 12,
        Refusal::ESRCH => 13,
        Refusal::EDQUOT(kind, over) => 14 + 4 * kind_rank(kind) + limit_rank(over),
    }
}

impl Mishap {
    /// Where its count stands among those of all: a place of its own.
    pub fn place(self) -> usize
        ensures place { result ≡ place_of self }
        ensures own { slice_get mishaps result ≡ Some self }
        ensures few { result < MISHAPS }
    {
        match self {
            Mishap::Refused(refusal) => refusal_place(refusal),
            Mishap::Failed(CallFault::JournalFull) => 26,
            Mishap::Failed(CallFault::OutOfMemory) => 27,
            Mishap::Faulty(LineFault::Text) => 28,
            Mishap::Faulty(LineFault::Length) => 29,
            Mishap::Faulty(LineFault::OtherCaller) => 30,
            Mishap::Faulty(LineFault::Depth) => 31,
            Mishap::Faulty(LineFault::Share) => 32,
        }
    }
}
