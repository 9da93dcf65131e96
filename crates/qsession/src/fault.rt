//! Why a call was not made.
ghost use Rattle.std.specs.Prelude.{◌≡◌};
ghost use Rattle.qsession.specs.Faults.{fault_code};

/// Why a call was not made. It changed nothing.
#[derive(Clone, Copy, Debug, PartialEq, Eq)]
pub enum Fault {
    /// The session is closed.
    Closed,
    /// Memory was wanted and not there.
    Memory,
    /// A path has no byte, or one outside 0x21 to 0x7E.
    Path,
    /// The caller names more than 16 further groups.
    Caller,
    /// The session is open already.
    Open,
    /// The buffer has too little room.
    Room,
    /// The text is no line of a script.
    Line,
    /// The journal has its 1,048,576 entries.
    JournalFull,
    /// A number is none of a kind.
    Kind,
    /// The session keeps no journal.
    NoJournal,
}

impl Fault {
    /// The number under which a caller of another language is told it, from 64 on.
    pub fn code(self) -> u32
        ensures { result ≡ fault_code self }
    {
        match self {
            Fault::Closed => 64,
            Fault::Memory => 65,
            Fault::Path => 66,
            Fault::Caller => 67,
            Fault::Open => 68,
            Fault::Room => 69,
            Fault::Line => 70,
            Fault::JournalFull => 71,
            Fault::Kind => 72,
            Fault::NoJournal => 73,
        }
    }
}
