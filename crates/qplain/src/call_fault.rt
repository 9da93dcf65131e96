ghost use Rattle.std.specs.Prelude.{◌≡◌};
ghost use Rattle.qplain.specs.CallFaults.{call_fault_number};

/// Why a call of a script is not in the journal. It changed nothing.
#[derive(Clone, Copy, Debug, PartialEq, Eq)]
pub enum CallFault {
    /// The journal holds all the entries that it may. This is tested first.
    JournalFull,
    /// Memory was wanted and not there.
    OutOfMemory,
}

impl CallFault {
    /// The number under which it is known.
    pub fn number(self) -> u32
        ensures { result ≡ call_fault_number self }
    {
        match self {
            CallFault::JournalFull => 20,
            CallFault::OutOfMemory => 21,
        }
    }
}
