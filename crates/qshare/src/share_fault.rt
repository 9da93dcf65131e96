//! Why no shared store was made.
ghost use Rattle.std.specs.Prelude.{◌≡◌};
ghost use Rattle.qshare.specs.ShareFaults.{share_fault_number};

/// Why no shared store was made. Nothing was made.
#[derive(Clone, Copy, Debug, PartialEq, Eq)]
pub enum ShareFault {
    /// There are 1 to 16 seats.
    Seats,
    /// Memory was wanted and not there.
    OutOfMemory,
    /// No reader of the boards was given to a seat.
    NoReader,
}

impl ShareFault {
    /// The number under which it is known.
    pub fn number(self) -> u32
        ensures { result ≡ share_fault_number self }
    {
        match self {
            ShareFault::Seats => 26,
            ShareFault::OutOfMemory => 27,
            ShareFault::NoReader => 28,
        }
    }
}
