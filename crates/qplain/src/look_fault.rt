ghost use Rattle.std.specs.Prelude.{◌≡◌};
ghost use Rattle.qplain.specs.LookFaults.{look_fault_number};

/// Why a seat was shown no board, or no record of one. Nothing of it changed but what it has seen.
#[derive(Clone, Copy, Debug, PartialEq, Eq)]
pub enum LookFault {
    /// No published board was handed out. This is tested first.
    NoBoard,
    /// There is no record of this principal.
    ESRCH,
    /// Memory was wanted and not there.
    OutOfMemory,
}

impl LookFault {
    /// The number under which it is known.
    pub fn number(self) -> u32
        ensures { result ≡ look_fault_number self }
    {
        match self {
            LookFault::NoBoard => 22,
            LookFault::ESRCH => 23,
            LookFault::OutOfMemory => 24,
        }
    }
}
