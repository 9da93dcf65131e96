//! Why boards are not said to be a journal's.
ghost use Rattle.std.specs.Prelude.{◌≡◌};
ghost use Rattle.qaudit_checks.specs.BoardFaults.{board_fault_number};
ghost use Rattle.qaudit_checks.specs.declared.board_fault.BoardFault.TheVariants.{Memory};

use qplain::NoMemory;

/// Why boards are not said to be a journal's.
#[derive(Clone, Copy, Debug, PartialEq, Eq)]
pub enum BoardFault {
    /// Out of memory, which says nothing of the boards.
    Memory,
    /// The board of this index, from 1, is not the journal's under its version, or that is below the version of the
    /// board before it: the first such board.
    Board(u64),
}

impl BoardFault {
    /// The number under which it is reported.
    pub fn number(self) -> u32
        ensures { result ≡ board_fault_number self }
    {
        match self {
            BoardFault::Memory => 46,
            BoardFault::Board(_) => 47,
        }
    }
}

impl From<NoMemory> for BoardFault {
    ghost from_gives = { λ _ fault. fault ≡ Memory };

    fn from(_refused: NoMemory) -> BoardFault {
        BoardFault::Memory
    }
}
