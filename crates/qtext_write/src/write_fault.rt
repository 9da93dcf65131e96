ghost use Rattle.std.specs.Prelude.{◌≡◌};

/// Why a text was not written whole.
#[derive(Clone, Copy, Debug, PartialEq, Eq)]
pub enum WriteFault {
    /// The writer refused. Some beginning of the text went out.
    Write,
}

impl WriteFault {
    /// The number under which it is reported.
    pub fn number(self) -> u32
        ensures { result ≡ 62 }
    {
        match self {
            WriteFault::Write => 62,
        }
    }
}
