//! What a write brings: bytes, or N equal ones.
ghost use Rattle.std.specs.Prelude.{◌≡◌, ◌+◌, ◌≤◌, ◌==◌, length, take, drop};
ghost use Rattle.qblocks.specs.Input.{input_bytes};

/// The bytes of a write.
#[derive(Clone, Copy)]
pub enum Input<'a> {
    /// These bytes.
    Bytes(&'a [u8]),
    /// N equal bytes, which take no memory until a block holds them.
    Fill { count: u64, byte: u8 },
}

impl<'a> Input<'a> {
    /// How many bytes there are. O(1).
    pub fn len(self) -> u64
        ensures { result ≡ length (input_bytes self.entry) }
    {
        match self {
            Input::Bytes(bytes) => bytes.len() as u64,
            Input::Fill { count, .. } => count,
        }
    }

    /// Whether there are none. O(1).
    pub fn is_empty(self) -> bool
        ensures { result ≡ (length (input_bytes self.entry) == 0) }
    {
        self.len() == 0
    }

    /// The `len` bytes from `from` on, of which none is copied. O(1).
    pub fn part(self, from: u64, len: u64) -> Input<'a>
        requires { from + len ≤ length (input_bytes self) }
        ensures { input_bytes result ≡ take len (drop from (input_bytes self.entry)) }
    {
        match self {
            Input::Bytes(bytes) => Input::Bytes(&bytes[from as usize..(from + len) as usize]),
            Input::Fill { byte, .. } => Input::Fill { count: len, byte },
        }
    }
}
