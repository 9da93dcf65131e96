ghost use Rattle.std.specs.Prelude.{◌≡◌, length, replicate, nat_eq, IfOk, ◌==◌, ◌&&◌};
ghost use Rattle.std.specs.List.{list_all};
ghost use Rattle.std.proofs.Common.{rules};
ghost use Rattle.std.specs.Cmp.Lexicographic.{pointwise};
ghost use Rattle.std.specs.Cmp.Rules.{comparing};
ghost use Rattle.qblocks.specs.Input.{input_bytes};

use crate::{Input, NoMemory, SharedItems};
use std::marker::Model;

/// How the bytes are kept.
#[derive(Debug, Drop)]
enum Kept {
    Bytes(SharedItems<u8>),
    Fill { count: u64, byte: u8 },
}

/// The bytes that a write brings, which contracts see as a list: shared ones, or N equal ones.
#[derive(Debug, Drop)]
pub struct Data {
    kept: Kept,
}

impl Model for Data {
    ghost use Rattle.std.specs.Prelude.{List, ℕ};
    ghost use Rattle.qblocks.specs.KeptData.{bytes_in};

    ghost Value = { List ℕ };

    ghost view = { λ d. bytes_in d.kept };
}

impl Data {
    /// These bytes. They are not copied.
    pub fn new(bytes: SharedItems<u8>) -> Self
        ensures { result ≡ bytes }
    {
        Data {
            kept: Kept::Bytes(bytes),
        }
    }

    /// N equal bytes. It takes no memory, however many there are.
    pub fn fill(count: u64, byte: u8) -> Self
        ensures { result ≡ replicate count byte }
    {
        Data {
            kept: Kept::Fill { count, byte },
        }
    }

    /// How many bytes there are. O(1).
    pub fn len(&self) -> u64
        ensures { result ≡ length self.now }
    {
        match &self.kept {
            Kept::Bytes(bytes) => bytes.as_slice().len() as u64,
            Kept::Fill { count, .. } => *count,
        }
    }

    /// Whether there are none. O(1).
    pub fn is_empty(&self) -> bool
        ensures { result ≡ (length self.now == 0) }
    {
        self.len() == 0
    }

    /// The bytes as a file takes them. None is copied. O(1).
    pub fn input(&self) -> Input<'_>
        ensures { input_bytes result ≡ self.now }
    {
        match &self.kept {
            Kept::Bytes(bytes) => Input::Bytes(bytes.as_slice()),
            Kept::Fill { count, byte } => Input::Fill {
                count: *count,
                byte: *byte,
            },
        }
    }

    /// The same bytes once more. None is copied, and no memory is taken: an Err says that they have 2^63 owners.
    pub fn copy(&self) -> Result<Self, NoMemory>
        ensures { IfOk result (λ copy. copy ≡ self.now) }
    {
        match &self.kept {
            Kept::Bytes(bytes) => Ok(Data::new(bytes.copy()?)),
            Kept::Fill { count, byte } => Ok(Data::fill(*count, *byte)),
        }
    }
}

/// Whether these are N bytes, and each is this one.
fn is_fill(bytes: &[u8], count: u64, byte: u8) -> bool
    ensures { result ≡ (length bytes.now == count && list_all (λ other. other == byte) bytes.now) }
{
    bytes.len() as u64 == count && bytes.iter().all(|other| *other == byte)
}

impl PartialEq for Data {
    ghost eq = { pointwise nat_eq };

    ghost laws = { Prim.search (comparing, rules) };

    fn eq(&self, other: &Data) -> bool {
        match (&self.kept, &other.kept) {
            (Kept::Bytes(one), Kept::Bytes(another)) => one == another,
            (Kept::Fill { count, byte }, Kept::Bytes(bytes)) => is_fill(
                bytes.as_slice(),
                *count,
                *byte,
            ),
            (Kept::Bytes(bytes), Kept::Fill { count, byte }) => is_fill(
                bytes.as_slice(),
                *count,
                *byte,
            ),
            (
                Kept::Fill { count, byte },
                Kept::Fill {
                    count: many,
                    byte: other,
                },
            ) => { count == many && (*count == 0 || byte == other) }
        }
    }
}

impl Eq for Data {
    ghost laws = { Prim.search (comparing, rules) };
}
