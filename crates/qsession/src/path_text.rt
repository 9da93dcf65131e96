//! Paths where the caller has them.
ghost use Rattle.std.specs.Prelude.{◌≡◌, ◌↔◌, Err, IfOk, IfErr};
ghost use Rattle.qplain.specs.Paths.{ArePathBytes};

use crate::asking::path_of;
use crate::fault::Fault;
use qplain::{Path, are_path_bytes};
use std::alloc::Global;

/// The text of a path where the caller has it: one byte or more, each of which may stand in a path.
#[derive(Clone, Copy)]
pub struct PathText<'a> {
    pub text: &'a str,
    pub ghost good: { ArePathBytes text.now },
}

impl<'a> PathText<'a> {
    /// The path of these bytes, of which none is copied. Err is Path where they are none. O(bytes).
    pub fn new(bytes: &'a [u8]) -> Result<PathText<'a>, Fault>
        ensures path { IfOk result (λ path. path.text.now ≡ bytes.now) }
        ensures form { (result ≡ Err Fault.Path) ↔ (ArePathBytes bytes.now → ⊥) }
        ensures fault { IfErr result (λ fault. fault ≡ Fault.Path) }
    {
        if bytes.is_empty() || !are_path_bytes(bytes) {
            return Err(Fault::Path);
        }
        let text = unsafe { str::from_utf8_unchecked(bytes) };
        Ok(PathText { text })
    }

    /// A path of its own. Err is Memory.
    pub(crate) fn owned(self, alloc: Global) -> Result<Path, Fault>
        ensures path { IfOk result (λ path. path ≡ self.entry.text.now) }
        ensures fault { IfErr result (λ fault. fault ≡ Fault.Memory) }
    {
        path_of(alloc, self.text.as_bytes())
    }
}
