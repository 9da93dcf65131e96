//! What is read from text.
ghost use Rattle.std.specs.Prelude.{◌≡◌, ◌⊎◌, ℕ, List, Result, Err};
ghost use Rattle.qtext.specs.declared.text_fault.TextFault.{TextFault};
ghost use Rattle.qtext.specs.TextFaults.{want_of_memory};

use qtext::TextFault;
use std::alloc::Global;

/// A value that is read from text.
pub trait FromText: Sized {
    /// What a text says, or the first line at fault.
    ghost says: { List ℕ → Result Self TextFault };

    /// What the text says, or the first line at fault with the first thing wrong in it. Line 0 is at fault where memory
    /// is wanting, whatever the text says.
    fn read(alloc: Global, text: &[u8]) -> Result<Self, TextFault>
        ensures exact { (result ≡ says text.now) ⊎ (result ≡ Err want_of_memory) };
}
