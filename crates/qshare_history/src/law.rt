//! The rule of the one history, and its step. All of this exists in the proofs alone.
use logbook::{Gain, Plain, Play, Rule};
use qplain::Entry;

/// The rule of the history: the word is its length.
pub(crate) struct Law;

impl Rule<Entry, u64> for Law {
    ghost use Rattle.std.specs.Prelude.{[]};
    ghost use base.Fml.{ftrue};
    ghost use Rattle.qshare_history.specs.Laws.{IsLengthKept};

    ghost holds = { λ cells log. IsLengthKept cells log };

    ghost first = { [] };

    ghost hinted = { λ n log. Unit {0} };

    ghost shows = { λ log. [] };

    ghost keeps = { λ names log. ftrue };

    ghost moves = { λ ask before after answer. Unit {0} };
}

/// Callers trade nothing.
pub(crate) struct Nothing;

impl Gain<Entry, u64> for Nothing {
    ghost use base.Fml.{ftrue};

    ghost after = { λ names about answer. ftrue };
}

/// A step that adds an entry.
pub(crate) struct Add;

impl Play<Entry, u64> for Add {
    ghost use Rattle.qshare_history.specs.Laws.{AddsEntry};

    ghost then = { AddsEntry };
}

/// What a step asks for: the entry.
impl Plain<Entry, Entry, u64> for Add {
    ghost use Rattle.std.specs.Prelude.{None};

    ghost ask = { λ entry. entry };

    ghost state = { λ entry. None };
}
