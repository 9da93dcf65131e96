//! The rule under which boards are published. It exists in the proofs alone.
use crate::sheet::Sheet;
use atomic_table::{Join, Split};
use crossbeam_utils::rule::{Outcome, Protocol};
use qplain::Entry;
use qshare_history::StoreId;
use std::collections::LinkedList;
use std::marker::PhantomData;

/// The history that a reader has seen. No value of it is made.
pub struct SeenHistory {
    pub seen: LinkedList<Entry>,
}

/// The rule: the board is that of its history, which is legal, and begins with all that each reader has seen.
pub struct Publishing<S> {
    store: PhantomData<S>,
}

impl<S: StoreId> Protocol<Sheet, SeenHistory> for Publishing<S> {
    ghost use Rattle.qshare_boards.specs.Sheets.{board_in};
    ghost use Rattle.qshare_boards.specs.Views.{Kept, newcomer};

    ghost holds = { λ s. Kept S.id.history S.id.begun s.prefix (board_in s) };

    ghost first = { newcomer };
}

/// The history of what is published is then seen.
pub struct Sees<S> {
    store: PhantomData<S>,
}

impl<S: StoreId> Outcome<Sheet, SeenHistory> for Sees<S> {
    ghost use Rattle.qshare_boards.specs.Sheets.{board_in};
    ghost use Rattle.qshare_boards.specs.Views.{IsThenSeen};

    ghost then = { λ v x y w. IsThenSeen S.id.history S.id.begun v y.prefix (board_in y) w };
}

/// What the writing side tells a reader that has just sat down.
pub struct Notes;

impl Split<SeenHistory> for Notes {
    ghost left = { λ v. v };

    ghost right = { λ v. v };
}

impl Join<SeenHistory> for Notes {
    ghost use Rattle.qshare_boards.specs.Views.{newcomer};

    ghost both = { λ v w. w };

    ghost spent = { newcomer };
}
