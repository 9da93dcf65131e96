//! A store that goes along a journal, with whose boards others are compared.
ghost use Rattle.std.specs.Prelude.{◌≡◌, [], ◌≤◌, List, take, length, IfOk, OnOk};
ghost use Rattle.std.specs.Bool.{Decides};
ghost use Rattle.qplain.specs.declared.board.Board.{Board};
ghost use Rattle.qplain.specs.declared.entry.Entry.{Entry};
ghost use Rattle.qplain.specs.State.{State};
ghost use Rattle.qplain.specs.Journal.{board_of, play};
ghost use Rattle.qaudit_checks.specs.SeenBoards.{AreSeenBoards, IsJudged};

use qplain::{Board, Entry, NoMemory};
use qrules::BoardRow;
use qstore::Store;

/// Plays the entries on a store, whatever it answers.
fn play_on(store: &mut Store, entries: &[Entry]) -> Result<(), NoMemory>
    ensures { OnOk result (store.new.state ≡ play store.old.state entries.now) }
{
    for entry in entries {
        store.apply(&entry.cred, entry.moment, &entry.call)?;
    }
    Ok(())
}

/// Whether the two are the same rows.
fn are_same(one: &[BoardRow], other: &[BoardRow]) -> bool
    ensures { Decides result (one.now ≡ other.now) }
{
    one == other
}

/// Whether the board is the store's, under whatever version.
fn is_shown(store: &Store, board: &Board) -> Result<bool, NoMemory>
    ensures { IfOk result (λ shown. Decides shown (board.now ≡ board_of store.now.state board.now.version)) }
{
    if board.blocks != store.blocks() || board.inodes != store.inodes() {
        return Ok(false);
    }
    let rows = store.board_rows()?;
    Ok(are_same(board.rows.as_slice(), &rows))
}

/// A store that stands where the first entries of a journal leave it, as many as `version`.
#[derive(Drop)]
pub(crate) struct Checker {
    store: Store,
    version: u64,
}

impl Checker {
    /// A store that has seen no board.
    pub(crate) fn over(store: Store) -> Checker
        ensures { (journal : List Entry) → AreSeenBoards store.state journal [] result }
    {
        Checker { store, version: 0 }
    }

    /// Whether it can go on to where the first `version` entries lead.
    fn can_go_on(&self, entries: &[Entry], version: u64) -> bool
        ensures { Decides result ((self.now.version ≤ version) × (version ≤ length entries.now)) }
    {
        self.version <= version && version <= entries.len() as u64
    }

    /// Goes on to where the first `version` entries lead.
    fn go_on(&mut self, entries: &[Entry], version: u64) -> Result<(), NoMemory>
        requires on { self.old.version ≤ version }
        requires within { version ≤ length entries.now }
        ensures version { OnOk result (self.new.version ≡ version) }
        ensures state { OnOk result ((S : State) → self.old.store.state ≡ play S (take self.old.version entries.now)
            → self.new.store.state ≡ play S (take version entries.now)) }
    {
        play_on(
            &mut self.store,
            &entries[self.version as usize..version as usize],
        )?;
        self.version = version;
        Ok(())
    }

    /// Whether the next board may follow those that were seen.
    pub(crate) fn may_stand(&mut self, entries: &[Entry], board: &Board) -> Result<bool, NoMemory>
        ensures { (S : State) (seen : List Board) → AreSeenBoards S entries.now seen self.old
            → IfOk result (IsJudged S entries.now seen board.now self.new) }
    {
        if !self.can_go_on(entries, board.version) {
            return Ok(false);
        }
        self.go_on(entries, board.version)?;
        is_shown(&self.store, board)
    }
}
