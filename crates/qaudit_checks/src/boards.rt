//! Lists of boards, checked against a journal.
ghost use Rattle.qaudit_checks.specs.LawfulBoards.{IsVerdictOn, boards_in};

use crate::BoardFault;
use crate::checker::Checker;
use qplain::{Board, Entry, LookFault};
use qstore::Store;

/// Checks boards against a journal, whose entries it plays again on this store, which stands where the journal begins.
///
/// The boards are lawful where each is that of the state which the first entries leave, as many as its version, and
/// versions never fall. Else the index of the first board that fails is reported, from 1. The journal's replies are
/// not looked at. What the calls of the entries take, up to the greatest version, and for each board O(n) for n
/// principals. The store is given up.
pub fn check_boards(store: Store, entries: &[Entry], boards: &[Board]) -> Result<(), BoardFault>
    ensures { IsVerdictOn store.state entries.now boards.now result }
{
    let mut checker = Checker::over(store);
    let mut index = 0u64;
    for board in boards {
        index += 1;
        if !checker.may_stand(entries, board)? {
            return Err(BoardFault::Board(index));
        }
    }
    Ok(())
}

/// Checks the boards that looks have shown against a journal, as `check_boards` does.
///
/// A look that has shown none is passed over, and the index of a board counts boards alone.
pub fn check_looks(
    store: Store,
    entries: &[Entry],
    looks: &[Result<Board, LookFault>],
) -> Result<(), BoardFault>
    ensures { IsVerdictOn store.state entries.now (boards_in looks.now) result }
{
    let mut checker = Checker::over(store);
    let mut index = 0u64;
    for look in looks {
        if let Ok(board) = look {
            index += 1;
            if !checker.may_stand(entries, board)? {
                return Err(BoardFault::Board(index));
            }
        }
    }
    Ok(())
}
