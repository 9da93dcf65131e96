//! What holds of every board that is shown, as the contract of a function that does nothing when it runs.
ghost use Rattle.qshare_boards.specs.Laws.{BoardsAreWhole};

/// The board of whatever is played from a state that a store can be in is whole: users', groups' and, where any is
/// declared, projects' uses each add up to the totals, these are within the bounds, and a grace end stands exactly
/// where use is over that soft limit.
pub fn boards_are_whole()
    ensures { BoardsAreWhole }
{}
