//! The laws of whole journals, each the contract of a function that does nothing when it runs.
ghost use Rattle.qplain_laws.specs.Journals.{ChangesAreSmall, ChangesAreTold, JournalsBalance, JournalsStayLawful};
ghost use Rattle.qplain_laws.specs.Journals.{StepsAreSmall, TalliesAreSmall, TalliesBalance};

/// Whatever entries are played from a new store of a lawful setup, legal or not, a lawful state is left.
pub fn journals_stay_lawful()
    ensures { JournalsStayLawful }
{}

/// A reply tells exactly the rise and the fall of the totals in its step. From a lawful state that is within the bounds
/// of the store, so no entry of a legal journal tells of more blocks or inodes than its setup has, or any setup.
pub fn changes_are_small()
    ensures told { ChangesAreTold }
    ensures steps { StepsAreSmall }
    ensures journals { ChangesAreSmall }
{}

/// No number of a legal journal's tally is larger than the bound of a setup for each of its calls, which it counts.
/// From any state, what it says was charged and what was there is what it says was released and what is left; and a new
/// store has its root alone.
pub fn tallies_add_up()
    ensures small { TalliesAreSmall }
    ensures from_any { JournalsBalance }
    ensures balance { TalliesBalance }
{}
