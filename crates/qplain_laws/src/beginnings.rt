//! The laws of states that a store may begin with, each the contract of a function that does nothing when it runs.
ghost use Rattle.qplain_laws.specs.Beginnings.{JournalsStayStates, StartIsStateOf, StepsStayStates};
ghost use Rattle.qplain_laws.specs.PathNames.{NamesStayNames};
ghost use Rattle.qplain_laws.specs.SettingRanges.{SettingsStayInRange, StartIsInRange};

/// A new store of a lawful setup is in a state that a store of this setup may begin with. Each call that a store can be
/// asked for leaves such a state, and so does each journal of such calls, legal or not.
pub fn beginnings_stay()
    ensures start { StartIsStateOf }
    ensures steps { StepsStayStates }
    ensures journals { JournalsStayStates }
{}

/// From a lawful state each call that a store can be asked for leaves names as paths have them.
pub fn names_stay_names()
    ensures { NamesStayNames }
{}

/// Graces and limits are such as may be set, and no grace end is later than the latest moment and the longest grace add
/// up to: in a new store of a lawful setup, and after every step of a state in which it is so.
pub fn settings_stay_in_range()
    ensures start { StartIsInRange }
    ensures steps { SettingsStayInRange }
{}
