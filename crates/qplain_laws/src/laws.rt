//! The laws of the plain machine, each the contract of a function that does nothing when it runs.
ghost use Rattle.qplain_laws.specs.Refusals.{RefusalsComeInOrder};
ghost use Rattle.qplain_laws.specs.Order.{LinksComeFirst, OverwritesAreGranted};
ghost use Rattle.qplain_laws.specs.ProjectLaws.{KindsStay, ProjectsAreInherited, UndeclaredOwnNothing};
ghost use Rattle.qplain_laws.specs.ProjectLaws.{ProjectsStay, UndeclaredRefuseNothing};
ghost use Rattle.qplain_laws.specs.Laws.{AllStayReached, EndsAreTheRules, EndsStay, GivingBackIsGranted, LimitsHold};
ghost use Rattle.qplain_laws.specs.Laws.{LimitsStay, NewLimitsAreTheRules, NumbersGoOn, OwnersHold};
ghost use Rattle.qplain_laws.specs.Laws.{RefusalsChangeNothing, RightsHold, SetupsStay, StartIsLawful, StartIsReached};
ghost use Rattle.qplain_laws.specs.Laws.{StepsStayLawful, UsersAndGroupsStand, UsesAddUp};

/// Totals and inode numbers stay within the bounds, and a grace end stands exactly where use is over its soft limit.
/// Principals, inodes and names stand once and in order. Every inode has declared owners and as many names as it may, a
/// directory holds no bytes and no block, a byte of no block is 0, no inode has more than 65,000 links, and each name
/// stands in a directory and leads to an inode. So it is in a new store of a lawful setup, and after every step of a
/// lawful state.
pub fn stores_stay_lawful()
    ensures start { StartIsLawful }
    ensures steps { StepsStayLawful }
{}

/// A refused call leaves the state as it was.
pub fn refusals_change_nothing()
    ensures { RefusalsChangeNothing }
{}

/// No call of anybody but the superuser raises a use past a hard limit, or past a soft limit whose grace has ended.
pub fn limits_hold()
    ensures { LimitsHold }
{}

/// From a lawful state no truncation, no unlink, no rmdir, no link and no rename is refused for want of space or of
/// quota: whoever is over a limit may give back, and names cost nothing.
pub fn giving_back_is_granted()
    ensures { GivingBackIsGranted }
{}

/// Refusals come in the order of the tests of each call: first what is wrong with its arguments, then the first test
/// that fails; what passes them all is refused only for a limit, and for want of space before any quota.
pub fn refusals_come_in_order()
    ensures { RefusalsComeInOrder }
{}

/// From a lawful state a mkdir that is refused for want of space or of quota had links left in its parent: EMLINK comes
/// first.
pub fn links_come_first()
    ensures { LinksComeFirst }
{}

/// From a lawful state a write that touches allocated blocks alone is refused for no want of space or of quota.
pub fn overwrites_are_granted()
    ensures { OverwritesAreGranted }
{}

/// In a lawful state the uses of all principals of a kind add up to the totals of the store, where any is declared, as
/// users and groups always are.
pub fn uses_add_up()
    ensures uses { UsesAddUp }
    ensures kinds { UsersAndGroupsStand }
{}

/// Where no principal of a kind is declared, none is after any call; no inode of a lawful state has an owner of the
/// kind, and no call is refused for its quota. So a store without projects is one of users and groups alone.
pub fn undeclared_kinds_do_nothing()
    ensures own { UndeclaredOwnNothing }
    ensures refuse { UndeclaredRefuseNothing }
    ensures stay { KindsStay }
{}

/// At any moment the rule of grace ends leaves a lawful state as it is.
pub fn ends_stay()
    ensures { EndsStay }
{}

/// No call changes the bounds, the file limit or who the holders are, and only the superuser's change limits and
/// graces.
pub fn setups_stay()
    ensures setup { SetupsStay }
    ensures limits { LimitsStay }
{}

/// From a lawful state the next number never falls, and an inode that a call makes has the number that was next: none
/// is given again.
pub fn numbers_go_on()
    ensures { NumbersGoOn }
{}

/// Every inode can be walked to from the root: in a new store, and after each step of a lawful state in which every
/// one can be.
pub fn inodes_stay_reached()
    ensures start { StartIsReached }
    ensures steps { AllStayReached }
{}

/// From a lawful state no call of anybody but the superuser changes an inode of others, what it holds or whose it is,
/// but for an inode whose last name goes; or takes away, moves or replaces a name that leads to an inode of others in
/// a directory of others. Nor does one make an inode another user's or another project's, or that of a group that is
/// not the caller's.
pub fn rights_hold()
    ensures others { RightsHold }
    ensures owners { OwnersHold }
{}

/// From a lawful state an inode that a call makes has the project of the directory in which its name stands, and none
/// where that has none.
pub fn projects_are_inherited()
    ensures { ProjectsAreInherited }
{}

/// From a lawful state no call but a chown that names a project changes the project of an inode, whoever calls: a link
/// and a rename keep it.
pub fn projects_stay()
    ensures { ProjectsStay }
{}

/// The grace ends and the new limits of the plain machine are those of a quota record.
pub fn holders_keep_the_rules()
    ensures ends { EndsAreTheRules }
    ensures limits { NewLimitsAreTheRules }
{}
