//! What calls are answered, each law the contract of a function that does nothing when it runs.
ghost use Rattle.qplain_answers.specs.Numbers.{MadeNumbersAreFree};
ghost use Rattle.qplain_answers.specs.Reads.{ReadsAreAsLong};
ghost use Rattle.qplain_answers.specs.FirstLimit.{FirstLimitIsTold};
ghost use Rattle.qplain_answers.specs.WithoutProjects.{JournalsAreAlike, ProjectsChangeNothing, StartsAreAlike};

/// From a lawful state a create or a mkdir that is done is answered with a number under which no inode stood, and
/// under which one stands then.
pub fn made_numbers_are_free()
    ensures { MadeNumbersAreFree }
{}

/// A read is told as many bytes as it asked for, or fewer where the file ends before: those up to its end, and none
/// from its end on.
pub fn reads_are_as_long_as_asked()
    ensures { ReadsAreAsLong }
{}

/// From a lawful state whoever is refused for a quota is not the superuser, and is told the first limit in the way: of
/// the user before the group and the group before the project that own what the call would change, and of each in the
/// order inode hard, inode soft, block hard, block soft.
pub fn first_limit_is_told()
    ensures { FirstLimitIsTold }
{}

/// Projects without limits change nothing: two states that differ in their projects alone, none of which has a limit,
/// are answered alike by a call that names no project, and then differ in their projects alone still. So do new stores
/// of a setup with such projects and of the same one without, and the same journals of such calls are legal in both.
pub fn projects_without_limits_change_nothing()
    ensures steps { ProjectsChangeNothing }
    ensures starts { StartsAreAlike }
    ensures journals { JournalsAreAlike }
{}
