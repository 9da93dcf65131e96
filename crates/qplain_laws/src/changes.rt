//! What one call changes and what it leaves, each law the contract of a function that does nothing when it runs.
ghost use Rattle.qplain_laws.specs.Bytes.{BytesAreCut, BytesAreRead, BytesAreWritten};
ghost use Rattle.qplain_laws.specs.Done.{DoneIsDone};
ghost use Rattle.qplain_laws.specs.Told.{BytesAreTrue, QuotasAreTrue, StatsAreTrue};
ghost use Rattle.qplain_laws.specs.Sizes.{FilesStayRightSized, StartIsRightSized};
ghost use Rattle.qplain_laws.specs.Changes.{AskingChangesNothing, GracesRunOn, NamesCostNothing, OneInodeIsTouched};
ghost use Rattle.qplain_laws.specs.Changes.{OtherNamesStay, SettingsStay, SuperuserMeetsNoQuota, TotalsAreMoved};
ghost use Rattle.qplain_laws.specs.Changes.{TwoRowsOfEachKind};

/// Read, stat and quota, which only ask, leave the state as it is.
pub fn asking_changes_nothing()
    ensures { AskingChangesNothing }
{}

/// No step of the superuser is refused for a quota.
pub fn superuser_meets_no_quota()
    ensures { SuperuserMeetsNoQuota }
{}

/// No call but setgrace changes the graces, and none but a setquota of a principal changes that one's limits.
pub fn settings_stay()
    ensures { SettingsStay }
{}

/// A grace that runs is never prolonged: a grace end that stands before and after a call that does not set the
/// principal's limits is the same, and a new one is the call's moment and the grace that is then set.
pub fn graces_run_on()
    ensures { GracesRunOn }
{}

/// From a lawful state a call touches one inode, if any: every other number has what it had, each use rises and falls
/// by what that one takes and took, and whom it charges as before keeps the record, unless the call sets limits. So of
/// each kind it changes the records of two principals at most.
pub fn one_inode_is_touched()
    ensures touched { OneInodeIsTouched }
    ensures rows { TwoRowsOfEachKind }
{}

/// From a lawful state every name leads where it led, but the last names of the paths that a call changes: of a create,
/// a mkdir, an unlink or a rmdir its path, of a link the second, of a rename both.
pub fn other_names_stay()
    ensures { OtherNamesStay }
{}

/// From a lawful state a call that is answered `Done` has done what it is named for, told in look-ups alone: where its
/// paths lead before and after, and what stands there.
pub fn done_is_done()
    ensures { DoneIsDone }
{}

/// What read, stat and quota are told, where they are answered, is of the file, the inode or the principal that they
/// name; a record is told to its user or its group's members, and to the superuser, a project's to the superuser alone.
pub fn answers_are_true()
    ensures bytes { BytesAreTrue }
    ensures stats { StatsAreTrue }
    ensures quotas { QuotasAreTrue }
{}

/// What was written is read back, and every other byte is as it was; a truncated file has the size that was named, and
/// the bytes below it.
pub fn bytes_are_kept()
    ensures written { BytesAreWritten }
    ensures cut { BytesAreCut }
    ensures read { BytesAreRead }
{}

/// No file is larger than the file limit, and each block of a file begins below its size: in a new store, and after
/// every step of a state in which it is so.
pub fn files_stay_right_sized()
    ensures start { StartIsRightSized }
    ensures steps { FilesStayRightSized }
{}

/// Names cost nothing: from a lawful state a link, an unlink, a rmdir or a rename that is told of no change leaves
/// every inode and every record. A link and a chown are never told of one.
pub fn names_cost_nothing()
    ensures inodes { NamesCostNothing }
    ensures told { TotalsAreMoved }
{}
