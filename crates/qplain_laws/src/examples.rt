//! Worked examples of the plain machine: each clause is one, and holds by computation.
ghost use Rattle.qplain_laws.specs.Examples.{BoardOfJournal, CreateWriteStat, Editions, EmptyWrite, EntriesOfWorker};
ghost use Rattle.qplain_laws.specs.Examples.{ExampleIsGranted, GraceHasEnded, GraceRuns, GracesMoveNone, HardLimit};
ghost use Rattle.qplain_laws.specs.Examples.{JournalIsLegal, LimitsAnew, Paths, ReadOverAHole, Rights, SixInodes};
ghost use Rattle.qplain_laws.specs.Examples.{SpaceBeforeQuota, SuperuserPasses, TallyOfJournal, UnknownCallers};
ghost use Rattle.qplain_laws.specs.Examples.{WhoseLimitFirst, WriteOverAnEdge};
ghost use Rattle.qplain_laws.specs.MoreExamples.{EndsMove, GrownAgain, InodesGivenBack, LastName, MayGive, MayTruncate};
ghost use Rattle.qplain_laws.specs.MoreExamples.{MayUnlink, NoNumberAgain, OnlyWhatRises, OtherGroup, Shorter};
ghost use Rattle.qplain_laws.specs.MoreExamples.{ShorterByBytes};
ghost use Rattle.qplain_laws.specs.EdgeExamples.{BothLimitsAtOnce, ExactlyFull, InsideAFile, LargestLimits};
ghost use Rattle.qplain_laws.specs.EdgeExamples.{LongestTexts, TwoGraces};
ghost use Rattle.qplain_laws.specs.NameExamples.{DirectoriesGo, DirectoriesMove, FurtherNames, MayLink};
ghost use Rattle.qplain_laws.specs.NameExamples.{MayMakeDirectories, MayRemoveDirectories, MayRename, NamesMove};
ghost use Rattle.qplain_laws.specs.NameExamples.{NewDirectories};
ghost use Rattle.qplain_laws.specs.ProjectExamples.{BoardOfProjects, GraceOfAProject, MayNameProjects, NoProjects};
ghost use Rattle.qplain_laws.specs.ProjectExamples.{ProjectComesLast, ProjectOfADirectory, ProjectsAreGranted};
ghost use Rattle.qplain_laws.specs.ProjectExamples.{ProjectsAreKept, ProjectsAreTested};

/// What the definitions answer on small scripts, counted by hand from the rules. It does nothing when it runs.
pub fn worked_examples()
    ensures example_is_granted { ExampleIsGranted }
    ensures create_write_stat { CreateWriteStat }
    ensures write_over_an_edge { WriteOverAnEdge }
    ensures hard_limit { HardLimit }
    ensures space_before_quota { SpaceBeforeQuota }
    ensures grace_runs { GraceRuns }
    ensures grace_has_ended { GraceHasEnded }
    ensures superuser_passes { SuperuserPasses }
    ensures limits_anew { LimitsAnew }
    ensures graces_move_none { GracesMoveNone }
    ensures empty_write { EmptyWrite }
    ensures editions { Editions }
    ensures read_over_a_hole { ReadOverAHole }
    ensures unknown_callers { UnknownCallers }
    ensures paths { Paths }
    ensures rights { Rights }
    ensures six_inodes { SixInodes }
    ensures whose_limit_first { WhoseLimitFirst }
    ensures journal_is_legal { JournalIsLegal }
    ensures tally_of_journal { TallyOfJournal }
    ensures entries_of_worker { EntriesOfWorker }
    ensures board_of_journal { BoardOfJournal }
{}

/// What they answer to truncate, unlink and chown.
pub fn more_worked_examples()
    ensures shorter { Shorter }
    ensures shorter_by_bytes { ShorterByBytes }
    ensures grown_again { GrownAgain }
    ensures may_truncate { MayTruncate }
    ensures last_name { LastName }
    ensures no_number_again { NoNumberAgain }
    ensures may_unlink { MayUnlink }
    ensures inodes_given_back { InodesGivenBack }
    ensures other_group { OtherGroup }
    ensures only_what_rises { OnlyWhatRises }
    ensures may_give { MayGive }
    ensures ends_move { EndsMove }
{}

/// What they answer to mkdir, rmdir, link and rename.
pub fn worked_examples_of_names()
    ensures new_directories { NewDirectories }
    ensures may_make_directories { MayMakeDirectories }
    ensures directories_go { DirectoriesGo }
    ensures may_remove_directories { MayRemoveDirectories }
    ensures further_names { FurtherNames }
    ensures may_link { MayLink }
    ensures names_move { NamesMove }
    ensures directories_move { DirectoriesMove }
    ensures may_rename { MayRename }
{}

/// What they answer at the edges of ranges and of the store.
pub fn worked_examples_at_edges()
    ensures inside_a_file { InsideAFile }
    ensures both_limits_at_once { BothLimitsAtOnce }
    ensures two_graces { TwoGraces }
    ensures largest_limits { LargestLimits }
    ensures exactly_full { ExactlyFull }
    ensures longest_texts { LongestTexts }
{}

/// What they answer where projects are declared, and where none is.
pub fn worked_examples_of_projects()
    ensures projects_are_granted { ProjectsAreGranted }
    ensures projects_are_tested { ProjectsAreTested }
    ensures project_of_a_directory { ProjectOfADirectory }
    ensures projects_are_kept { ProjectsAreKept }
    ensures project_comes_last { ProjectComesLast }
    ensures grace_of_a_project { GraceOfAProject }
    ensures may_name_projects { MayNameProjects }
    ensures board_of_projects { BoardOfProjects }
    ensures no_projects { NoProjects }
{}
