//! The laws of images, each the contract of a function that does nothing when it runs.
ghost use Rattle.qplain_image.specs.Blocks.{BlocksAreGivenBack, FilesAreMadeAgain};
ghost use Rattle.qplain_image.specs.Chains.{ChainsAreLegal, ChainsLeaveTheLast, PartsAreChains};
ghost use Rattle.qplain_image.specs.Parts.{RowsAreGivenBack};
ghost use Rattle.qplain_image.specs.Ranks.{RankedAreReached};
ghost use Rattle.qplain_image.specs.Rows.{StatesAreMadeAgain};

/// A file whose blocks rise and begin below its size, and whose bytes of no block are 0, is made again of its size and
/// its blocks.
pub fn files_are_made_again()
    ensures { FilesAreMadeAgain }
{}

/// Blocks whose indexes rise, and which have the lengths that a size leaves them, are those of the file that is made of
/// this size and of them; and the file has this size.
pub fn blocks_are_given_back()
    ensures { BlocksAreGivenBack }
{}

/// Each state that a store of a setup may begin with is made again of its rows and of the file limit of the setup's
/// edition: so no two states of one setup have the same rows.
pub fn states_are_made_again()
    ensures { StatesAreMadeAgain }
{}

/// Rows in their sections are those of the state that is made of them, where the blocks of each file rise and have
/// their lengths, and the uses that are told of holders are those of this state.
pub fn rows_are_given_back()
    ensures { RowsAreGivenBack }
{}

/// Where directories have ranks, and each name that leads to a directory stands in one of a lower rank, every inode of
/// a lawful state can be walked to: there is no cycle.
pub fn ranked_are_reached()
    ensures { RankedAreReached }
{}

/// Journals, each legal from the state that those before it leave, are one legal journal when they are joined, which
/// leaves the state that the last one leaves; and wherever a legal journal is cut, its parts are such journals.
pub fn chains_are_journals()
    ensures joined { ChainsAreLegal }
    ensures left { ChainsLeaveTheLast }
    ensures cut { PartsAreChains }
{}
