//! Files that what came of a run or of a replay is saved in: which of its other files they must not be.
ghost use Rattle.std.specs.Prelude.{◌≡◌, OnOk, option_map};
ghost use Rattle.qtool.specs.Apart.{AreApart};

use crate::clashes::{Clash, Role};
use crate::standard::STANDARD;
use crate::{Files, SavedNames};
use qtool_files::{Overwritten, test_written};

/// The clash of a file that would be written over what is read or printed to.
fn over_by(written: Role, over: Overwritten) -> Clash {
    let role = match over {
        Overwritten::Config => Role::Config,
        Overwritten::Script(number) => Role::Script(number),
        Overwritten::Output => Role::Standard,
    };
    Clash::Over(written, role)
}

/// Tests that the journal and the image, where both are named, have other names.
fn test_names(journal: Option<&str>, image: Option<&str>) -> Result<(), Clash>
    ensures { OnOk result (AreApart (option_map (λ n. n.now) journal.entry) (option_map (λ n. n.now) image.entry)) }
{
    let (Some(journal), Some(image)) = (journal, image) else {
        return Ok(());
    };
    if journal != image {
        return Ok(());
    }
    if image == STANDARD {
        return Err(Clash::Stream(Role::Journal, Role::Image));
    }
    Err(Clash::Over(Role::Image, Role::Journal))
}

/// Tests that an image, where one is named, is not written over the file of this journal, under whatever name.
fn test_over<F: Files>(
    files: &mut F,
    role: Role,
    journal: &str,
    image: Option<&str>,
) -> Result<(), Clash>
    ensures { F.held files.new ≡ F.held files.old }
{
    match image {
        Some(image) if files.is_same(image, journal) => Err(Clash::Over(Role::Image, role)),
        _ => Ok(()),
    }
}

/// Tests that nothing is saved in a file that is read or printed to, the journal first, nor both in one.
pub(crate) fn test_saved<F: Files>(
    files: &mut F,
    names: SavedNames<'_>,
    config: &str,
    scripts: &[String],
) -> Result<(), Clash>
    ensures same { F.held files.new ≡ F.held files.old }
    ensures apart { OnOk result (AreApart (option_map (λ n. n.now) names.entry.journal)
        (option_map (λ n. n.now) names.entry.image)) }
{
    if let Err(over) = test_written(files, names.journal, config, scripts) {
        return Err(over_by(Role::Journal, over));
    }
    if let Err(over) = test_written(files, names.image, config, scripts) {
        return Err(over_by(Role::Image, over));
    }
    test_names(names.journal, names.image)?;
    match names.journal {
        Some(journal) if journal != STANDARD => {
            test_over(files, Role::Journal, journal, names.image)
        }
        _ => Ok(()),
    }
}

/// Tests that the image of a replay, where one is named, is written over nothing that is read or printed to.
pub(crate) fn test_replayed<F: Files>(
    files: &mut F,
    image: Option<&str>,
    config: &str,
    journal: &str,
) -> Result<(), Clash>
    ensures { F.held files.new ≡ F.held files.old }
{
    if let Err(over) = test_written(files, image, config, &[]) {
        return Err(over_by(Role::Image, over));
    }
    if journal != STANDARD && image == Some(journal) {
        return Err(Clash::Over(Role::Image, Role::Played));
    }
    test_over(files, Role::Played, journal, image)
}
