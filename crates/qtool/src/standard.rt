//! Names as they stand on the command line: those that may be left out, and that of standard input and output.
ghost use Rattle.std.specs.Prelude.{◌≡◌, option_map, string_bytes};

use crate::clashes::{Clash, Role};

/// The name of standard input and of standard output.
pub(crate) const STANDARD: &str = "-";

/// A name that may be left out.
pub(crate) fn optional(name: &Option<String>) -> Option<&str>
    ensures { option_map (λ n. n.now) result ≡ option_map (λ s. string_bytes s) name.now }
{
    name.as_ref().map(String::as_str)
}

/// Tests that of the configuration and the scripts no two are standard input.
pub(crate) fn test_scripts(config: &str, scripts: &[String]) -> Result<(), Clash> {
    let mut reader = if config == STANDARD {
        Some(Role::Config)
    } else {
        None
    };
    let mut number = 0u64;
    for script in scripts {
        number += 1;
        if script.as_str() == STANDARD {
            if let Some(reader) = reader {
                return Err(Clash::Stream(reader, Role::Script(number)));
            }
            reader = Some(Role::Script(number));
        }
    }
    Ok(())
}

/// Tests that the configuration and the journal that is played are not both standard input.
pub(crate) fn test_played(config: &str, journal: &str) -> Result<(), Clash> {
    if config == STANDARD && journal == STANDARD {
        return Err(Clash::Stream(Role::Config, Role::Played));
    }
    Ok(())
}
