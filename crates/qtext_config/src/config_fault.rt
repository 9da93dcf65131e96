//! Why a text is no configuration.
ghost use Rattle.std.specs.Prelude.{◌≡◌, Some};
ghost use Rattle.qtext_config.specs.ConfigFaults.{cause_of, cause_of_setup, config_fault_number};
ghost use Rattle.qtext_config.specs.declared.config_fault.ConfigFault.TheVariants.{Memory};

use qplain::SetupFault;
use std::alloc::{AllocError, AllocFailed};
use thiserror::Error;

/// Why a text is no configuration, in the order in which it is tested. Out of memory may come at any point.
#[derive(Debug, PartialEq, Eq, Drop, Error)]
pub enum ConfigFault {
    /// The text is no TOML: also where an integer is past 64 bits or a key is given twice.
    #[error("text")]
    Text,
    /// The value at this key is missing, of another kind or of another form, or the key is not known.
    #[error("field {0}")]
    Field(String),
    /// A number is outside its range, or there are not 1 to 64 principals of a kind that has its list.
    #[error("range")]
    Range,
    /// Two principals of one kind have the same id or the same name.
    #[error("duplicate")]
    Duplicate,
    /// A kind that has its list lacks id 0.
    #[error("no zero")]
    NoZero,
    #[error("memory")]
    Memory,
}

impl ConfigFault {
    /// The number under which it is reported.
    pub fn number(&self) -> u32
        ensures { result ≡ config_fault_number self.now }
    {
        match self {
            ConfigFault::Text => 51,
            ConfigFault::Field(_) => 52,
            ConfigFault::Range => 53,
            ConfigFault::Duplicate => 54,
            ConfigFault::NoZero => 55,
            ConfigFault::Memory => 56,
        }
    }
}

impl From<AllocError> for ConfigFault {
    ghost from_gives = { λ _ fault. fault ≡ Memory };

    fn from(_error: AllocError) -> ConfigFault {
        ConfigFault::Memory
    }
}

impl<T: Drop> From<AllocFailed<T>> for ConfigFault {
    ghost from_gives = { λ _ fault. fault ≡ Memory };

    fn from(_error: AllocFailed<T>) -> ConfigFault {
        ConfigFault::Memory
    }
}

impl From<SetupFault> for ConfigFault {
    ghost from_gives = { λ refused fault. cause_of fault ≡ Some (cause_of_setup refused) };

    fn from(refused: SetupFault) -> ConfigFault {
        match refused {
            SetupFault::Range => ConfigFault::Range,
            SetupFault::Duplicate => ConfigFault::Duplicate,
            SetupFault::NoZero => ConfigFault::NoZero,
        }
    }
}
