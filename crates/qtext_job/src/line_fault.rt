ghost use Rattle.std.specs.Prelude.{◌≡◌};
ghost use Rattle.qtext_job.specs.declared.line_fault.LineFault.TheVariants.{Memory};
ghost use Rattle.qtext_job.specs.Jobs.{FailsUnless};
ghost use Rattle.qtext_job.specs.LineFaults.{line_fault_number};

use std::alloc::{AllocError, AllocFailed, Global};

/// Why the words of a command line are no job.
#[derive(Debug, Drop)]
pub enum LineFault {
    /// What `clap` says of the words; `help` where help or the version was asked for.
    Line { help: bool, text: String },
    /// Memory was wanted and not there.
    Memory,
}

impl LineFault {
    /// The number under which it is reported.
    pub fn number(&self) -> u32
        ensures { result ≡ line_fault_number self.now }
    {
        match self {
            LineFault::Line { .. } => 57,
            LineFault::Memory => 58,
        }
    }
}

impl From<AllocError> for LineFault {
    ghost from_gives = { λ _ e. e ≡ Memory };

    fn from(_e: AllocError) -> LineFault {
        LineFault::Memory
    }
}

impl<T: Drop> From<AllocFailed<T>> for LineFault {
    ghost from_gives = { λ _ e. e ≡ Memory };

    fn from(_e: AllocFailed<T>) -> LineFault {
        LineFault::Memory
    }
}

/// A mistake that is told by this text.
pub(crate) fn mistake(text: Result<String, AllocError>) -> LineFault
    ensures { FailsUnless ⊥ result }
{
    match text {
        Ok(text) => LineFault::Line { help: false, text },
        Err(_) => LineFault::Memory,
    }
}

/// For what no clause of `clap` rules out, and what it never answers: matches that name no job.
pub(crate) fn missing(alloc: Global) -> LineFault
    ensures { FailsUnless ⊥ result }
{
    mistake(String::from_str(alloc, "error: missing argument\n"))
}

/// What is said of a word that its place does not take, and of what is wanted there.
fn text_of(alloc: Global, word: &str, place: &str, wanted: &str) -> Result<String, AllocError> {
    format!(in alloc;
        "error: invalid value {word:?} for '{place}': {wanted} wanted\n\n\
         For more information, try '--help'.\n"
    )
}

/// A word that its place does not take.
pub(crate) fn invalid(alloc: Global, word: &str, place: &str, wanted: &str) -> LineFault
    ensures { FailsUnless ⊥ result }
{
    mistake(text_of(alloc, word, place, wanted))
}
