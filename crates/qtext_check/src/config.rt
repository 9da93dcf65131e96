//! A configuration, or all that is wrong in its text.
ghost use Rattle.std.specs.Prelude.{◌≡◌, IfOk};
ghost use Rattle.qtext_config.specs.ConfigFaults.{cause_of};
ghost use Rattle.qtext_config.specs.Configs.{setting_in};
ghost use Rattle.qtext_check.specs.Verdicts.{IsVerdictOn, first_cause};

use places::Place;
use qtext_config::{Config, ConfigFault, DOCUMENT_KEYS};
use std::alloc::{AllocError, Global};

mod gathering;
mod places;
mod rules;
mod telling;

/// A fault of a configuration.
#[derive(Debug, Drop)]
pub struct ConfigFinding {
    /// As reading tells it, were it the first.
    pub fault: ConfigFault,
    /// How it is told, behind the name of its file: `:LINE:COLUMN: WRONG: REASON; wanted: WHAT`, then `; NEAR?` where a
    /// key is near, and below it the line and a caret. Where there is no place, `: WRONG: REASON; wanted: WHAT` alone.
    pub text: Vec<u8>,
}

/// A configuration that is sound, or the first faults of one that is not, at least one, and how many more it has.
#[derive(Debug, Drop)]
pub enum Verdict {
    Sound(Config),
    Faulty(Vec<ConfigFinding>, u64),
}

/// A table of a configuration: the document, one of the list of that key, counted from 0, or another.
#[derive(Clone, Copy, PartialEq, Eq)]
enum Site {
    Document,
    Of(&'static str, usize),
    Elsewhere,
}

type Done = Result<(), AllocError>;

/// A text that is looked at: where its tables and keys stand, how many tables the list at each key of the document has
/// had, its faults so far, and how many there are beside those.
#[derive(Drop)]
struct Check<'a> {
    alloc: Global,
    text: &'a str,
    places: Vec<Place<'a>>,
    tables: [usize; DOCUMENT_KEYS.len()],
    findings: Vec<ConfigFinding>,
    more: u64,
}

/// What is wrong in a text, and how much more: what TOML says against it, or else what is wrong in its document.
fn gathered(alloc: Global, text: &str) -> Result<(Vec<ConfigFinding>, u64), AllocError> {
    let mut check = Check {
        alloc,
        text,
        places: Vec::new(alloc),
        tables: [0; DOCUMENT_KEYS.len()],
        findings: Vec::new(alloc),
        more: 0,
    };
    match toml::table_from_str(alloc, text) {
        Ok(document) => check.document(&document)?,
        Err(error) => {
            let rest = text.get(error.span().ok_or(AllocError)?.start..);
            check.put(ConfigFault::Text, rest, error.message())?;
        }
    }
    Ok((check.findings, check.more))
}

/// What is wrong in a text, and how much more, behind the fault that reading tells, with no place, where it does not
/// begin with that.
fn begun(
    alloc: Global,
    text: &str,
    fault: ConfigFault,
) -> Result<(Vec<ConfigFinding>, u64), AllocError>
    ensures { IfOk result (λ all. first_cause all.0.items ≡ cause_of fault) }
{
    let (mut findings, more) = gathered(alloc, text)?;
    if !matches!(findings.as_slice(), [first, ..] if first.fault == fault) {
        let text = format!(in alloc; ": {fault}\n")?.into_bytes();
        findings.insert(0, ConfigFinding { fault, text })?;
    }
    Ok((findings, more))
}

/// Reads a configuration, and tells all that is wrong in one that reading refuses, in the order in which it tests: its
/// TOML, the kind and form of all values, unknown keys, ranges, duplicates and no zero. The first faults are told, and
/// the others counted.
///
/// An Err is out of memory, and tells nothing.
pub fn check_config(alloc: Global, text: &str) -> Result<Verdict, AllocError>
    // It is sound where reading takes it, and then what reading gives; else the first fault is the one that reading
    // tells.
    ensures { IfOk result (λ verdict. IsVerdictOn verdict (setting_in text.now)) }
{
    match Config::read(alloc, text) {
        Ok(config) => Ok(Verdict::Sound(config)),
        Err(ConfigFault::Memory) => Err(AllocError),
        Err(fault) => {
            let (findings, more) = begun(alloc, text, fault)?;
            Ok(Verdict::Faulty(findings, more))
        }
    }
}
