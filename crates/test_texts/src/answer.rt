//! What a text comes to, in words.

use qtext::TextFault;
use qtext_config::ConfigFault;
use std::fmt;

/// What a text comes to.
#[derive(Drop)]
pub(crate) enum Answer {
    /// What was read is spelled again to the bytes of the text; of a configuration, to one that reads as the same.
    Read,
    /// A script was read, and is spelled again in its one spelling: `fill` as the write that it is, and data in lower
    /// case. All else of it is spelled to the bytes of the text.
    Respelled,
    /// What was read is spelled to something else. That must not be.
    SpelledOtherwise,
    /// The fault is of the first line at fault, or there was no memory.
    Refused(TextFault),
    /// The line that is named is not the first at fault, or not for that reason. That must not be.
    Misnamed(TextFault),
    /// The configuration is refused for this.
    RefusedConfig(ConfigFault),
    /// The configuration is refused for this, and with one more comment for something else, or not. That must not be.
    MisnamedConfig(ConfigFault),
    /// The bytes are not UTF-8, and so no configuration.
    NotUtf8,
}

/// Writes a fault of a text: its line, its number and its words.
fn put_fault<W: fmt::Write>(
    f: &mut fmt::Formatter<W>,
    verdict: &str,
    fault: TextFault,
) -> fmt::Result {
    let TextFault { line, kind } = fault;
    let number = kind.number();
    let words = kind.words();
    write!(f, "{verdict} {line} {number} {words}")
}

/// Writes a fault of a configuration: its number and its words. A key stands in quotes, in which no line ends.
fn put_config_fault<W: fmt::Write>(
    f: &mut fmt::Formatter<W>,
    verdict: &str,
    fault: &ConfigFault,
) -> fmt::Result {
    let number = fault.number();
    match fault {
        ConfigFault::Field(key) => write!(f, "{verdict} {number} field {key:?}"),
        _ => write!(f, "{verdict} {number} {fault}"),
    }
}

impl fmt::Display for Answer {
    fn fmt<W: fmt::Write>(&self, f: &mut fmt::Formatter<W>) -> fmt::Result {
        match self {
            Answer::Read => write!(f, "read"),
            Answer::Respelled => write!(f, "respelled"),
            Answer::SpelledOtherwise => write!(f, "spelled otherwise"),
            Answer::Refused(fault) => put_fault(f, "refused", *fault),
            Answer::Misnamed(fault) => put_fault(f, "misnamed", *fault),
            Answer::RefusedConfig(fault) => put_config_fault(f, "refused", fault),
            Answer::MisnamedConfig(fault) => put_config_fault(f, "misnamed", fault),
            Answer::NotUtf8 => write!(f, "not UTF-8"),
        }
    }
}
