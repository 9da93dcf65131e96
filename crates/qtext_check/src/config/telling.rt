//! How a fault of a configuration is told.

use super::rules::Form;
use super::{Check, ConfigFinding, Done, Site};
use crate::MOST_TOLD;
use crate::finding_texts::fault_text;
use crate::near::near_of;
use crate::shown::put_word;
use qtext::first_part;
use qtext_config::ConfigFault;
use std::alloc::{AllocError, Global};

/// What is said of a key, of its value, of how many tables it has, or of a table, beside what may be there instead.
#[derive(Clone, Copy)]
pub(super) enum Said<'a> {
    Missing(Form),
    Value(Form),
    NoTable,
    Unknown(&'a [&'a str], &'a str),
    Count(usize, Form),
    Same(Site),
    NoZero,
}

const ORDINALS: [&str; 10] = [
    "first", "second", "third", "fourth", "fifth", "sixth", "seventh", "eighth", "ninth", "tenth",
];

/// A key or a value as it is shown.
fn shown(alloc: Global, word: &str) -> Result<String, AllocError> {
    let mut shown = Vec::new(alloc);
    put_word(&mut shown, word.as_bytes()).or(Err(AllocError))?;
    String::from_utf8(shown).or(Err(AllocError))
}

/// A table of a list in words: `second user`, or past the tenth `user 11`.
fn table_words(alloc: Global, site: Site) -> Result<String, AllocError> {
    let Site::Of(list, index) = site else {
        return Ok(String::new(alloc));
    };
    match ORDINALS.get(index) {
        Some(ordinal) => format!(in alloc; "{ordinal} {list}"),
        None => format!(in alloc; "{list} {}", index.saturating_add(1)),
    }
}

/// That a key is none of those that its table may have, and one of them that is near.
fn known_words(alloc: Global, known: &[&str], key: &str) -> Result<String, AllocError> {
    let (others, last) = known.split_at(known.len().saturating_sub(1));
    let (others, last) = (others.join(alloc, ", ")?, last.join(alloc, "")?);
    match near_of(key.as_bytes(), known) {
        Some(near) => format!(in alloc; " is no key; wanted: {others} or {last}; {near}?"),
        None => format!(in alloc; " is no key; wanted: {others} or {last}"),
    }
}

/// What is wrong and what is wanted, where the value is shown so.
fn words_of(alloc: Global, said: Said<'_>, value: &str) -> Result<String, AllocError> {
    let is = if value.is_empty() { "" } else { " = " };
    match said {
        Said::Missing(form) => format!(in alloc; " is missing; wanted: {form}"),
        Said::Value(form) => format!(in alloc; "{is}{value}; wanted: {form}"),
        Said::NoTable => format!(in alloc; " is no table: {value}; wanted: a table"),
        Said::Unknown(known, key) => known_words(alloc, known, key),
        Said::Count(count, form) => format!(in alloc; " has {count} tables; wanted: {form}"),
        Said::Same(other) => {
            let other = table_words(alloc, other)?;
            format!(in alloc; "{is}{value}, as the {other}; wanted: one that no other has")
        }
        Said::NoZero => format!(in alloc; " has no id 0; wanted: a table with the id 0"),
    }
}

impl Check<'_> {
    /// Puts a fault, with a reason, and with a line and a caret where this is the text from its place on.
    pub(super) fn put(&mut self, fault: ConfigFault, rest: Option<&str>, reason: &str) -> Done {
        let reason = match &fault {
            ConfigFault::Field(_) => format!(in self.alloc; "field: {reason}")?,
            fault => format!(in self.alloc; "{fault}: {reason}")?,
        };
        let text = match rest {
            None => format!(in self.alloc; ": {reason}\n")?.into_bytes(),
            Some(rest) => {
                let before = self.text.strip_suffix(rest).unwrap_or("");
                let begin = before.rfind('\n').map_or(0, |end| end.saturating_add(1));
                let column = before.len().saturating_sub(begin);
                let line = first_part(self.text.as_bytes().get(begin..).unwrap_or(&[]), b'\n').0;
                let line = line.strip_suffix(b"\r").unwrap_or(line);
                let number = before.split('\n').count() as u64;
                fault_text(self.alloc, number, line, column, reason.as_bytes())?
            }
        };
        Ok(self.findings.push(ConfigFinding { fault, text })?)
    }

    /// Whether as many faults were put that `run` tests together with this one as are told at most.
    fn has_enough(&self, fault: &ConfigFault) -> bool {
        let mut alike = 0usize;
        for finding in &self.findings {
            if finding.fault.number() == fault.number() {
                alike = alike.saturating_add(1);
            }
        }
        alike >= MOST_TOLD
    }

    /// Puts a fault at the value, where that is at fault and known, or else at its key, or else at its table. Where
    /// there are enough it is counted.
    pub(super) fn tell(&mut self, fault: ConfigFault, at: (Site, &str), said: Said<'_>) -> Done {
        if self.has_enough(&fault) {
            self.more = self.more.saturating_add(1);
            return Ok(());
        }
        let (site, key) = at;
        let found = self.find(site, key).or(self.find(site, ""));
        let (at, from, after) = found.unwrap_or(("", "", ""));
        let value = shown(self.alloc, from.strip_suffix(after).unwrap_or(""))?;
        let words = words_of(self.alloc, said, &value)?;
        let (table, key) = (table_words(self.alloc, site)?, shown(self.alloc, key)?);
        let is_value = matches!(said, Said::Value(_) | Said::Same(_)) && !from.is_empty();
        let reason = match (table.is_empty(), key.is_empty()) {
            (false, false) => format!(in self.alloc; "{table}: {key}{words}")?,
            _ => format!(in self.alloc; "{table}{key}{words}")?,
        };
        let rest = found.map(|_| if is_value { from } else { at });
        self.put(fault, rest, &reason)
    }
}
