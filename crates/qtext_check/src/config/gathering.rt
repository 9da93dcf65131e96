//! All that is wrong in a document, in the order in which reading tests it.

use super::rules::{CLIENTS, Form, is_in_range, keys_in, lacks_caller, rule_of};
use super::telling::Said;
use super::{Check, Done, Site};
use crate::MOST_TOLD;
use qplain::MAX_PRINCIPALS;
use qtext_config::{ConfigFault, DOCUMENT_KEYS};
use toml::{Table, Value};

/// The elements of the list at a key, where there is one.
fn elements_of<'a>(document: &'a Table, key: &str) -> &'a [Value] {
    match (rule_of(key).1, document.get(key)) {
        (Form::List(_), Some(Value::Array(list))) => list.as_slice(),
        _ => &[],
    }
}

/// Which element before that of this number has the same id or name. Those that are too many are not looked at.
fn same_before(elements: &[Value], index: usize, key: &str) -> Option<usize> {
    if index >= MAX_PRINCIPALS {
        return None;
    }
    let value = elements.get(index)?.get(key)?;
    let mut elements = elements.iter();
    let first = elements.position(|other| other.get(key) == Some(value))?;
    match (key, value) {
        ("id", Value::Integer(_)) | ("name", Value::String(_)) if first < index => Some(first),
        _ => None,
    }
}

impl Check<'_> {
    /// Finds what is wrong with a value, or with none, at a key that its table may have.
    fn value(&mut self, at: (Site, &str), value: Option<&Value>) -> Done {
        let (is_needed, form) = rule_of(at.1);
        let field = ConfigFault::Field(String::from_str(self.alloc, at.1)?);
        let range = ConfigFault::Range;
        let good = match value {
            Some(value) => is_in_range(self.alloc, form, value)?,
            None => None,
        };
        match (value, good) {
            (None, _) if is_needed => self.tell(field, at, Said::Missing(form)),
            (None, _) | (_, Some(true)) => Ok(()),
            (_, None) => self.tell(field, at, Said::Value(form)),
            (Some(Value::Array(list)), _) => self.tell(range, at, Said::Count(list.len(), form)),
            _ => self.tell(range, at, Said::Value(form)),
        }
    }

    /// Finds what is wrong in a list: elements that are no tables, then the values of the others, and that none is 0.
    fn list(&mut self, list: &'static str, elements: &[Value]) -> Done {
        let mut lacks_zero = !elements.is_empty() && list != CLIENTS;
        for (index, element) in elements.iter().enumerate() {
            lacks_zero &= matches!(element.get("id"), Some(Value::Integer(id)) if *id != 0);
            if !element.is_table() {
                let field = ConfigFault::Field(String::from_str(self.alloc, list)?);
                self.tell(field, (Site::Of(list, index), ""), Said::NoTable)?;
            }
        }
        for (index, element) in elements.iter().enumerate() {
            let site = Site::Of(list, index);
            for key in keys_in(list) {
                if element.is_table() {
                    self.value((site, key), element.get(*key))?;
                }
                if let Some(other) = same_before(elements, index, key) {
                    let other = Site::Of(list, other);
                    self.tell(ConfigFault::Duplicate, (site, key), Said::Same(other))?;
                }
            }
            if list == CLIENTS && lacks_caller(element) {
                let field = ConfigFault::Field(String::from_str(self.alloc, "caller")?);
                self.tell(field, (site, "caller"), Said::Missing(Form::Caller))?;
            }
        }
        if lacks_zero {
            self.tell(ConfigFault::NoZero, (Site::Document, list), Said::NoZero)?;
        }
        Ok(())
    }

    /// Finds a key of a table that may not have it.
    fn stray(&mut self, site: Site, key: &str, known: &[&str]) -> Done {
        if known.contains(&key) {
            return Ok(());
        }
        let field = ConfigFault::Field(String::from_str(self.alloc, key)?);
        let shown = if key.is_empty() { "\"\"" } else { key };
        self.tell(field, (site, shown), Said::Unknown(known, key))
    }

    /// Finds the keys that tables of lists may not have, the least by bytes first: of the list of clients, or of all
    /// others.
    fn strays(&mut self, document: &Table, of_clients: bool) -> Done {
        let mut keys = Vec::new(self.alloc);
        let lists = DOCUMENT_KEYS.into_iter();
        for list in lists.filter(|list| (*list == CLIENTS) == of_clients) {
            for (index, element) in elements_of(document, list).iter().enumerate() {
                for key in element.as_table().into_iter().flat_map(|t| t.keys()) {
                    keys.push((key.as_str(), Site::Of(list, index)))?;
                }
            }
        }
        keys.sort_by_key(|(key, _)| *key)?;
        for (key, site) in keys {
            let list = if of_clients { CLIENTS } else { "" };
            self.stray(site, key, keys_in(list))?;
        }
        Ok(())
    }

    /// Finds what is wrong with the setup of a document, and where, in the order of the numbers of faults.
    fn setup(&mut self, document: &Table) -> Done {
        for key in DOCUMENT_KEYS.into_iter().filter(|key| *key != CLIENTS) {
            self.value((Site::Document, key), document.get(key))?;
            self.list(key, elements_of(document, key))?;
        }
        for key in document.keys() {
            self.stray(Site::Document, key.as_str(), &DOCUMENT_KEYS)?;
        }
        self.strays(document, false)?;
        Ok(self.findings.sort_by_key(|finding| finding.fault.number())?)
    }

    /// Finds what is wrong with the clients of a document, their numbers and how many there are at last, unless they
    /// are no list.
    fn clients(&mut self, document: &Table) -> Done {
        let before = self.findings.len();
        self.list(CLIENTS, elements_of(document, CLIENTS))?;
        self.strays(document, true)?;
        self.value((Site::Document, CLIENTS), document.get(CLIENTS))?;
        match self.findings.as_mut_slice().get_mut(before..) {
            Some(own) => Ok(own.sort_by_key(self.alloc, |finding| finding.fault.number())?),
            None => Ok(()),
        }
    }

    /// Finds all that is wrong in a document, and where, in the order in which reading tests it.
    pub(super) fn document(&mut self, document: &Table) -> Done {
        self.put_keys(Site::Document, self.text.trim_start_matches('\u{feff}'))?;
        for key in DOCUMENT_KEYS {
            self.put_elements(key)?;
        }
        self.setup(document)?;
        self.clients(document)?;
        let left_out = self.findings.len().saturating_sub(MOST_TOLD);
        self.findings.truncate(MOST_TOLD);
        self.more = self.more.saturating_add(left_out as u64);
        Ok(())
    }
}
