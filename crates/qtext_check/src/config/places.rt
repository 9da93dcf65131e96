//! Where the tables and the keys of a configuration stand in its text.

use super::{Check, Done, Site};
use qtext_config::DOCUMENT_KEYS;
use std::alloc::{AllocError, Global};
use toml::Value;
use toml_parser::text::{first, skip_blank, skip_ws};
use toml_parser::{Key, ParseError, dotted_key};

/// A table, a key of it, no byte for the table itself, and the texts from it, its value and what is behind that on.
#[derive(Drop)]
pub(super) struct Place<'a>(Site, String, (&'a str, &'a str, &'a str));

/// What follows blanks, comments and a comma.
fn next(s: &str) -> &str {
    skip_blank(skip_blank(s, true).trim_start_matches(','), true)
}

/// At which place a key stands among these.
fn place_of(key: &str, keys: &[&str]) -> Option<usize> {
    keys.iter().position(|known| key == *known)
}

/// What follows the value with which a text begins: the one fault of such a text is that it does not end there.
fn behind_value(alloc: Global, s: &str) -> Result<&str, AllocError> {
    match Value::from_str(alloc, s) {
        Ok(_) => Ok(""),
        Err(error) => Ok(s.get(error.span().ok_or(AllocError)?.start..).unwrap_or("")),
    }
}

impl<'a> Check<'a> {
    /// The texts from a key, its value and what follows on, or from its table where the key has no byte.
    pub(super) fn find(&self, site: Site, key: &str) -> Option<(&'a str, &'a str, &'a str)> {
        for place in &self.places {
            if place.0 == site && place.1.as_str() == key {
                return Some(place.2);
            }
        }
        None
    }

    /// How many tables the list at a key has had, where it is a key of the document.
    fn tables_of(&mut self, key: &str) -> Option<&mut usize> {
        let at = place_of(key, &DOCUMENT_KEYS)?;
        self.tables.get_mut(at)
    }

    fn put_place(&mut self, site: Site, key: String, at: &'a str) -> Done {
        Ok(self.places.push(Place(site, key, (at, "", "")))?)
    }

    /// Puts the keys of a header, and the next table of a list, and answers the table of which keys follow.
    fn header(&mut self, s: &'a str, keys: (String, Option<String>)) -> Result<Site, AllocError> {
        let (at, (key, second)) = (skip_ws(s.trim_start_matches('[')), keys);
        let list = DOCUMENT_KEYS.into_iter().find(|list| key.as_str() == *list);
        let count = match self.tables_of(key.as_str()) {
            Some(count) => *count,
            None => 0,
        };
        self.put_place(Site::Document, key, at)?;
        match (list, second) {
            (Some(list), None) if s.starts_with("[[") => {
                if let Some(tables) = self.tables_of(list) {
                    *tables = count.saturating_add(1);
                }
                self.put_place(Site::Of(list, count), String::new(self.alloc), at)?;
                Ok(Site::Of(list, count))
            }
            (Some(list), Some(key)) if count > 0 => {
                let second = at.split_once('.').map_or("", |(_, second)| skip_ws(second));
                self.put_place(Site::Of(list, count - 1), key, second)?;
                Ok(Site::Elsewhere)
            }
            _ => Ok(Site::Elsewhere),
        }
    }

    /// Puts the key of a line, or what a header tells, moves on, and answers the table of which keys follow.
    fn line(&mut self, site: Site, s: &mut &'a str) -> Result<Site, AllocError> {
        let (at, start) = (*s, skip_ws(s.trim_start_matches('[')));
        let (Key { mut path, last }, rest) = match dotted_key(self.alloc, start) {
            Ok(read) => read,
            Err(ParseError::OutOfMemory) => return Err(AllocError),
            Err(_) => return Ok(Site::Elsewhere),
        };
        path.push(last)?;
        let mut parts = path.into_iter();
        let key = parts.next().unwrap_or(String::new(self.alloc));
        if at.starts_with('[') {
            *s = rest.trim_start_matches(']');
            return self.header(at, (key, parts.next()));
        }
        let value = skip_ws(rest.trim_start_matches('='));
        *s = behind_value(self.alloc, value)?;
        self.places.push(Place(site, key, (at, value, *s)))?;
        Ok(site)
    }

    /// Puts the keys of a table, and the headers behind them, up to a closing brace or the end of the text.
    pub(super) fn put_keys(&mut self, mut site: Site, s: &'a str) -> Done {
        let mut rest = next(s);
        for _ in 0..s.len() {
            if matches!(first(rest), 0 | b'}') {
                break;
            }
            site = self.line(site, &mut rest)?;
            rest = next(rest);
        }
        Ok(())
    }

    /// Puts the elements of the list at a key of the document, where its value is one.
    pub(super) fn put_elements(&mut self, list: &'static str) -> Done {
        let (_, value, _) = self.find(Site::Document, list).unwrap_or(("", "", ""));
        let mut rest = next(value.strip_prefix('[').unwrap_or(""));
        for index in 0..value.len() {
            if matches!(first(rest), 0 | b']') {
                break;
            }
            let (site, no_key) = (Site::Of(list, index), String::new(self.alloc));
            let after = behind_value(self.alloc, rest)?;
            self.places.push(Place(site, no_key, (rest, rest, after)))?;
            if let Some(inside) = rest.strip_prefix('{') {
                self.put_keys(site, inside)?;
            }
            rest = next(after);
        }
        Ok(())
    }
}
