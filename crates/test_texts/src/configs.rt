//! Configurations: read, spelled again, and read with one more comment.

use crate::answer::Answer;
use crate::setups::text_of;
use qtext_config::{Config, ConfigFault};
use std::alloc::{AllocError, Global};
use std::io;

/// What is put behind a text: it closes nothing, and begins nothing but a comment.
const COMMENT: &str = " # further\n";

/// The text with a comment behind it.
fn with_comment(alloc: Global, text: &str) -> Result<String, AllocError> {
    let mut longer = String::from_str(alloc, text)?;
    longer.push_str(COMMENT)?;
    Ok(longer)
}

/// Whether a text reads as this configuration.
fn reads_as(alloc: Global, text: &str, config: &Config) -> bool {
    match Config::read(alloc, text) {
        Ok(again) => again == *config,
        Err(_) => false,
    }
}

/// Whether a text is refused for just this.
fn is_refused(alloc: Global, text: &str, fault: &ConfigFault) -> bool {
    match Config::read(alloc, text) {
        Ok(_) => false,
        Err(again) => again == *fault,
    }
}

/// What a configuration comes to that was read from this text.
fn answer_of_read(alloc: Global, text: &str, config: &Config) -> Result<Answer, AllocError> {
    let longer = with_comment(alloc, text)?;
    let spelled = text_of(alloc, config)?;
    if reads_as(alloc, &longer, config) && reads_as(alloc, &spelled, config) {
        return Ok(Answer::Read);
    }
    Ok(Answer::SpelledOtherwise)
}

/// What a text comes to that is refused as a configuration for this.
fn answer_of_fault(alloc: Global, text: &str, fault: ConfigFault) -> Result<Answer, AllocError> {
    let longer = with_comment(alloc, text)?;
    if is_refused(alloc, &longer, &fault) {
        return Ok(Answer::RefusedConfig(fault));
    }
    Ok(Answer::MisnamedConfig(fault))
}

/// What a text comes to as a configuration.
pub(crate) fn answer_of_config(alloc: Global, bytes: &[u8]) -> io::Result<Answer> {
    let Ok(text) = std::str::from_utf8(bytes) else {
        return Ok(Answer::NotUtf8);
    };
    match Config::read(alloc, text) {
        Ok(config) => Ok(answer_of_read(alloc, text, &config)?),
        Err(fault) => Ok(answer_of_fault(alloc, text, fault)?),
    }
}
