//! All that is wrong in a script, line by line, and in a configuration, by its keys and tables, and how it is told.
#![tactic(auto)]

pub use config::{ConfigFinding, Verdict, check_config};
pub use fault::{FaultyLine, Finding, MOST_TOLD, Wrong};
pub use finding_texts::{fault_text, finding_text};
pub use findings::findings_of;
pub use near::near_of;
pub use shown::{put_name, put_word};

mod allowed;
mod config;
mod fault;
mod finding_texts;
mod findings;
mod near;
mod place;
mod refusing;
mod shown;
