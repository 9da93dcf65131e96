//! Outcomes of runs for programs: lines of JSON, and reports as records of CSV.
#![tactic(auto)]

pub use formatted::put_formatted;

mod call_members;
mod field;
mod formatted;
mod line_objects;
mod objects;
mod part;
mod record_objects;
mod reply_members;
mod report_rows;
mod rest_objects;
mod value;
