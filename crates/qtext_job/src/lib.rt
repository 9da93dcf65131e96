//! The command line: the job that its words ask for, or why they ask for none.
#![tactic(auto)]

pub use job::{CheckJob, ExpandJob, Job, ReplayJob, RunJob, ServeJob};
pub use line_fault::LineFault;
pub use pair::Pair;
pub use share_options::ShareOptions;

mod job;
mod line_fault;
mod number;
mod pair;
mod report_options;
mod share_options;
