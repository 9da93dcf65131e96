use crate::{ReportMoment, View};

/// How it is told what came of a run or of a replay.
#[derive(Clone, Copy, Debug, PartialEq, Eq)]
pub struct Telling {
    /// The moment of the report.
    pub at: ReportMoment,
    pub view: View,
    /// Whether a line that was refused or failed is a fault.
    pub strict: bool,
    /// Whether it is told why a file cannot be read.
    pub verbose: bool,
}
