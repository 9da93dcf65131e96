use qplain::{CallFault, Line};

/// A line that stands in no journal, and why.
#[derive(Drop)]
pub struct FailedLine {
    pub line: Line,
    pub fault: CallFault,
}
