//! How an outcome is shown.
use qtext::View;

/// What of an outcome is shown, and as of which moment its report is made.
#[derive(Clone, Copy)]
pub struct Shown {
    pub view: View,
    pub moment: u64,
}
