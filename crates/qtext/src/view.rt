use crate::Format;

/// What of an outcome is shown, and in which form.
#[derive(Clone, Copy, Debug, PartialEq, Eq)]
pub struct View {
    /// The form of what is shown.
    pub format: Format,
    /// The report alone.
    pub quiet: bool,
    /// A line over the report that names its columns.
    pub heads: bool,
    /// Each reply behind its line's place and call.
    pub calls: bool,
    /// Blocks and inodes of the report in larger units.
    pub human_readable: bool,
    /// Of the report only who is over a limit.
    pub over: bool,
}
