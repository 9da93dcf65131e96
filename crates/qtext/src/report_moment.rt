/// The moment as of which a report is made.
#[derive(Clone, Copy, Debug, PartialEq, Eq)]
pub enum ReportMoment {
    /// This moment, in seconds.
    At(u64),
    /// The greatest moment of any line.
    Last,
}
