/// In which form it is told what came of scripts and journals.
#[derive(Clone, Copy, Debug, PartialEq, Eq)]
pub enum Format {
    /// As people read it.
    Text,
    /// An object of JSON a line.
    Json,
    /// The report alone, as records of CSV.
    Csv,
}
