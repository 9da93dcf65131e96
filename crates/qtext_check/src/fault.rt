use qplain::Refusal;
use qtext::TextKind;

/// As many faults of a file are told at most.
pub const MOST_TOLD: usize = 100;

/// What is wrong in a line.
#[derive(Clone, Copy, Debug, PartialEq, Eq)]
pub enum Wrong {
    /// It is no line of a script.
    Text(TextKind),
    /// Its call is refused, whatever the store holds.
    Refused(Refusal),
}

/// A line at fault, counted from 1, with the first thing wrong in it.
#[derive(Clone, Copy, Debug, PartialEq, Eq)]
pub struct FaultyLine {
    pub line: u64,
    pub wrong: Wrong,
}

/// A fault beside its line.
#[derive(Clone, Copy, Debug)]
pub struct Finding<'a> {
    pub fault: FaultyLine,
    /// Which word of the line is at fault, from 0, where one is.
    pub word: usize,
    /// The line, with no line end.
    pub bytes: &'a [u8],
}
