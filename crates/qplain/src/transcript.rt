use crate::{CallFault, Line, Receipt};
use qrules::Items;

/// What a worker was answered: the lines of its script, and one answer to each of them, in order.
#[derive(Debug, PartialEq, Eq, Drop)]
pub struct Transcript {
    /// The worker's number, from 1.
    pub worker: u64,
    pub lines: Items<Line>,
    pub answers: Items<Result<Receipt, CallFault>>,
}
