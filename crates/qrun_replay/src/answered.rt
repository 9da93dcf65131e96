use crate::places::Places;

/// What a worker was answered: for each of its lines, in order, where the answer stands.
#[derive(Drop)]
pub struct Answered {
    /// The worker's number, from 1.
    pub worker: u64,
    pub places: Places,
}
