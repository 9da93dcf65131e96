use qplain::{Entry, Setup, Tallies};
use qstore::Store;

/// What a journaled store is taken apart into: the setup that it began with, the store, its journal and the journal's
/// tally.
#[derive(Drop)]
pub struct Ended {
    pub setup: Setup,
    pub store: Store,
    pub journal: Vec<Entry>,
    pub tallies: Tallies,
}
