use std::alloc::Global;

/// What a run, a service or a whole job is done with: threads and a clock, memory, and the number at which the hashes
/// of names begin. It may be any, best one that nobody knows beforehand where names come from strangers; nothing of an
/// outcome depends on it.
#[derive(Drop)]
pub struct Machine<'a, R> {
    pub rt: &'a R,
    pub alloc: Global,
    pub seed: u64,
}
