/// What is called around each line of a worker. It may wait, and hold workers up as it likes.
pub trait Gate {
    /// Before a worker asks for the lock for a line. Workers and lines count from 1.
    fn before(&self, worker: u64, line: usize);

    /// After it has given the lock back, whatever the answer.
    fn after(&self, worker: u64, line: usize);
}

/// A gate that lets every line pass.
#[derive(Clone, Copy, Debug)]
pub struct NoGate;

impl Gate for NoGate {
    fn before(&self, _worker: u64, _line: usize) {}

    fn after(&self, _worker: u64, _line: usize) {}
}
