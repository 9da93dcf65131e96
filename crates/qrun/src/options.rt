//! How a run is made.
ghost use Rattle.std.specs.Prelude.{◌≡◌};

/// How the workers of a run take the lock, and how many boards are looked at beside them.
#[derive(Clone, Copy, Debug, PartialEq, Eq)]
pub struct Options {
    /// N boards are looked at while the workers go on, in a thread with a seat of its own; 0: there is none.
    pub boards: u64,
    /// For N lines at a time a worker takes the lock, 1 to 64.
    pub batch: u64,
}

impl Options {
    /// No boards, and the lock is taken line by line.
    pub fn plain() -> Options
        ensures { result ≡ record { boards = 0; batch = 1 } }
    {
        Options {
            boards: 0,
            batch: 1,
        }
    }
}
