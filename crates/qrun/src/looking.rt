//! Who is to look at the boards of a store while a crew plays on it.
ghost use Rattle.std.specs.Prelude.{◌≡◌, ℕ};
ghost use Rattle.qrun.specs.Looking.{lookers_in, looks_to_keep, monitor_of};
ghost use Rattle.qrun.specs.Serving.{monitors_in};
ghost use Rattle.qrun.specs.Watching.{seats_for};

/// Who is to look at the boards of a store while a crew plays on it.
#[derive(Drop)]
pub(crate) enum Looking<M: Drop> {
    /// Nobody, so that calls take less.
    Nobody,
    /// One more thread, so many times, spread over so many calls.
    Watching { calls: u64, boards: u64 },
    /// A monitor, to which one more thread shows them as they come.
    Showing(M),
}

impl<M: Drop> Looking<M> {
    /// Who looks so many times, spread over so many calls: nobody, where that is no time.
    pub(crate) fn times(calls: u64, boards: u64) -> Looking<M>
        ensures seats { (n : ℕ) → seats_for n (lookers_in result) ≡ seats_for n boards }
        ensures looks { looks_to_keep result ≡ boards }
    {
        if boards == 0 {
            Looking::Nobody
        } else {
            Looking::Watching { calls, boards }
        }
    }

    /// This monitor, or nobody, where there is none.
    pub(crate) fn of_monitor(monitor: Option<M>) -> Looking<M>
        ensures lookers { lookers_in result ≡ monitors_in monitor }
        ensures looks { looks_to_keep result ≡ 0 }
        ensures monitor { monitor_of result ≡ monitor }
    {
        match monitor {
            Some(monitor) => Looking::Showing(monitor),
            None => Looking::Nobody,
        }
    }

    /// How many look.
    pub(crate) fn lookers(&self) -> u64
        ensures { result ≡ lookers_in self.now }
    {
        match self {
            Looking::Nobody => 0,
            Looking::Watching { .. } | Looking::Showing(_) => 1,
        }
    }
}
