//! The turns of a client: so many a second, of which each of its lines takes one and more.
ghost use Rattle.std.specs.Prelude.{◌≡◌, ◌+◌, ◌*◌, ◌-◌};
ghost use Rattle.qtext_client.specs.Turns.{HaveTaken, after_turns, new_turns};
ghost use Rattle.qtext_client.specs.declared.turns.TheConstants.{AT_ONCE};

use crate::moments::Moments;
use std::time::{Clock, Duration};

/// So many turns may be taken at once by a client that has taken none for as long as they last.
pub const AT_ONCE: u64 = 64;

/// As many bytes of a line, or of what it writes and reads, take one turn more.
pub(crate) const KIB: u64 = 1_024;

/// A second, in nanoseconds.
const SECOND: u64 = 1_000_000_000;

/// The turns of a client, in nanoseconds of a clock.
#[derive(Clone, Copy, Debug)]
pub struct Turns {
    /// How long one lasts.
    pub each: u64,
    /// When all that were taken are over.
    pub until: u64,
}

impl Turns {
    /// So many turns a second, at least one, of which none was taken.
    pub fn new(rate: u64) -> Turns
        ensures { result ≡ new_turns rate }
    {
        Turns {
            each: SECOND / rate.max(1),
            until: 0,
        }
    }

    /// How long to wait at this time for the next turn.
    pub fn wait(&self, now: u64) -> u64
        ensures { result ≡ self.now.until - (now + AT_ONCE * self.now.each) }
    {
        self.until
            .saturating_sub(now)
            .saturating_sub(self.each.saturating_mul(AT_ONCE))
    }

    /// Takes so many turns at this time.
    pub fn take(&mut self, many: u64, now: u64)
        ensures { self.new ≡ after_turns self.old many now }
    {
        let begun = self.until.max(now);
        self.until = begun.saturating_add(self.each.saturating_mul(many));
    }
}

/// The time that a clock shows, in nanoseconds since some beginning; 0 where it shows none.
fn passed<T: Clock>(clock: &T) -> u64 {
    match clock.monotonic() {
        Ok(time) => u64::try_from(time.as_nanos()).unwrap_or(u64::MAX),
        Err(_) => 0,
    }
}

/// Waits for so many nanoseconds.
fn pause<T: Clock>(clock: &T, nanoseconds: u64) {
    if nanoseconds > 0 {
        clock.sleep(Duration::from_nanos(nanoseconds));
    }
}

/// Waits for a client's turn, where it has turns, and takes so many.
pub(crate) fn await_turns<M: Moments>(turns: &mut Option<Turns>, moments: &M, many: u64)
    ensures { HaveTaken many turns.old turns.new }
{
    if let Some(turns) = turns {
        let now = passed(moments.clock());
        let wait = turns.wait(now);
        pause(moments.clock(), wait);
        turns.take(many, now.saturating_add(wait));
    }
}
