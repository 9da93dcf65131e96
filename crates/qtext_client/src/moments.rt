//! What tells the moments of a client's lines.
ghost use Rattle.std.specs.Prelude.{◌≡◌, ◌∷◌, [], Bool, false};
ghost use Rattle.qtext_client.specs.Conversations.{what_is_said};

use qplain::Line;
use std::time::Clock;

/// What tells the moments of a client's lines: these themselves, or a clock. By the clock the client's turns come, too.
pub trait Moments {
    type Clock: Clock;

    /// Whether the clock tells them.
    ghost clocked: { Bool };

    /// The moment of a line that tells this one.
    fn moment(&self, told: u64) -> u64
        ensures { clocked ≡ false → result ≡ told };

    /// The clock.
    fn clock(&self) -> &Self::Clock;
}

/// A line's moment is the one that it tells.
#[derive(Drop)]
pub struct OwnMoments<'a, T: Clock> {
    pub clock: &'a T,
}

impl<'a, T: Clock> Moments for OwnMoments<'a, T> {
    type Clock = T;

    ghost use Rattle.std.specs.Prelude.{false};

    ghost clocked = { false };

    fn moment(&self, told: u64) -> u64 {
        told
    }

    fn clock(&self) -> &T {
        self.clock
    }
}

/// A line's moment is that of the clock, in seconds since 1970, and 0 where the clock tells none.
#[derive(Drop)]
pub struct ClockMoments<'a, T: Clock> {
    pub clock: &'a T,
}

impl<'a, T: Clock> Moments for ClockMoments<'a, T> {
    type Clock = T;

    ghost use Rattle.std.specs.Prelude.{true};

    ghost clocked = { true };

    fn moment(&self, _told: u64) -> u64 {
        match self.clock.since_1970() {
            Ok(time) => time.as_secs(),
            Err(_) => 0,
        }
    }

    fn clock(&self) -> &T {
        self.clock
    }
}

/// The line at its moment.
pub(crate) fn timed<M: Moments>(moments: &M, mut line: Line) -> Line
    ensures { what_is_said M.clocked (result ∷ []) ≡ what_is_said M.clocked (line ∷ []) }
{
    line.moment = moments.moment(line.moment);
    line
}
