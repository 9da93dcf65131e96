//! What a service has counted, as it is looked at now and then.

use qtext_client::Counts;
use qtext_metrics::ServiceCounts;
use std::time::Clock;

/// What a service had counted when it was looked at last. The last call was made no later than the look that saw it,
/// and after the look before that.
#[derive(Drop)]
pub(crate) struct SeenCounts<'a> {
    counts: &'a Counts,
    pub(crate) last: ServiceCounts,
    /// Whether that look was for a board, and none was due since.
    is_new: bool,
}

impl<'a> SeenCounts<'a> {
    /// What was counted so far, by no call.
    pub(crate) fn new(counts: &'a Counts) -> Self {
        SeenCounts {
            counts,
            last: counts.counted(0),
            is_new: false,
        }
    }

    /// Looks again, by this clock. It tells whether anything was counted since the last look.
    pub(crate) fn look<R: Clock>(&mut self, clock: &R) -> bool {
        let mut now = self.counts.counted(self.last.last_call);
        if now == self.last {
            return false;
        }
        if now.calls != self.last.calls
            && let Ok(moment) = clock.since_1970()
        {
            now.last_call = moment.as_secs();
        }
        self.last = now;
        true
    }

    /// Looks again, for a board that is new.
    pub(crate) fn look_for_board<R: Clock>(&mut self, clock: &R) {
        self.look(clock);
        self.is_new = true;
    }

    /// Looks again, unless the last look was for a board: that is not looked at twice without a pause. It tells whether
    /// anything was counted since.
    pub(crate) fn is_due<R: Clock>(&mut self, clock: &R) -> bool {
        if self.is_new {
            self.is_new = false;
            return false;
        }
        self.look(clock)
    }
}
