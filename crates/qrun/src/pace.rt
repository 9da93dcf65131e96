//! When the looks at the boards of a run are made: they are spread over its calls.
ghost use Rattle.std.specs.Prelude.{◌≡◌, ◌*◌, ◌+◌, ◌/◌};
ghost use Rattle.qrun.specs.Watching.{HasWaited};

use qrules::Kind;
use qshare::Seat;
use qshare_boards::Viewer;
use qshare_history::StoreId;
use std::thread::yield_now;

/// How often in a row a look that comes early lets others run while the board shows no further call.
const PATIENCE: u32 = 200_000;

/// The pace of N looks: they cut the calls of a run into N + 1 parts, as far as calls go on.
#[derive(Drop)]
pub(crate) struct Pace {
    calls: u64,
    looks: u64,
    shown: u64,
    patience: u32,
}

impl Pace {
    /// The pace of N looks beside this many calls, of which none was shown.
    pub(crate) fn new(calls: u64, looks: u64) -> Pace
        ensures calls { result.calls ≡ calls }
        ensures looks { result.looks ≡ looks }
    {
        Pace {
            calls,
            looks,
            shown: 0,
            patience: PATIENCE,
        }
    }

    /// After how many calls the look of this number, from 0, is due.
    fn due(&self, look: u64) -> u128
        ensures { result ≡ (self.now.calls * (look + 1)) / (self.now.looks + 1) }
    {
        self.calls as u128 * (look as u128 + 1) / (self.looks as u128 + 1)
    }

    /// Whether the board shows more calls than it did.
    fn sees_more<S: StoreId>(&mut self, seat: &mut Seat<S, Viewer<S>>) -> bool
        ensures { HasWaited seat.old seat.new }
    {
        match seat.record(Kind::User, 0) {
            Ok((version, _)) if version > self.shown => {
                self.shown = version;
                self.patience = PATIENCE;
                true
            }
            _ => false,
        }
    }

    /// Lets others run until the board shows more calls, or patience has an end.
    fn waits_for_more<S: StoreId>(&mut self, seat: &mut Seat<S, Viewer<S>>) -> bool
        ensures { HasWaited seat.old seat.new }
    {
        for _ in 0..self.patience {
            if self.sees_more(seat) {
                return true;
            }
            yield_now();
        }
        self.patience = 0;
        self.sees_more(seat)
    }

    /// Lets others run until the look of this number, from 0, is due, as far as calls go on. It takes no lock, and
    /// waits for nobody: where calls do not go on, it ends.
    pub(crate) fn wait<S: StoreId>(&mut self, seat: &mut Seat<S, Viewer<S>>, look: u64)
        ensures { HasWaited seat.old seat.new }
    {
        let due = self.due(look);
        for _ in 0..self.calls {
            if self.shown as u128 >= due || !self.waits_for_more(seat) {
                return;
            }
        }
    }
}
