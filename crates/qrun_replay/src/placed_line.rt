//! Lines of transcripts.
ghost use Rattle.std.specs.Prelude.{◌≡◌};
ghost use Rattle.qrun_replay.specs.Placed.{line_of_entry};

use qplain::{Call, Cred, Entry, Line};
use std::marker::Model;

/// A worker's line, seen in the journal, or kept where it failed. Contracts see a line.
#[derive(Drop)]
pub struct PlacedLine<'a> {
    cred: &'a Cred,
    moment: u64,
    call: &'a Call,
}

impl<'a> Model for PlacedLine<'a> {
    ghost use Rattle.qplain.specs.declared.line.Line.{Line};

    ghost Value = { Line };

    ghost view = { λ l. record { cred = l.cred.now; moment = l.moment; call = l.call.now } };
}

impl<'a> PlacedLine<'a> {
    /// The line of an entry.
    #[inline(always)]
    pub(crate) fn of_entry(entry: &'a Entry) -> Self
        ensures { result ≡ line_of_entry entry.now }
    {
        PlacedLine {
            cred: &entry.cred,
            moment: entry.moment,
            call: &entry.call,
        }
    }

    /// A line that is kept.
    #[inline(always)]
    pub(crate) fn of_line(line: &'a Line) -> Self
        ensures { result ≡ line.now }
    {
        PlacedLine {
            cred: &line.cred,
            moment: line.moment,
            call: &line.call,
        }
    }

    /// Who calls.
    pub fn cred(&self) -> &'a Cred
        ensures { result.now ≡ self.now.cred }
    {
        self.cred
    }

    /// When, in seconds.
    pub fn moment(&self) -> u64
        ensures { result ≡ self.now.moment }
    {
        self.moment
    }

    /// What is asked.
    pub fn call(&self) -> &'a Call
        ensures { result.now ≡ self.now.call }
    {
        self.call
    }
}
