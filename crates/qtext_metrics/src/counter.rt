//! Counters of a service, with their names.
ghost use Rattle.std.specs.Prelude.{◌≡◌};
ghost use Rattle.qtext.specs.Written.{Writes};
ghost use Rattle.qtext_metrics.specs.Services.{counter_head, counter_help, counter_name};

use qtext::{Piece, Written, put_pieces};
use std::io::Write;

/// A counter: a number of each of its kinds, which only rises.
#[derive(Clone, Copy, Debug, PartialEq, Eq)]
pub(crate) enum Counter {
    Refused,
    Failed,
    Faulty,
    Calls,
}

impl Counter {
    /// The name of its samples.
    pub(crate) fn name(self) -> &'static [u8]
        ensures { result.now ≡ counter_name self }
    {
        match self {
            Counter::Refused => b"quotafs_refused_total",
            Counter::Failed => b"quotafs_failed_lines_total",
            Counter::Faulty => b"quotafs_faulty_lines_total",
            Counter::Calls => b"quotafs_client_calls_total",
        }
    }

    /// What its samples are, in a sentence.
    fn help(self) -> &'static [u8]
        ensures { result.now ≡ counter_help self }
    {
        match self {
            Counter::Refused =>
                b"Calls that were refused, by error, and for a quota by kind and limit.",
            Counter::Failed => b"Lines that have failed, which are in no journal.",
            Counter::Faulty => b"What was no line, or none that its client may write.",
            Counter::Calls => b"Calls that each client has made.",
        }
    }
}

/// Writes what its samples are, and that it is a counter.
pub(crate) fn put_head<W: Write>(out: &mut W, counter: Counter) -> Written
    ensures { Writes (W.contents out.old) (W.contents out.new) result (counter_head counter) }
{
    let name = Piece::Text(counter.name());
    put_pieces(
        out,
        &[
            Piece::Text(b"# HELP "),
            name,
            Piece::Text(b" "),
            Piece::Text(counter.help()),
            Piece::Text(b"\n# TYPE "),
            name,
            Piece::Text(b" counter\n"),
        ],
    )
}
