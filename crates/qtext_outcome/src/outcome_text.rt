//! Outcomes as text.
ghost use Rattle.std.specs.Prelude.{◌≡◌, codes, decimal, ◌∷◌, []};
ghost use Rattle.std.specs.List.{concat};
ghost use Rattle.qtext.specs.Written.{Writes};
ghost use Rattle.qtext_outcome.specs.Outcomes.{outcome_end, moment_text, outcome_text, rest_text, tally_text};
ghost use Rattle.qtext_outcome.specs.Outcomes.{totals_text};

use crate::counts::put_counts;
use crate::shown_text::{put_shown, put_shown_left};
use crate::{Shown, WriteFault};
use qaudit::put_audit;
use qplain::Tallies;
use qrun_replay::Outcome;
use qtext::{Format, RefusedWrite, View, Written};
use std::io::Write;

/// A view that asks for nothing.
const PLAIN: View = View {
    format: Format::Text,
    quiet: false,
    heads: false,
    calls: false,
    human_readable: false,
    over: false,
};

pub(crate) fn put_moment<W: Write>(out: &mut W, moment: u64) -> Written
    ensures { Writes (W.contents out.old) (W.contents out.new) result (moment_text moment) }
{
    put_counts(out, &[(b"quota at ", moment)])
}

fn put_totals<W: Write>(out: &mut W, outcome: &Outcome) -> Written
    ensures { Writes (W.contents out.old) (W.contents out.new) result (totals_text outcome.now) }
{
    let totals: [(&[u8], u64); 4] = [
        (b"totals blocks ", outcome.store.blocks()),
        (b" of ", outcome.setup.blocks()),
        (b" inodes ", outcome.store.inodes()),
        (b" of ", outcome.setup.inodes()),
    ];
    put_counts(out, &totals)
}

fn put_tally<W: Write>(out: &mut W, tallies: Tallies) -> Written
    ensures { Writes (W.contents out.old) (W.contents out.new) result (tally_text tallies) }
{
    let tally: [(&[u8], u64); 5] = [
        (b"tally blocks +", tallies.blocks_charged),
        (b" -", tallies.blocks_released),
        (b" inodes +", tallies.inodes_charged),
        (b" -", tallies.inodes_released),
        (b" calls ", tallies.calls),
    ];
    put_counts(out, &tally)
}

/// Writes what stands below a report: the totals, the tallies of the journal, and what an audit of the store found.
pub(crate) fn put_rest<W: Write>(out: &mut W, outcome: &Outcome) -> Written
    ensures { Writes (W.contents out.old) (W.contents out.new) result (rest_text outcome.now) }
{
    put_totals(out, outcome)?;
    put_tally(out, outcome.tallies)?;
    put_audit(out, outcome.differences.as_slice())
}

/// Writes what is left at the end of a run or of a service: the quota report as of the moment, the totals, the tallies
/// of the journal, and what an audit of the store found. It takes no memory. After an Err some beginning of the text
/// went out.
pub fn put_left<W: Write>(out: &mut W, outcome: &Outcome, moment: u64) -> Written
    ensures { Writes (W.contents out.old) (W.contents out.new) result (outcome_end outcome.now moment) }
{
    let view = PLAIN;
    put_shown_left(out, Shown { view, moment }, outcome)
}

/// Writes what a run came to: each worker's transcript, what the looks at the boards were given where there were any,
/// the quota report as of the moment, the totals, the tallies of the journal, and what an audit of the store found. It
/// takes no memory.
///
/// Totals and bounds are in blocks of 4096 bytes and in inodes; the report is in KiB (profile, after repquota(8)).
/// After an Err some beginning of the text went out.
pub fn put_outcome<W: Write>(out: &mut W, outcome: &Outcome, moment: u64) -> Written
    ensures { Writes (W.contents out.old) (W.contents out.new) result (outcome_text outcome.now moment) }
{
    put_shown(out, PLAIN, outcome, moment)
}

/// The outcome, of which a refusal has its number.
pub fn write_outcome<W: Write>(
    outcome: &Outcome,
    moment: u64,
    out: &mut W,
) -> Result<(), WriteFault>
    ensures { Writes (W.contents out.old) (W.contents out.new) result (outcome_text outcome.now moment) }
{
    match put_outcome(out, outcome, moment) {
        Ok(()) => Ok(()),
        Err(RefusedWrite) => Err(WriteFault::Write),
    }
}
